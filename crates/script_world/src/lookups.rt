//! Finding what is declared.
ghost use Rattle.std.specs.Prelude.{◌≡◌, ℕ, ◌<◌, ◌==◌, ◌↔◌, IfSome, IsSome, is_some, length};
ghost use Rattle.std.specs.List.{position};
ghost use Rattle.std.specs.Option.{option_map};
ghost use Rattle.script_world.specs.Draft.{speed_of, device_of, hub_of, ep_text, epochs_after, device_ep, hub_ep, is_name, known, hub_desc};
ghost use Rattle.script_world.specs.Rows.{name_of, is_used};

use crate::draft::Draft;
use crate::endpoints::same_way;
use script_forms::Name;
use script_types::HubText;
use usb_base::{DevAddr, EpDesc, EpKind, EpName, EpNum, Speed, Way};

/// Whether a hub has this address.
fn is_hub(hub: &HubText, addr: u32) -> bool
    ensures { result ≡ (hub.now.addr == addr) }
{
    hub.addr.get() as u32 == addr
}

/// The control endpoint 0 of a hub.
fn hub_desc(addr: DevAddr, num: EpNum) -> EpDesc
    requires { num ≡ 0 }
    ensures { result ≡ hub_desc addr }
{
    EpDesc {
        name: EpName {
            addr,
            num,
            way: Way::Ctl,
        },
        speed: Speed::High,
        kind: EpKind::Control,
        max: 64,
        period: 0,
        multi: 1,
        hub: None,
        port: 0,
        tt: 0,
    }
}

/// Whether an address and a number are those of an endpoint.
fn is_name(name: &Name) -> bool
    ensures { result ≡ is_name name.now }
{
    name.addr <= 127 && name.num <= 15
}

impl Draft {
    /// The name of a declared endpoint.
    pub(crate) fn name_in(&self, name: &Name) -> Option<EpName>
        ensures same { IfSome result (λ e. e ≡ name_of name.now) }
        ensures known { is_some result ≡ is_some (known self.now name.now) }
    {
        if !is_name(name) {
            return None;
        }
        if self.known(name).is_none() {
            return None;
        }
        let Some(addr) = DevAddr::new(name.addr as u8) else {
            return None;
        };
        let Some(num) = EpNum::new(name.num as u8) else {
            return None;
        };
        Some(EpName {
            addr,
            num,
            way: name.way,
        })
    }

    /// The place of a hub.
    pub(crate) fn hub_place(&self, addr: u32) -> Option<usize>
        ensures { result ≡ position (λ h. h.addr == addr) self.now.hubs }
    {
        self.hubs.iter().position(|hub| is_hub(hub, addr))
    }

    /// The place of a device.
    pub(crate) fn device_place(&self, addr: u32) -> Option<usize>
        ensures { result ≡ position (λ d. d.addr == addr) self.now.devices }
    {
        self.devices
            .iter()
            .position(|device| device.addr().get() as u32 == addr)
    }

    /// The speed of a device.
    #[tactic(auto, using(crate::proofs::Places::find_at, crate::proofs::Places::find_nowhere))]
    pub(crate) fn speed_of(&self, addr: u32) -> Option<Speed>
        ensures { result ≡ speed_of self.now addr }
    {
        let Some(place) = self.device_place(addr) else {
            return None;
        };
        Some(self.devices[place].speed())
    }

    /// A declared endpoint of a declared device.
    #[tactic(auto, using(crate::proofs::Places::find_at, crate::proofs::Places::find_nowhere))]
    pub(crate) fn device_ep(&self, name: &Name) -> Option<EpDesc>
        ensures { result ≡ device_ep self.now name.now }
    {
        let Some(place) = self.device_place(name.addr) else {
            return None;
        };
        self.devices[place].ep(name)
    }

    /// How many epochs an endpoint of a declared device has behind its first.
    #[tactic(auto, using(crate::proofs::Places::find_at, crate::proofs::Places::find_nowhere))]
    pub(crate) fn epochs_after(&self, name: &Name) -> Option<usize>
        ensures { result ≡ option_map epochs_after (ep_text self.now name.now) }
    {
        let Some(place) = self.device_place(name.addr) else {
            return None;
        };
        self.devices[place].epochs_after(name)
    }

    /// A hub's own endpoint.
    #[tactic(auto, using(crate::proofs::Places::find_at, crate::proofs::Places::find_nowhere))]
    pub(crate) fn hub_ep(&self, name: &Name) -> Option<EpDesc>
        ensures { result ≡ hub_ep self.now name.now }
    {
        if !(name.num == 0 && same_way(name.way, Way::Ctl)) {
            return None;
        }
        let Some(place) = self.hub_place(name.addr) else {
            return None;
        };
        let Some(num) = EpNum::new(0) else {
            return None;
        };
        Some(hub_desc(self.hubs[place].addr, num))
    }

    /// An endpoint that is declared, by a line of its own or by its hub's.
    pub(crate) fn known(&self, name: &Name) -> Option<EpDesc>
        ensures { result ≡ known self.now name.now }
    {
        if !is_name(name) {
            return None;
        }
        match self.device_ep(name) {
            Some(desc) => Some(desc),
            None => self.hub_ep(name),
        }
    }
}
