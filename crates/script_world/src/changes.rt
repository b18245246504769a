//! What a line adds to the script.
ghost use Rattle.std.specs.Prelude.{◌≡◌, ℕ, ◌<◌, ◌≤◌, ◌==◌, ◌++◌, ◌∷◌, not, length, Option, Some, None, List, IfOk, IfSome, IsSome, is_some, IfNone, replicate, unwrap_or, slice_set, slice_get, [], true};
ghost use Rattle.std.specs.List.{position};
ghost use Rattle.script_types.specs.declared.devices.HubText.{HubText as Hub};
ghost use Rattle.script_world.specs.Draft.{change, known, filled};
ghost use Rattle.script_world.specs.Rows.{name_of, counted, answered, roomier, stuffed, at_ep, attach, device, translator_of};
ghost use Rattle.script_world.specs.Rows.{translator_below, with_ep, desc_of, content_len, content_bytes, bytes_len, commanded, by_of};
ghost use Rattle.script_world.specs.Rows.{put_room, after_hub, after_high, placed_below, after_below, after_ep, after_reply, after_fate};
ghost use Rattle.script_world.specs.Rows.{after_stuff, after_open, after_cancel, after_clear, after_get, after_put, after_control, after_iso, after};
ghost use Rattle.script_world.specs.Rows.{taken, cause_of};

use crate::bytes::{counted, filled, push};
use crate::causes::{answer_len, bytes_len, content_len, control_name};
use crate::devices::DeviceDraft;
use crate::draft::Draft;
use crate::endpoints::same_way;
use crate::ranges::{is_endpoint, is_slots, within};
use script_forms::{
    Answer, Below, Content, ControlLine, EpLine, FateLine, GetLine, IsoLine, Name, PutLine,
    Statement, TextWhy,
};
use script_types::{Event, FateText, HubText, Line};
use std::alloc::Global;
use usb_base::limits::LONGEST_QTD;
use usb_base::{Cmd, DevAddr, EpName, EpNum, ListOf, Memory, Speed, Way};

/// The bytes of a line.
fn content_bytes(alloc: Global, content: Content) -> Result<ListOf<u8>, Memory>
    ensures { IfOk result (λ bytes. bytes ≡ content_bytes content) }
{
    match content {
        Content::Given(bytes) => Ok(bytes),
        Content::Fill { len, seed } => {
            let bytes = filled(alloc, len, seed)?;
            Ok(ListOf::of(bytes))
        }
    }
}

/// These bytes, or none.
fn given(alloc: Global, bytes: Option<ListOf<u8>>) -> ListOf<u8>
    ensures { result ≡ unwrap_or bytes [] }
{
    match bytes {
        Some(bytes) => bytes,
        None => ListOf::of(Vec::new(alloc)),
    }
}

#[tactic(auto, using(crate::proofs::Fills::replicate_more))]
/// Ports with nothing attached.
fn no_devices(alloc: Global, ports: u32) -> Result<Vec<Option<Speed>>, Memory>
    ensures { IfOk result (λ new. new.items ≡ replicate ports None) }
{
    let mut new = Vec::with_capacity(alloc, ports as usize)?;
    for port in 0..ports {
        let _at = port;
        push(&mut new, None)?;
    }
    Ok(new)
}

/// Ports with one device more.
fn attached(
    alloc: Global,
    ports: &[Option<Speed>],
    at: usize,
    speed: Speed,
) -> Result<Vec<Option<Speed>>, Memory>
    ensures { IfOk result (λ new. new.items ≡ slice_set ports.now at (Some speed)) }
{
    let mut new = Vec::from_slice(alloc, ports)?;
    if at < new.len() {
        new[at] = Some(speed);
    }
    Ok(new)
}

/// Attaches a device to a port of a hub.
fn attach(alloc: Global, hub: &mut HubText, port: u32, speed: Speed) -> Result<(), Memory>
    ensures { IfOk result (λ _. hub.new ≡ attach port speed hub.old) }
{
    let at = port.saturating_sub(1) as usize;
    let ports = attached(alloc, hub.attached.as_slice(), at, speed)?;
    hub.attached = ListOf::of(ports);
    Ok(())
}

/// The translator of a port: the port where the hub has one for each, else 0.
fn translator_of(multi: bool, port: u8) -> u8
    ensures { result ≡ translator_of multi port }
{
    if multi {
        return port;
    }
    0
}

/// The bytes of a qTD.
fn by_of(by: Option<u32>) -> u32
    ensures { result ≡ by_of by }
{
    by.unwrap_or(LONGEST_QTD)
}

impl Draft {
    /// A command on a line.
    fn add_command(&mut self, line: u32, command: Cmd) -> Result<(), Memory>
        ensures { IfOk result (λ _. self.new ≡ commanded self.old line command) }
    {
        push(&mut self.lines, (line, Line::Command(command)))?;
        self.acting = true;
        self.commands = counted(self.commands, 1);
        Ok(())
    }

    /// A hub with nothing on its ports.
    fn add_hub(&mut self, alloc: Global, addr: u32, ports: u32, multi: bool) -> Result<(), Memory>
        ensures { IfOk result (λ _. self.new ≡ after_hub self.old addr ports multi) }
    {
        if !(within(1, 127, addr) && within(1, 15, ports)) {
            return Ok(());
        }
        let Some(addr) = DevAddr::new(addr as u8) else {
            return Ok(());
        };
        let attached = no_devices(alloc, ports)?;
        let hub = HubText {
            addr,
            ports: ports as u8,
            attached: ListOf::of(attached),
            multi,
        };
        push(&mut self.hubs, hub)?;
        self.declaring = true;
        Ok(())
    }

    /// A high-speed device.
    fn add_high(&mut self, alloc: Global, addr: u32) -> Result<(), Memory>
        ensures { IfOk result (λ _. self.new ≡ after_high self.old addr) }
    {
        if !within(1, 127, addr) {
            return Ok(());
        }
        let Some(addr) = DevAddr::new(addr as u8) else {
            return Ok(());
        };
        let device = DeviceDraft::new(alloc, addr, Speed::High, None, 0, 0);
        push(&mut self.devices, device)?;
        self.declaring = true;
        Ok(())
    }

    /// A device on a port of a hub, which stands at a place, behind a translator.
    #[tactic(auto, using(crate::proofs::Places::change_at))]
    fn place_below(
        &mut self,
        alloc: Global,
        place: usize,
        below: &Below,
        addr: DevAddr,
        hub: DevAddr,
        tt: u8,
    ) -> Result<(), Memory>
        requires port { below.now.port ≤ 255 }
        requires found { position (λ h. h.addr == below.now.hub) self.old.hubs ≡ Some place }
        ensures { IfOk result (λ _. self.new ≡ placed_below addr hub tt below.now self.old) }
    {
        let attached = &mut self.hubs[place];
        attach(alloc, attached, below.port, below.speed)?;
        let port = below.port as u8;
        let device = DeviceDraft::new(alloc, addr, below.speed, Some(hub), port, tt);
        push(&mut self.devices, device)?;
        self.declaring = true;
        Ok(())
    }

    /// A device on a port of a hub.
    #[tactic(auto, using(crate::proofs::Places::find_at, crate::proofs::Places::find_nowhere))]
    fn add_below(&mut self, alloc: Global, below: &Below) -> Result<(), Memory>
        ensures { IfOk result (λ _. self.new ≡ after_below self.old below.now) }
    {
        if !(within(1, 127, below.addr) && below.hub <= 127) {
            return Ok(());
        }
        let Some(place) = self.hub_place(below.hub) else {
            return Ok(());
        };
        let ports = self.hubs[place].ports;
        if !within(1, ports as u32, below.port) {
            return Ok(());
        }
        let Some(addr) = DevAddr::new(below.addr as u8) else {
            return Ok(());
        };
        let Some(hub) = DevAddr::new(below.hub as u8) else {
            return Ok(());
        };
        let tt = translator_of(self.hubs[place].multi, below.port as u8);
        self.place_below(alloc, place, below, addr, hub, tt)
    }

    /// The name of an endpoint whose device stands at a place.
    #[tactic(auto, using(crate::proofs::Places::passes_at))]
    fn name_at(&self, place: usize, name: &Name) -> Option<EpName>
        requires num { name.now.num ≤ 15 }
        requires found { position (λ d. d.addr == name.now.addr) self.now.devices ≡ Some place }
        ensures { result ≡ Some (name_of name.now) }
    {
        let Some(num) = EpNum::new(name.num as u8) else {
            return None;
        };
        Some(EpName {
            addr: self.devices[place].addr(),
            num,
            way: name.way,
        })
    }

    /// An endpoint.
    #[tactic(auto, using(crate::proofs::Places::find_at, crate::proofs::Places::find_nowhere, crate::proofs::Places::change_at))]
    fn add_ep(&mut self, alloc: Global, line: &EpLine) -> Result<(), Memory>
        ensures { IfOk result (λ _. self.new ≡ after_ep self.old line.now) }
    {
        if !is_endpoint(line) {
            return Ok(());
        }
        let Some(place) = self.device_place(line.name.addr) else {
            return Ok(());
        };
        let Some(name) = self.name_at(place, &line.name) else {
            return Ok(());
        };
        let device = &mut self.devices[place];
        device.add(alloc, line)?;
        push(&mut self.endpoints, name)?;
        self.declaring = true;
        Ok(())
    }

    /// What an endpoint does next.
    #[tactic(auto, using(crate::proofs::Places::change_at, crate::proofs::Places::change_nowhere))]
    fn answer(&mut self, alloc: Global, name: &Name, answer: Answer) -> Result<(), Memory>
        ensures { IfOk result (λ _. self.new ≡ record self.old { devices = at_ep name.now (answered answer) self.old.devices }) }
    {
        let Some(place) = self.device_place(name.addr) else {
            return Ok(());
        };
        let device = &mut self.devices[place];
        device.answer(alloc, name, answer)
    }

    /// A line on what an endpoint does next.
    fn add_reply(&mut self, alloc: Global, name: &Name, answer: Answer) -> Result<(), Memory>
        ensures { IfOk result (λ _. self.new ≡ after_reply self.old name.now answer) }
    {
        self.scripted = counted(self.scripted, answer_len(&answer));
        self.declaring = true;
        self.answer(alloc, name, answer)
    }

    /// What becomes of a packet.
    fn add_fate(&mut self, line: &FateLine) -> Result<(), Memory>
        ensures { IfOk result (λ _. self.new ≡ after_fate self.old line.now) }
    {
        let Some(name) = self.name_in(&line.name) else {
            return Ok(());
        };
        let fate = FateText {
            name,
            down: line.down,
            k: line.k,
            fate: line.fate,
        };
        push(&mut self.fates, fate)?;
        self.declaring = true;
        Ok(())
    }

    /// Stuffed bits make the packets of an endpoint longer.
    #[tactic(auto, using(crate::proofs::Places::change_at, crate::proofs::Places::change_nowhere))]
    fn set_stuff(&mut self, name: &Name, p: u8)
        ensures { self.new ≡ record self.old { devices = at_ep name.now (stuffed p) self.old.devices } }
    {
        let Some(place) = self.device_place(name.addr) else {
            return;
        };
        let device = &mut self.devices[place];
        device.set_stuff(name, p);
    }

    /// A line on the stuffed bits of an endpoint.
    fn add_stuff(&mut self, name: &Name, p: u32) -> Result<(), Memory>
        ensures { IfOk result (λ _. self.new ≡ after_stuff self.old name.now p) }
    {
        if p > 6 {
            return Ok(());
        }
        let Some(named) = self.name_in(name) else {
            return Ok(());
        };
        push(&mut self.stuffed, named)?;
        self.declaring = true;
        self.set_stuff(name, p as u8);
        Ok(())
    }

    /// Microframes in which the bus may not be used.
    fn add_hold(&mut self, first: u32, last: u32) -> Result<(), Memory>
        ensures { IfOk result (λ _. self.new ≡ record self.old { declaring = true; holds = self.old.holds ++ (first, last) ∷ [] }) }
    {
        push(&mut self.holds, (first, last))?;
        self.declaring = true;
        Ok(())
    }

    /// An endpoint is opened.
    fn add_open(&mut self, line: u32, name: &Name) -> Result<(), Memory>
        ensures { IfOk result (λ _. self.new ≡ after_open self.old line name.now) }
    {
        match self.known(name) {
            Some(desc) => self.add_command(line, Cmd::OpenEp(desc)),
            None => Ok(()),
        }
    }

    /// An endpoint is cancelled.
    fn add_cancel(&mut self, line: u32, name: &Name) -> Result<(), Memory>
        ensures { IfOk result (λ _. self.new ≡ after_cancel self.old line name.now) }
    {
        match self.name_in(name) {
            Some(name) => self.add_command(line, Cmd::Cancel(name)),
            None => Ok(()),
        }
    }

    /// The halt of an endpoint is cleared.
    fn add_clear(&mut self, line: u32, name: &Name) -> Result<(), Memory>
        ensures { IfOk result (λ _. self.new ≡ after_clear self.old line name.now) }
    {
        match self.name_in(name) {
            Some(name) => self.add_command(line, Cmd::Clear(name)),
            None => Ok(()),
        }
    }

    /// Bytes are asked for.
    fn add_get(&mut self, line: u32, get: &GetLine) -> Result<(), Memory>
        ensures { IfOk result (λ _. self.new ≡ after_get self.old line get.now) }
    {
        let Some(name) = self.name_in(&get.name) else {
            return Ok(());
        };
        self.asked = counted(self.asked, get.len as u64);
        let command = Cmd::Get {
            name,
            len: get.len,
            by: by_of(get.by),
        };
        self.add_command(line, command)
    }

    /// Gives an endpoint room for what is put to it.
    #[tactic(auto, using(crate::proofs::Places::change_at, crate::proofs::Places::change_nowhere))]
    fn make_room(&mut self, name: &Name, len: u64)
        ensures { self.new ≡ record self.old { devices = put_room name.now len self.old.devices } }
    {
        if !same_way(name.way, Way::Out) {
            return;
        }
        let Some(place) = self.device_place(name.addr) else {
            return;
        };
        let device = &mut self.devices[place];
        device.make_room(name, len);
    }

    /// Bytes are sent.
    fn add_put(&mut self, alloc: Global, line: u32, put: PutLine) -> Result<(), Memory>
        ensures { IfOk result (λ _. self.new ≡ after_put self.old line put) }
    {
        let Some(name) = self.name_in(&put.name) else {
            return Ok(());
        };
        let len = content_len(&put.content);
        let bytes = content_bytes(alloc, put.content)?;
        self.scripted = counted(self.scripted, len);
        self.make_room(&put.name, len);
        let command = Cmd::Put {
            name,
            bytes,
            by: by_of(put.by),
        };
        self.add_command(line, command)
    }

    /// A request.
    fn add_control(&mut self, alloc: Global, line: u32, control: ControlLine) -> Result<(), Memory>
        ensures { IfOk result (λ _. self.new ≡ after_control self.old line control) }
    {
        let Some(name) = self.name_in(&control_name(control.addr)) else {
            return Ok(());
        };
        self.scripted = counted(self.scripted, bytes_len(&control.bytes));
        let command = Cmd::Control {
            name,
            setup: control.setup,
            bytes: given(alloc, control.bytes),
        };
        self.add_command(line, command)
    }

    /// Isochronous descriptors.
    fn add_iso(&mut self, line: u32, iso: &IsoLine) -> Result<(), Memory>
        ensures { IfOk result (λ _. self.new ≡ after_iso self.old line iso.now) }
    {
        if !is_slots(iso) {
            return Ok(());
        }
        let Some(name) = self.name_in(&iso.name) else {
            return Ok(());
        };
        let command = Cmd::Iso {
            name,
            count: iso.count as u8,
            len: iso.len as u16,
            seed: iso.seed as u8,
        };
        self.add_command(line, command)
    }

    /// Steps of the driver or of the controller.
    fn add_order(&mut self, line: u32, event: Event, n: u32) -> Result<(), Memory>
        ensures { IfOk result (λ _. self.new ≡ after self.old line (Statement.Order event n)) }
    {
        push(&mut self.lines, (line, Line::Order(event, n)))?;
        self.acting = true;
        self.steps = counted(self.steps, n as u64);
        Ok(())
    }

    /// Turns until microframes have ended.
    fn add_micro(&mut self, line: u32, n: u32) -> Result<(), Memory>
        ensures { IfOk result (λ _. self.new ≡ after self.old line (Statement.Micro n)) }
    {
        push(&mut self.lines, (line, Line::Micro(n)))?;
        self.acting = true;
        self.microframes = counted(self.microframes, n as u64);
        Ok(())
    }

    /// What a line adds.
    fn add(&mut self, alloc: Global, line: u32, statement: Statement) -> Result<(), Memory>
        ensures { IfOk result (λ _. self.new ≡ after self.old line statement) }
    {
        match statement {
            Statement::Mem(words) => {
                self.words = Some(words);
                Ok(())
            }
            Statement::Hub(addr, ports, multi) => self.add_hub(alloc, addr, ports, multi),
            Statement::DevHigh(addr) => self.add_high(alloc, addr),
            Statement::DevBelow(below) => self.add_below(alloc, &below),
            Statement::Ep(ep) => self.add_ep(alloc, &ep),
            Statement::Reply(name, answer) => self.add_reply(alloc, &name, answer),
            Statement::Fate(fate) => self.add_fate(&fate),
            Statement::Stuff(name, p) => self.add_stuff(&name, p),
            Statement::Hold(first, last) => self.add_hold(first, last),
            Statement::Open(name) => self.add_open(line, &name),
            Statement::Cancel(name) => self.add_cancel(line, &name),
            Statement::Clear(name) => self.add_clear(line, &name),
            Statement::Get(get) => self.add_get(line, &get),
            Statement::Put(put) => self.add_put(alloc, line, put),
            Statement::Control(control) => self.add_control(alloc, line, control),
            Statement::Iso(iso) => self.add_iso(line, &iso),
            Statement::Order(event, n) => self.add_order(line, event, n),
            Statement::Micro(n) => self.add_micro(line, n),
            Statement::Unbuilt => Ok(()),
        }
    }

    /// Takes what a line says whose words fit a form: the first cause for which it is refused, or `None` and the line is
    /// added. An error is want of memory alone; what is read is then of no use.
    pub fn take(
        &mut self,
        alloc: Global,
        line: u32,
        statement: Statement,
    ) -> Result<Option<TextWhy>, Memory>
        ensures cause { IfOk result (λ why. why ≡ cause_of self.old statement) }
        ensures script { IfOk result (λ _. self.new ≡ taken self.old line statement) }
    {
        if let Some(why) = self.cause_of(&statement) {
            return Ok(Some(why));
        }
        match self.add(alloc, line, statement) {
            Ok(()) => Ok(None),
            Err(memory) => Err(memory),
        }
    }
}
