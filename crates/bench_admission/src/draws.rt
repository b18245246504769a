ghost use Rattle.std.specs.Prelude.{◌≡◌, ◌<◌, ◌≤◌, true};
ghost use Rattle.bandwidth.specs.Placements.{IsWant, is_period};

use bandwidth::Want;
use usb_base::{DevAddr, Dir, EpKind, Rules, Speed};

/// A frame list of 1,024 elements, without the worst case of bit stuffing and without park mode.
pub(crate) const FIRST_RULES: Rules = Rules {
    frames: 1024,
    stuffed: false,
    park: 0,
};

/// Numbers drawn one after another.
#[derive(Drop)]
pub(crate) struct Draws {
    x: u32,
}

impl Draws {
    /// The draws of a seed.
    pub(crate) fn new(seed: u32) -> Draws {
        Draws { x: seed }
    }

    /// The next number, below 65,536.
    pub(crate) fn draw(&mut self) -> u32 {
        self.x = self.x.wrapping_mul(1_664_525).wrapping_add(1_013_904_223);
        self.x >> 16
    }
}

/// A period of at least a frame.
fn long_period(draw: u32) -> u16
    ensures period { is_period result ≡ true }
    ensures frames { 8 ≤ result }
{
    match draw % 11 {
        0 => 8,
        1 => 16,
        2 => 32,
        3 => 64,
        4 => 128,
        5 => 256,
        6 => 512,
        7 => 1024,
        8 => 2048,
        9 => 4096,
        _ => 8192,
    }
}

/// A direction.
fn direction(draw: u32) -> Dir {
    if draw % 2 == 0 { Dir::In } else { Dir::Out }
}

/// A high-speed endpoint.
fn high(id: u32, draws: &mut Draws) -> Want
    ensures { IsWant result }
{
    let kind = if draws.draw() % 2 == 0 {
        EpKind::Interrupt
    } else {
        EpKind::Iso
    };
    Want {
        id,
        speed: Speed::High,
        kind,
        dir: direction(draws.draw()),
        max: 1 + (draws.draw() % 1024) as u16,
        multi: 1 + (draws.draw() % 3) as u8,
        period: long_period(draws.draw()),
        hub: None,
        tt: 0,
    }
}

/// A full-speed isochronous endpoint below a hub.
fn classic_iso(id: u32, hub: DevAddr, draws: &mut Draws) -> Want
    ensures { IsWant result }
{
    Want {
        id,
        speed: Speed::Full,
        kind: EpKind::Iso,
        dir: direction(draws.draw()),
        max: 1 + (draws.draw() % 1023) as u16,
        multi: 1,
        period: long_period(draws.draw()),
        hub: Some(hub),
        tt: 0,
    }
}

/// A full-speed endpoint below a hub, interrupt or isochronous.
fn classic(id: u32, hub: DevAddr, draws: &mut Draws) -> Want
    ensures { IsWant result }
{
    if draws.draw() % 4 == 0 {
        return classic_iso(id, hub, draws);
    }
    Want {
        id,
        speed: Speed::Full,
        kind: EpKind::Interrupt,
        dir: direction(draws.draw()),
        max: 1 + (draws.draw() % 64) as u16,
        multi: 1,
        period: long_period(draws.draw()),
        hub: Some(hub),
        tt: 0,
    }
}

/// A drawn endpoint, at high speed or below one of four hubs.
pub(crate) fn want(id: u32, draws: &mut Draws) -> Want
    ensures { IsWant result }
{
    let address = (draws.draw() % 8) as u8;
    match DevAddr::new(address) {
        Some(hub) if address < 4 => classic(id, hub, draws),
        _ => high(id, draws),
    }
}

/// A drawn high-speed endpoint with a transaction of at most 128 bytes in every microframe, in every second or in every fourth.
fn dense(id: u32, draws: &mut Draws) -> Want
    ensures { IsWant result }
{
    let period = match draws.draw() % 3 {
        0 => 1,
        1 => 2,
        _ => 4,
    };
    Want {
        id,
        speed: Speed::High,
        kind: EpKind::Interrupt,
        dir: direction(draws.draw()),
        max: 1 + (draws.draw() % 128) as u16,
        multi: 1,
        period,
        hub: None,
        tt: 0,
    }
}

/// A drawn low-speed interrupt endpoint below a hub.
fn slow(id: u32, hub: DevAddr, draws: &mut Draws) -> Want
    ensures { IsWant result }
{
    Want {
        id,
        speed: Speed::Low,
        kind: EpKind::Interrupt,
        dir: direction(draws.draw()),
        max: 1 + (draws.draw() % 8) as u16,
        multi: 1,
        period: long_period(draws.draw()),
        hub: Some(hub),
        tt: 0,
    }
}

/// A drawn endpoint of any speed, kind and period.
pub(crate) fn any_want(id: u32, draws: &mut Draws) -> Want
    ensures { IsWant result }
{
    let kind = draws.draw() % 8;
    let Some(hub) = DevAddr::new((draws.draw() % 8) as u8) else {
        return want(id, draws);
    };
    match kind {
        0 => dense(id, draws),
        1 | 2 => slow(id, hub, draws),
        3 | 4 => classic(id, hub, draws),
        _ => want(id, draws),
    }
}

/// A high-speed interrupt IN endpoint of 8 bytes, each 32 milliseconds.
pub(crate) fn small(id: u32) -> Want
    ensures { IsWant result }
{
    Want {
        id,
        speed: Speed::High,
        kind: EpKind::Interrupt,
        dir: Dir::In,
        max: 8,
        multi: 1,
        period: 256,
        hub: None,
        tt: 0,
    }
}

/// A high-speed interrupt IN endpoint of the longest period.
pub(crate) fn long_high(id: u32) -> Want
    ensures { IsWant result }
{
    Want {
        period: 8192,
        ..small(id)
    }
}

/// A full-speed isochronous IN endpoint of two parts below hub 9.
pub(crate) fn long_in(id: u32, period: u16) -> Want
    requires period { is_period period ≡ true }
    requires frames { 8 ≤ period }
    ensures { IsWant result }
{
    Want {
        id,
        speed: Speed::Full,
        kind: EpKind::Iso,
        dir: Dir::In,
        max: 367,
        multi: 1,
        period,
        hub: DevAddr::new(9),
        tt: 0,
    }
}

/// A full-speed isochronous OUT endpoint of three start-splits below hub 9.
pub(crate) fn long_out(id: u32, period: u16) -> Want
    requires period { is_period period ≡ true }
    requires frames { 8 ≤ period }
    ensures { IsWant result }
{
    Want {
        id,
        speed: Speed::Full,
        kind: EpKind::Iso,
        dir: Dir::Out,
        max: 564,
        multi: 1,
        period,
        hub: DevAddr::new(9),
        tt: 0,
    }
}
