//! The worked rows of admission.
ghost use Rattle.std.specs.Prelude.{◌≡◌, ◌⊎◌, ◌≤◌, true};
ghost use Rattle.bandwidth.specs.Placements.{IsWant, is_period, most_bytes};

use bandwidth::{Placement, Plan, Refused, Want};
use std::process::Abort;
use std::test::Fail;
use usb_base::{DevAddr, Dir, EpKind, Rules, Speed};

/// What placements follow in version 1 of the script language.
const FIRST_RULES: Rules = Rules {
    frames: 1024,
    stuffed: false,
    park: 0,
};

/// In version 2 the worst case of bit stuffing counts.
const STUFFED_RULES: Rules = Rules {
    frames: 1024,
    stuffed: true,
    park: 0,
};

/// A high-speed interrupt IN endpoint.
fn high_interrupt(id: u32, max: u16, period: u16) -> Want
    requires size { 1 ≤ max }
    requires most { max ≤ 1024 }
    requires period { is_period period ≡ true }
    requires some { 1 ≤ period }
    ensures { IsWant result }
{
    Want {
        id,
        speed: Speed::High,
        kind: EpKind::Interrupt,
        dir: Dir::In,
        max,
        multi: 1,
        period,
        hub: None,
        tt: 0,
    }
}

/// A full-speed endpoint of period 8 below a hub.
fn full(id: u32, kind: EpKind, dir: Dir, max: u16, hub: DevAddr) -> Want
    requires kind { (kind ≡ EpKind.Iso) ⊎ (kind ≡ EpKind.Interrupt) }
    requires size { 1 ≤ max }
    requires most { max ≤ most_bytes Speed.Full kind }
    ensures { IsWant result }
{
    Want {
        id,
        speed: Speed::Full,
        kind,
        dir,
        max,
        multi: 1,
        period: 8,
        hub: Some(hub),
        tt: 0,
    }
}

/// Admits an endpoint whose id isn't placed.
fn admit(rt: &impl Abort, plan: &mut Plan, want: Want) -> Result<Placement, Refused>
    requires { IsWant want }
{
    assert!(rt; !plan.has(want.id));
    plan.admit(&want)
}

/// The masks of a placement.
fn masks_of(rt: &impl Abort, plan: &mut Plan, want: Want) -> Result<(u8, u8), Refused>
    requires { IsWant want }
{
    match admit(rt, plan, want) {
        Ok(placed) => Ok((placed.smask, placed.cmask)),
        Err(why) => Err(why),
    }
}

#[test]
fn five_fill_a_bus(rt: HostRuntime) -> Result<(), Fail> {
    let mut plan = Plan::build(rt.alloc(), 16, FIRST_RULES)?;
    for id in 0..4 {
        let want = high_interrupt(id, 1024, 1);
        let all = Placement {
            period: 1,
            phase: 0,
            smask: 0xff,
            cmask: 0,
        };
        assert_eq!(rt; admit(&rt, &mut plan, want), Ok(all));
    }
    assert_eq!(rt; plan.load(0).0, 83_340_000);
    let more = [
        admit(&rt, &mut plan, high_interrupt(4, 1024, 1)),
        admit(&rt, &mut plan, high_interrupt(4, 1024, 2)),
    ];
    assert_eq!(rt;
        (more, plan.load(0).0),
        ([Err(Refused::NoPlacement); 2], 83_340_000)
    );
    Ok(())
}

#[test]
fn two_periods_share(rt: HostRuntime) -> Result<(), Fail> {
    let mut plan = Plan::build(rt.alloc(), 16, FIRST_RULES)?;
    for (id, smask) in [(0, 0x55), (1, 0xaa), (2, 0x55), (3, 0xaa)] {
        assert_eq!(rt;
            masks_of(&rt, &mut plan, high_interrupt(id, 1024, 2)),
            Ok((smask, 0))
        );
    }
    let last = masks_of(&rt, &mut plan, high_interrupt(4, 1024, 1));
    assert_eq!(rt; (last, plan.load(0).0), (Ok((0xff, 0)), 62_505_000));
    Ok(())
}

#[test]
fn a_translator_holds_eight(rt: HostRuntime) -> Result<(), Fail> {
    let hub = DevAddr::new(9).ok_or("an address")?;
    let mut plan = Plan::build(rt.alloc(), 16, FIRST_RULES)?;
    let mut counts = [0u8; 16];
    for id in 0..8 {
        let want = full(id, EpKind::Interrupt, Dir::In, 64, hub);
        let (smask, _) = masks_of(&rt, &mut plan, want).expect(&rt, "placed");
        assert!(rt; smask < 16);
        counts[smask as usize] = counts[smask as usize].wrapping_add(1);
    }
    assert_eq!(rt; counts, [0, 2, 2, 0, 2, 0, 0, 0, 2, 0, 0, 0, 0, 0, 0, 0]);
    let ninth = full(8, EpKind::Interrupt, Dir::In, 64, hub);
    assert_eq!(rt; admit(&rt, &mut plan, ninth), Err(Refused::NoPlacement));
    Ok(())
}

#[test]
fn isochronous_below_hubs(rt: HostRuntime) -> Result<(), Fail> {
    let mut plan = Plan::build(rt.alloc(), 16, FIRST_RULES)?;
    let first = DevAddr::new(9).unwrap();
    let second = DevAddr::new(10).unwrap();
    let third = DevAddr::new(11).unwrap();
    let masks = [
        masks_of(&rt, &mut plan, full(1, EpKind::Iso, Dir::In, 931, first)),
        masks_of(&rt, &mut plan, full(2, EpKind::Iso, Dir::In, 932, second)),
        masks_of(&rt, &mut plan, full(3, EpKind::Iso, Dir::Out, 1023, third)),
    ];
    assert_eq!(rt;
        masks,
        [Ok((0x01, 0xfc)), Err(Refused::NoPlacement), Ok((0x3f, 0))]
    );
    Ok(())
}

#[test]
fn six_or_five_first_microframes(rt: HostRuntime) -> Result<(), Fail> {
    let hub = DevAddr::new(9).ok_or("an address")?;
    for (rules, last) in [
        (FIRST_RULES, Ok((0x20, 0))),
        (STUFFED_RULES, Err(Refused::NoPlacement)),
    ] {
        let mut plan = Plan::build(rt.alloc(), 16, rules)?;
        for (id, smask) in [(1, 1), (2, 2), (3, 4), (4, 8), (5, 16)] {
            let want = full(id, EpKind::Iso, Dir::Out, 179, hub);
            assert_eq!(rt; masks_of(&rt, &mut plan, want), Ok((smask, 0)));
        }
        let want = full(6, EpKind::Iso, Dir::Out, 188, hub);
        assert_eq!(rt; masks_of(&rt, &mut plan, want), last);
    }
    Ok(())
}

#[test]
fn room_for_one(rt: HostRuntime) -> Result<(), Fail> {
    let mut plan = Plan::build(rt.alloc(), 1, FIRST_RULES)?;
    let placed = admit(&rt, &mut plan, high_interrupt(1, 8, 8));
    let second = admit(&rt, &mut plan, high_interrupt(2, 8, 8));
    assert_eq!(rt; second, Err(Refused::Room));
    let removed = [plan.remove(2), plan.remove(1), plan.remove(1)];
    assert_eq!(rt; (removed, plan.load(0).0), ([false, true, false], 0));
    let first = Placement {
        period: 8,
        phase: 0,
        smask: 1,
        cmask: 0,
    };
    let last = admit(&rt, &mut plan, high_interrupt(2, 8, 8));
    assert_eq!(rt; [placed, last], [Ok(first), Ok(first)]);
    Ok(())
}
