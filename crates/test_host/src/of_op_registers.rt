use bitflags::Flags;
use op_registers::{Register, Registers, Status};
use std::process::Abort;
use std::test::Fail;

const USBCMD: u32 = 0x00;

const USBSTS: u32 = 0x04;

const FRINDEX: u32 = 0x0c;

// The registers after the first writes of a driver, each of which is taken.
fn opened(rt: &impl Abort) -> Registers {
    let mut registers = Registers::reset();
    for (off, v) in [
        (Register::InterruptEnable.offset(), 0),
        (Register::PeriodicListBase.offset(), 0),
        (Register::AsyncListAddress.offset(), 0x1000),
        (Register::ConfigureFlag.offset(), 1),
        (USBCMD, 0x0008_0031),
    ] {
        assert!(rt; registers.driver_write(off, v));
    }
    registers
}

/// USBCMD and USBSTS.
fn command_and_status(registers: &Registers) -> [Option<u32>; 2] {
    [registers.driver_read(USBCMD), registers.driver_read(USBSTS)]
}

#[test]
fn the_opening(rt: HostRuntime) -> Result<(), Fail> {
    let fresh = Registers::reset();
    assert_eq!(rt;
        command_and_status(&fresh),
        [Some(0x0008_0000), Some(0x0000_1000)]
    );
    assert_eq!(rt;
        fresh.driver_read(Register::PortStatus(1).offset()),
        Some(0x0000_1005)
    );
    let registers = opened(&rt);
    assert_eq!(rt;
        command_and_status(&registers),
        [Some(0x0008_0031), Some(0x0000_c000)]
    );
    let bits = [
        registers.running(),
        registers.periodic_on(),
        registers.async_on(),
        registers.rung(),
    ];
    let lists = [
        registers.async_list_address(),
        registers.periodic_list_base(),
    ];
    assert_eq!(rt; (bits, lists), ([true, true, true, false], [0x1000, 0]));
    Ok(())
}

#[test]
fn an_offset_outside(rt: HostRuntime) -> Result<(), Fail> {
    let mut registers = opened(&rt);
    for off in [0x01, 0x1c, 0x3c, 0x48, 0xffff_fffc] {
        assert_eq!(rt; registers.driver_read(off), None);
        assert!(rt; !registers.driver_write(off, 0xffff_ffff));
    }
    assert_eq!(rt; registers.driver_read(USBCMD), Some(0x0008_0031));
    Ok(())
}

#[test]
fn the_status_is_cleared_by_ones(rt: HostRuntime) -> Result<(), Fail> {
    let mut registers = opened(&rt);
    registers.raise(Status::INTERRUPTS);
    assert_eq!(rt; registers.driver_read(USBSTS), Some(0xc03f));
    assert!(rt; registers.driver_write(USBSTS, 0x00));
    assert_eq!(rt; registers.driver_read(USBSTS), Some(0xc03f));
    assert!(rt; registers.driver_write(USBSTS, 0x15));
    assert_eq!(rt; registers.driver_read(USBSTS), Some(0xc02a));
    registers.raise(Status::HALTED.union(Status::INTERRUPT));
    assert_eq!(rt; registers.driver_read(USBSTS), Some(0xc02b));
    Ok(())
}

#[test]
fn the_frame_index(rt: HostRuntime) -> Result<(), Fail> {
    let mut registers = Registers::reset();
    // (what is written, FRINDEX as a microframe has begun, and USBSTS)
    let rows: [(&[(u32, u32)], u16, u32); 3] = [
        (&[(FRINDEX, 0x3fff)], 0, 0x1008),
        (
            &[
                (USBSTS, 0x08),
                (FRINDEX, 0x1ffe),
                (USBCMD, 0x0008_0001),
                (FRINDEX, 0),
            ],
            0x1fff,
            0,
        ),
        (&[], 0x2000, 0x08),
    ];
    for (writes, index, status) in rows {
        for (off, v) in writes {
            assert!(rt; registers.driver_write(*off, *v));
        }
        let begun = registers.begin_microframe();
        assert_eq!(rt;
            (begun, registers.driver_read(USBSTS)),
            (index, Some(status))
        );
    }
    assert_eq!(rt; registers.frame_index(), 0x2000);
    Ok(())
}

#[test]
fn the_doorbell(rt: HostRuntime) -> Result<(), Fail> {
    let mut registers = opened(&rt);
    let writes = [
        registers.driver_write(USBCMD, 0x0008_0071),
        registers.driver_write(USBCMD, 0x0008_0031),
        registers.rung(),
    ];
    registers.advance();
    let advanced = (registers.rung(), registers.driver_read(USBSTS));
    assert_eq!(rt; (writes, advanced), ([true; 3], (false, Some(0xc020))));
    let writes = [
        registers.driver_write(USBCMD, 0x0008_0071),
        registers.driver_write(USBCMD, 0x0000_0002),
    ];
    assert_eq!(rt; (writes, registers.rung()), ([true; 2], false));
    assert_eq!(rt;
        command_and_status(&registers),
        [Some(0x0008_0000), Some(0x1000)]
    );
    Ok(())
}

#[test]
fn an_error_of_the_system(rt: HostRuntime) -> Result<(), Fail> {
    let mut registers = opened(&rt);
    registers.set_reclamation(true);
    assert!(rt; registers.reclamation());
    assert_eq!(rt; registers.driver_read(USBSTS), Some(0xe000));
    registers.set_reclamation(false);
    registers.fault();
    assert!(rt; !registers.running());
    assert_eq!(rt; registers.driver_read(USBSTS), Some(0x1010));
    assert_eq!(rt; registers.driver_read(USBCMD), Some(0x0008_0030));
    Ok(())
}
