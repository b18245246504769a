ghost use Rattle.std.specs.Prelude.{◌≡◌, nat_le, if◌then◌else◌, IfOk, IfSome};
ghost use Rattle.usb_base.specs.Limits.{longest_qtd};
ghost use Rattle.drv_table.specs.Words.{request_length};
ghost use Rattle.script_fits.specs.Fits.{IsFit};
ghost use Rattle.bus_world.specs.Rooms.{needs, needs_line, transfer_room, with_room, reserve_of, rules_of, room_of_script, HasRoomFor};
ghost use Rattle.bus_world.specs.AtWork.{room_in};
ghost use Rattle.bus_world.specs.RunsAtWork.{standing_at_work};

use crate::world::World;
use bus_wire::UsbBus;
use ehci_driver::{Driver, DriverAtWork, Reserve};
use hc_core::Controller;
use op_registers::Registers;
use script_types::{Line, Script};
use std::alloc::Global;
use usb_base::limits::LONGEST_QTD;
use usb_base::{Cmd, Memory, Rules};
use word_mem::WordMem;

/// What the frame list, the placements and the visits follow in version 1 of the script language.
const FIRST_RULES: Rules = Rules {
    frames: 1024,
    stuffed: false,
    park: 0,
};

/// No room.
const NO_ROOM: Reserve = Reserve {
    endpoints: 0,
    transfers: 0,
    reports: 0,
    report_bytes: 0,
    rules: FIRST_RULES,
};

/// The bytes of the report that a transfer of this length can use: none where the driver refuses it.
fn told_bytes(length: usize) -> u32
    ensures { result ≡ (if nat_le length longest_qtd then length else 0) }
{
    if length <= LONGEST_QTD as usize {
        length as u32
    } else {
        0
    }
}

/// The bytes of the data stage of a request.
fn data_length(setup: &[u8; 8]) -> usize
    ensures { result ≡ request_length setup.now }
{
    setup[6] as usize + 256 * setup[7] as usize
}

/// The room for one transfer of this length.
fn room_of_transfer(length: usize) -> Reserve
    ensures { result ≡ transfer_room length }
{
    Reserve {
        endpoints: 0,
        transfers: 1,
        reports: 1,
        report_bytes: told_bytes(length),
        rules: FIRST_RULES,
    }
}

/// The room that a command uses, accepted or refused.
fn room_of(cmd: &Cmd) -> Reserve
    ensures { result ≡ needs cmd.now }
{
    match cmd {
        Cmd::OpenEp(_) => Reserve {
            endpoints: 1,
            transfers: 0,
            reports: 1,
            report_bytes: 0,
            rules: FIRST_RULES,
        },
        Cmd::Get { len, .. } => room_of_transfer(*len as usize),
        Cmd::Put { bytes, .. } => room_of_transfer(bytes.as_slice().len()),
        Cmd::Control { setup, .. } => room_of_transfer(data_length(setup)),
        Cmd::Iso { count, .. } => Reserve {
            endpoints: 0,
            transfers: *count as u32,
            reports: *count as u32,
            report_bytes: 24_576 * *count as u32,
            rules: FIRST_RULES,
        },
        Cmd::Clear(_) => Reserve {
            endpoints: 0,
            transfers: 1,
            reports: 2,
            report_bytes: 0,
            rules: FIRST_RULES,
        },
        Cmd::Cancel(_) => Reserve {
            endpoints: 0,
            transfers: 0,
            reports: 1,
            report_bytes: 0,
            rules: FIRST_RULES,
        },
        Cmd::Reset(_)
        | Cmd::Give(_)
        | Cmd::DiskRead { .. }
        | Cmd::DiskWrite { .. }
        | Cmd::Revive(_) => Reserve {
            endpoints: 0,
            transfers: 0,
            reports: 1,
            report_bytes: 0,
            rules: FIRST_RULES,
        },
    }
}

/// The room that a line uses: none but a command's.
fn room_of_line(line: &Line) -> Reserve
    ensures { result ≡ needs_line line.now }
{
    match line {
        Line::Command(cmd) => room_of(cmd),
        Line::Order(_, _) | Line::Micro(_) | Line::Plug(_) | Line::Unplug(_) => NO_ROOM,
    }
}

/// Both rooms together; None where a number of it passes 32 bits.
fn joined(a: &Reserve, b: &Reserve) -> Option<Reserve>
    ensures { IfSome result (λ r. r ≡ with_room a.now b.now) }
{
    Some(Reserve {
        endpoints: a.endpoints.checked_add(b.endpoints)?,
        transfers: a.transfers.checked_add(b.transfers)?,
        reports: a.reports.checked_add(b.reports)?,
        report_bytes: a.report_bytes.checked_add(b.report_bytes)?,
        rules: a.rules,
    })
}

/// The room for all commands of a script.
fn reserve_of(lines: &[(u32, Line)]) -> Option<Reserve>
    ensures { IfSome result (λ r. r ≡ reserve_of lines.now) }
{
    let mut all = NO_ROOM;
    for entry in lines {
        all = joined(&all, &room_of_line(&entry.1))?;
    }
    Some(all)
}

/// What the frame list, the placements and the visits follow in a script.
fn rules_of(script: &Script) -> Rules
    ensures { result ≡ rules_of script.now }
{
    Rules {
        frames: 1024,
        stuffed: script.version == 2,
        park: 0,
    }
}

/// The room for all commands of a script.
fn room_of_script(script: &Script) -> Option<Reserve>
    ensures { IfSome result (λ r. r ≡ room_of_script script.now) }
{
    let room = reserve_of(script.lines.as_slice())?;
    Some(Reserve {
        endpoints: room.endpoints,
        transfers: room.transfers,
        reports: room.reports,
        report_bytes: room.report_bytes,
        rules: rules_of(script),
    })
}

impl World {
    /// The world of a script at the end of microframe 0: the driver was built with room for every command line, and nothing was offered
    /// or stepped.
    ///
    /// # Errors
    ///
    /// `Memory` where a part of it finds no room.
    pub fn build(alloc: Global, script: &Script) -> Result<World, Memory>
        requires { IsFit script.now }
        ensures work { IfOk result (λ w. w ≡ standing_at_work script.now) }
        ensures room { IfOk result (λ w. HasRoomFor (room_in w.work) (reserve_of script.now.lines)) }
    {
        let Some(reserve) = room_of_script(script) else {
            return Err(Memory);
        };
        let bus = UsbBus::build(alloc, script)?;
        let mut mem = WordMem::build(alloc, script.words)?;
        let mut registers = Registers::reset();
        let driver = Driver::build(alloc, &reserve, &mut registers, &mut mem)?;
        let marks = Vec::with_capacity(alloc, reserve.reports as usize)?;
        Ok(World::of_parts(
            registers,
            mem,
            Controller::new(),
            DriverAtWork::new(driver),
            bus,
            marks,
        ))
    }
}
