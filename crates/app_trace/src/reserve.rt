//! The room for the commands of a script.
ghost use Rattle.std.specs.Prelude.{◌≡◌, ◌≤◌, IsTrue};
ghost use Rattle.script_fits.specs.Fits.{IsFitCommand};
ghost use Rattle.drv_table.specs.Offers.{HasRoom};
ghost use Rattle.drv_jobs.specs.JobOffers.{IsOfferedAny};
ghost use Rattle.drv_table.specs.Words.{request_length};

use ehci_driver::Reserve;
use script_types::{Line, Script};
use usb_base::limits::LONGEST_QTD;
use usb_base::{Cmd, Rules};

/// What the frame list, the placements and the visits follow in version 1 of the script language.
const FIRST_RULES: Rules = Rules {
    frames: 1024,
    stuffed: false,
    park: 0,
};

/// The room for one transfer of this length, which is refused where it is longer than the longest.
fn room_of_transfer(length: usize) -> Reserve {
    Reserve {
        endpoints: 0,
        transfers: 1,
        reports: 1,
        report_bytes: if length <= LONGEST_QTD as usize {
            length as u32
        } else {
            0
        },
        rules: FIRST_RULES,
    }
}

/// The bytes of the data stage of a request.
fn data_length(setup: &[u8; 8]) -> usize
    ensures { result ≡ request_length setup.now }
{
    setup[6] as usize + 256 * setup[7] as usize
}

/// The room that a command uses, accepted or refused.
fn room_of(cmd: &Cmd) -> Reserve {
    match cmd {
        Cmd::OpenEp(_) => Reserve {
            endpoints: 1,
            transfers: 0,
            reports: 1,
            report_bytes: 0,
            rules: FIRST_RULES,
        },
        Cmd::Get { len, .. } => room_of_transfer(*len as usize),
        Cmd::Put { bytes, .. } => room_of_transfer(bytes.as_slice().len()),
        Cmd::Control { setup, .. } => room_of_transfer(data_length(setup)),
        Cmd::Iso { count, .. } => Reserve {
            endpoints: 0,
            transfers: *count as u32,
            reports: u32::max(*count as u32, 1),
            report_bytes: 24_576 * *count as u32,
            rules: FIRST_RULES,
        },
        Cmd::Cancel(_) => Reserve {
            endpoints: 0,
            transfers: 0,
            reports: 1,
            report_bytes: 0,
            rules: FIRST_RULES,
        },
        Cmd::Clear(_) => Reserve {
            endpoints: 0,
            transfers: 1,
            reports: 2,
            report_bytes: 0,
            rules: FIRST_RULES,
        },
        Cmd::Reset(_)
        | Cmd::Give(_)
        | Cmd::DiskRead { .. }
        | Cmd::DiskWrite { .. }
        | Cmd::Revive(_) => Reserve {
            endpoints: 0,
            transfers: 0,
            reports: 1,
            report_bytes: 0,
            rules: FIRST_RULES,
        },
    }
}

/// Both rooms together; None where a number of it passes 32 bits.
fn joined(a: &Reserve, b: &Reserve) -> Option<Reserve> {
    Some(Reserve {
        endpoints: a.endpoints.checked_add(b.endpoints)?,
        transfers: a.transfers.checked_add(b.transfers)?,
        reports: a.reports.checked_add(b.reports)?,
        report_bytes: a.report_bytes.checked_add(b.report_bytes)?,
        rules: a.rules,
    })
}

/// The room for all commands of a script; None where a number of it passes 32 bits.
pub fn reserve_of(script: &Script) -> Option<Reserve> {
    let mut all = Reserve {
        endpoints: 0,
        transfers: 0,
        reports: 0,
        report_bytes: 0,
        rules: FIRST_RULES,
    };
    for entry in script.lines.as_slice() {
        if let Line::Command(cmd) = &entry.1 {
            all = joined(&all, &room_of(cmd))?;
        }
    }
    Some(Reserve {
        endpoints: all.endpoints,
        transfers: all.transfers,
        reports: all.reports,
        report_bytes: all.report_bytes,
        rules: Rules {
            frames: 1024,
            stuffed: script.version == 2,
            park: 0,
        },
    })
}

/// Whether there is room for a transfer of this length.
fn has_room(room: &Reserve, length: usize) -> bool
    ensures { IsTrue result → HasRoom room.now length }
{
    1 <= room.transfers
        && 1 <= room.reports
        && (length > LONGEST_QTD as usize || length <= room.report_bytes as usize)
}

/// Whether there is room for a command.
#[tactic(auto, using(script_fits::proofs::Opened::can_be_opened))]
pub fn can_offer(room: &Reserve, cmd: &Cmd) -> bool
    requires { IsFitCommand cmd.now }
    ensures { IsTrue result → IsOfferedAny room.now cmd.now }
{
    match cmd {
        Cmd::OpenEp(_) => 1 <= room.endpoints,
        Cmd::Get { len, .. } => has_room(room, *len as usize),
        Cmd::Put { bytes, .. } => has_room(room, bytes.as_slice().len()),
        Cmd::Control { setup, .. } => has_room(room, data_length(setup)),
        Cmd::Iso { count, .. } => {
            *count as u32 <= room.transfers
                && *count as u32 <= room.reports
                && 24_576 * *count as u32 <= room.report_bytes
        }
        Cmd::Clear(_) => 1 <= room.transfers && 2 <= room.reports,
        Cmd::Cancel(_)
        | Cmd::Reset(_)
        | Cmd::Give(_)
        | Cmd::DiskRead { .. }
        | Cmd::DiskWrite { .. }
        | Cmd::Revive(_) => 1 <= room.reports,
    }
}
