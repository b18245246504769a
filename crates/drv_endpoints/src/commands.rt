//! The events of an accepted command, and the room that it leaves.
ghost use Rattle.std.specs.Prelude.{◌≡◌, ◌≤◌, ◌<◌, ◌+◌, ◌*◌, ◌-◌, length, slice_index};
ghost use Rattle.drv_table.specs.Commands.{command_row, events_of, links, removes_members};
ghost use Rattle.drv_table.specs.Accepting.{first_waiting};
ghost use Rattle.drv_table.specs.Offers.{with_transfer};

use drv_table::{Command, DriverRow, Reserve};
use drv_words::HEAD_BLOCK;

/// The next event of a command, of those that aren't stores of the frame list.
pub fn row_of_command(command: &Command, made: u8) -> DriverRow
    ensures { result ≡ command_row command.now made }
{
    match command {
        Command::Open(queue) => match made {
            0 => DriverRow::Lend,
            1 => DriverRow::Store(HEAD_BLOCK, 32 * HEAD_BLOCK as u32, 32 * *queue as u32 + 2),
            _ => DriverRow::Rest,
        },
        Command::Publish(block, words) => publish_row(*block, words, made),
        Command::Unlink(_, block, link) => match made {
            0 => DriverRow::Store(*block, 32 * *block as u32, *link),
            _ => DriverRow::Rest,
        },
        Command::Chain => match made {
            0 => DriverRow::Lend,
            _ => DriverRow::Rest,
        },
        Command::Iso(_, _, _) => match made {
            0 => DriverRow::Frames,
            1 => DriverRow::LendDescriptors,
            _ => DriverRow::Rest,
        },
        Command::Unchain(_) => DriverRow::Rest,
    }
}

/// The next event of a command that publishes a transfer.
fn publish_row(block: u16, words: &[u32; 8], made: u8) -> DriverRow
    ensures { result ≡ command_row (Command.Publish block words.now) made }
{
    match made {
        0 => DriverRow::Lend,
        1 => store_row(block, words, 0),
        2 => store_row(block, words, 1),
        3 => store_row(block, words, 3),
        4 => store_row(block, words, 4),
        5 => store_row(block, words, 5),
        6 => store_row(block, words, 6),
        7 => store_row(block, words, 7),
        // The token is the last, since it is what makes the qTD active (EHCI 1.0, 4.10.2).
        8 => store_row(block, words, 2),
        _ => DriverRow::Rest,
    }
}

/// The store of one word of a qTD.
fn store_row(block: u16, words: &[u32; 8], i: u8) -> DriverRow
    requires { i < 8 }
    ensures { result ≡ DriverRow.Store block (32 * block + 4 * i) (slice_index words.now i) }
{
    DriverRow::Store(block, 32 * block as u32 + 4 * i as u32, words[i as usize])
}

/// How many events a command has that aren't stores of the frame list.
pub fn event_count(command: &Command) -> u8
    ensures count { result ≡ length (events_of command.now) }
    ensures few { result ≤ 9 }
{
    match command {
        Command::Open(_) | Command::Iso(_, _, _) => 2,
        Command::Publish(_, _) => 9,
        Command::Unlink(_, _, _) | Command::Chain => 1,
        Command::Unchain(_) => 0,
    }
}

/// Whether a command links or unlinks members of the frame list.
pub fn links(command: &Command) -> bool
    ensures { result ≡ links command.now }
{
    match command {
        Command::Open(_) | Command::Publish(_, _) | Command::Unlink(_, _, _) => false,
        Command::Chain | Command::Iso(_, _, _) | Command::Unchain(_) => true,
    }
}

/// Whether a command unlinks members of the frame list.
pub fn removes_members(command: &Command) -> bool
    ensures { result ≡ removes_members command.now }
{
    matches!(command, Command::Unchain(_))
}

/// The number of the first transfer that isn't harvested: the new one, where there was none.
pub fn or_first(next: Option<usize>, new: usize) -> Option<usize>
    ensures { result ≡ first_waiting next new }
{
    match next {
        Some(t) => Some(t),
        None => Some(new),
    }
}

/// The room once a transfer is accepted.
pub fn less_room(room: Reserve, most: u32) -> Reserve
    requires transfers { 1 ≤ room.transfers }
    requires reports { 1 ≤ room.reports }
    requires bytes { most ≤ room.report_bytes }
    ensures { result ≡ with_transfer room most }
{
    Reserve {
        endpoints: room.endpoints,
        transfers: room.transfers - 1,
        reports: room.reports - 1,
        report_bytes: room.report_bytes - most,
        rules: room.rules,
    }
}
