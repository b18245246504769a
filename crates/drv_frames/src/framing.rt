//! The frames of a command's descriptors, and their links (EHCI 1.0, 4.7).
ghost use Rattle.std.specs.Prelude.{◌≡◌, take, drop, option_map};
ghost use Rattle.mem_runs.specs.Book.{holding, Stands};
ghost use Rattle.drv_periodic_table.specs.Periodic.{note_at};
ghost use Rattle.drv_frames_content.specs.Part.{with_notes};
ghost use Rattle.drv_table.specs.DriverContent.{DriverContent, waits_for};
ghost use Rattle.drv_table.specs.FrameChoice.{framed_notes, last_waiting, linked_descriptors, with_frames};

use crate::spans::{of_command, up_to};
use bandwidth::Placement;
use drv_frames_content::{PeriodicPart, first_of_command, frame_after};
use drv_harvests::waits_at;
use drv_table::Transfer;
use mem_runs::RunBook;
use word_mem::WordMem;

/// The last of these transfers that waits at the endpoint of this number.
fn last_waiting(transfers: &[Transfer], e: usize) -> Option<Transfer>
    ensures { result ≡ last_waiting e transfers.now }
{
    transfers.iter().fold(
        None,
        |last, transfer| if waits_at(transfer, e) {
            Some(*transfer)
        } else {
            last
        },
    )
}

/// The frame of the last of these descriptors that is outstanding at the endpoint of this number.
fn last_frame(periodic: &PeriodicPart, transfers: &[Transfer], e: usize) -> Option<u16>
    ensures { result ≡ option_map (λ x. (note_at periodic.now.periodic.notes x.first).frame) (last_waiting e transfers.now) }
{
    match last_waiting(transfers, e) {
        Some(transfer) => Some(periodic.note(transfer.first).frame),
        None => None,
    }
}

/// These descriptors get their frames: the first this one, and each further one that of one period later.
#[tactic(auto, using(std::proofs::lemmas::Grind::common_steps, crate::proofs::Framed::frames_more, crate::proofs::Framed::frames_all))]
fn frame_each(
    periodic: &mut PeriodicPart,
    placement: &Placement,
    first: u16,
    transfers: &[Transfer],
)
    ensures { periodic.new ≡ with_notes periodic.old (with_frames placement.now transfers.now first periodic.old.periodic.notes) }
{
    let mut frame = first;
    for transfer in transfers {
        periodic.set_frame(transfer.first, frame);
        frame = frame_after(placement, frame);
    }
}

/// The `count` descriptors of the endpoint of this number from transfer `t` on get their frames, by a reading of FRINDEX: from one period
/// after the last that is outstanding on, or from the placement's first frame at least two after the present one.
pub fn give_frames(
    periodic: &mut PeriodicPart,
    transfers: &[Transfer],
    placement: Option<Placement>,
    e: usize,
    t: usize,
    count: u8,
    frindex: u16,
)
    ensures { (d : DriverContent) → d.transfers ≡ transfers.now → d.periodic ≡ periodic.old.periodic → periodic.new ≡ with_notes periodic.old (framed_notes d frindex e t count placement) }
{
    let Some(placement) = placement else {
        return;
    };
    let last = last_frame(periodic, up_to(transfers, t), e);
    let first = first_of_command(&placement, frindex, last);
    frame_each(periodic, &placement, first, of_command(transfers, t, count));
}

/// Each of these descriptors leads to what stands first in its frame.
#[tactic(auto, using(std::proofs::lemmas::Grind::common_steps, crate::proofs::Framed::links_more, crate::proofs::Framed::links_all))]
pub fn write_links(
    book: &RunBook,
    mem: &mut WordMem,
    periodic: &PeriodicPart,
    transfers: &[Transfer],
)
    requires stands { Stands (holding book.now mem.old) }
    ensures memory { mem.new ≡ linked_descriptors book.now periodic.now.periodic.list periodic.now.periodic.notes transfers.now mem.old }
    ensures stands { Stands (holding book.now mem.new) }
{
    for transfer in transfers {
        let link = periodic.descriptor_link(transfer.first);
        book.store(mem, transfer.first, 32 * transfer.first as u32, link);
    }
}
