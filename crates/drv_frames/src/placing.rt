//! The place of a new periodic endpoint (EHCI 1.0, 4.6; USB 2.0, 5.6.4 and 5.7.4).
ghost use Rattle.std.specs.Prelude.{◌≡◌, ◌≤◌, ◌<◌, ◌∷◌, [], length, false, Ok, Err, IfOk, IfErr};
ghost use Rattle.mem_runs.specs.Book.{holding, Stands};
ghost use Rattle.bandwidth.specs.Placements.{IsWant};
ghost use Rattle.bandwidth.specs.Admission.{is_placed};
ghost use Rattle.drv_periodic_table.specs.Periodic.{want_of, queue_member};
ghost use Rattle.drv_periodic_table.specs.Linking.{new_link};
ghost use Rattle.drv_table.specs.Offers.{placed_endpoint};
ghost use Rattle.drv_table.specs.Accepting.{take_runs};
ghost use Rattle.drv_frames.specs.Places.{placed_part, chained_part, withdrawn, opened_with, AnswersOpen, IsChained};

use bandwidth::Placement;
use drv_endpoints::is_isochronous;
use drv_frames_content::PeriodicPart;
use drv_queues::{take_endpoint, write_interrupt_endpoint};
use drv_table::Endpoint;
use mem_runs::RunBook;
use usb_base::{EpDesc, OfferError};
use word_mem::WordMem;

/// Where a new endpoint stands: its placement, and the blocks of its queue head and its dummy; 0 where it has no queue.
#[derive(Clone, Copy, Debug, PartialEq, Eq)]
pub struct NewPlace {
    /// Its place in the frame list.
    pub placement: Placement,
    /// The block in which its queue head begins.
    pub queue: u16,
    /// The block of the inactive qTD at the end of its queue.
    pub dummy: u16,
}

/// The endpoint that is placed so.
pub fn new_placed(desc: &EpDesc, place: &NewPlace) -> Endpoint
    ensures { result ≡ placed_endpoint desc.now place.now.placement place.now.queue place.now.dummy }
{
    Endpoint {
        desc: *desc,
        placement: Some(place.placement),
        queue: place.queue,
        dummy: place.dummy,
        next: None,
        ended: None,
        cancelled: false,
        linked: false,
        chained: true,
        gone: false,
    }
}

/// The queue head of an interrupt endpoint and its dummy are taken and written, and begin to be linked; where they aren't found its placement
/// leaves the plan again.
fn chain_endpoint(
    book: &mut RunBook,
    mem: &mut WordMem,
    periodic: &mut PeriodicPart,
    e: u32,
    desc: &EpDesc,
    placement: &Placement,
) -> Result<NewPlace, OfferError>
    requires stands { Stands (holding book.old mem.old) }
    requires max { desc.now.max ≤ 1024 }
    requires port { desc.now.port ≤ 127 }
    requires multi { desc.now.multi ≤ 3 }
    ensures chained { IfOk result (λ place. IsChained book.old mem.old desc.now placement.now place (new_link periodic.old.periodic.list (queue_member place.queue placement.now)) book.new mem.new) }
    ensures periodic { IfOk result (λ place. periodic.new ≡ chained_part periodic.old placement.now place.queue) }
    ensures refused { IfErr result (λ why. take_runs (holding book.old mem.old) (2 ∷ 1 ∷ []) ≡ Err why) }
    ensures same { IfErr result (λ _. holding book.new mem.new ≡ holding book.old mem.old) }
    ensures withdrawn { IfErr result (λ _. periodic.new ≡ withdrawn periodic.old e) }
    ensures stands { Stands (holding book.new mem.new) }
{
    match take_endpoint(book, mem) {
        Ok((queue, dummy)) => {
            let link = periodic.queue_link(queue, placement);
            write_interrupt_endpoint(book, mem, desc, placement, link, queue, dummy);
            periodic.link_queue(queue, placement);
            Ok(NewPlace {
                placement: *placement,
                queue,
                dummy,
            })
        }
        Err(why) => {
            periodic.withdraw(e);
            Err(why)
        }
    }
}

/// A place for the endpoint of this number, so described: its placement is asked of the plan, and where it has a queue its runs are taken.
///
/// # Errors
///
/// `NoPlacement` where every allowed placement breaks a budget, `NoBlocks` where a run isn't found. Nothing changes then.
pub fn place_endpoint(
    book: &mut RunBook,
    mem: &mut WordMem,
    periodic: &mut PeriodicPart,
    e: u32,
    desc: &EpDesc,
) -> Result<NewPlace, OfferError>
    requires stands { Stands (holding book.old mem.old) }
    requires max { desc.now.max ≤ 1024 }
    requires port { desc.now.port ≤ 127 }
    requires fresh { is_placed periodic.old.periodic.plan e ≡ false }
    requires room { length periodic.old.periodic.plan.placed < periodic.old.periodic.plan.room }
    requires want { IsWant (want_of e desc.now) }
    ensures accepted { IfOk result (λ place. AnswersOpen book.old periodic.old mem.old e desc.now (opened_with desc.now place book.new periodic.new mem.new)) }
    ensures refused { IfErr result (λ why. AnswersOpen book.old periodic.old mem.old e desc.now (λ _. Err why)) }
    ensures part { IfOk result (λ place. periodic.new ≡ placed_part periodic.old e desc.now place) }
    ensures same { IfErr result (λ _. (book.new ≡ book.old) × (periodic.new ≡ periodic.old) × (mem.new ≡ mem.old)) }
    ensures stands { Stands (holding book.new mem.new) }
{
    match periodic.admit(e, desc) {
        None => Err(OfferError::NoPlacement),
        Some(placement) => {
            if is_isochronous(desc.kind) {
                return Ok(NewPlace {
                    placement,
                    queue: 0,
                    dummy: 0,
                });
            }
            chain_endpoint(book, mem, periodic, e, desc, &placement)
        }
    }
}
