//! Members that a command links into the frame list or unlinks from it (EHCI 1.0, 4.6).
ghost use Rattle.std.specs.Prelude.{◌≡◌, ◌≤◌, ◌<◌, ◌++◌, ◌∷◌, [], map, filter, length};
ghost use Rattle.mem_runs.specs.Book.{holding, Stands};
ghost use Rattle.drv_periodic.specs.Periodic.{next_store, after_store};
ghost use Rattle.drv_periodic_table.specs.Periodic.{descriptor_member};
ghost use Rattle.drv_periodic_table.specs.Linking.{begun_next, unlinking};
ghost use Rattle.drv_frames_content.specs.Part.{with_list, with_periodic, with_queued};
ghost use Rattle.drv_table.specs.DriverContent.{waits_for};
ghost use Rattle.drv_table.specs.Removals.{stored_link};
ghost use Rattle.drv_frames.specs.Leaving.{list_made, more_leaving, leaving_members};

use bandwidth::Placement;
use drv_endpoints::is_isochronous;
use drv_frames_content::PeriodicPart;
use drv_harvests::waits_at;
use drv_periodic::Store;
use drv_table::{Endpoint, Transfer};
use mem_runs::RunBook;
use word_mem::WordMem;

/// These descriptors are the members that the command is to link.
#[tactic(auto, using(std::proofs::lemmas::Grind::common_steps, crate::proofs::Queued::members_more, crate::proofs::Queued::members_none))]
pub fn queue_descriptors(periodic: &mut PeriodicPart, transfers: &[Transfer])
    requires room { length transfers.now < periodic.old.queued_room }
    ensures { periodic.new ≡ with_queued periodic.old (map (λ t. descriptor_member periodic.old.periodic.notes t.first) transfers.now) }
{
    periodic.clear_queued();
    for transfer in transfers {
        periodic.push_descriptor(transfer.first);
    }
}

/// This descriptor is one more member that the command is to unlink, if it waits at the endpoint.
fn queue_if_waiting(periodic: &mut PeriodicPart, e: usize, transfer: &Transfer)
    requires room { length periodic.old.periodic.queued < periodic.old.queued_room }
    ensures { periodic.new ≡ with_queued periodic.old (more_leaving periodic.old e transfer.now) }
{
    if !waits_at(transfer, e) {
        return;
    }
    periodic.push_descriptor(transfer.first);
}

/// The outstanding ones of these descriptors are the members that the command is to unlink.
#[tactic(auto, using(std::proofs::lemmas::Grind::common_steps, crate::proofs::Queued::waiting_more, crate::proofs::Queued::waiting_none))]
fn queue_waiting(periodic: &mut PeriodicPart, transfers: &[Transfer], e: usize)
    requires room { length transfers.now < periodic.old.queued_room }
    ensures { periodic.new ≡ with_queued periodic.old (map (λ t. descriptor_member periodic.old.periodic.notes t.first) (filter (waits_for e) transfers.now)) }
{
    periodic.clear_queued();
    for transfer in transfers {
        queue_if_waiting(periodic, e, transfer);
    }
}

/// The members that a cancelled endpoint has in the frame list are those that the command is to unlink: its queue head, or its outstanding
/// descriptors, the oldest first.
pub fn queue_leaving(
    periodic: &mut PeriodicPart,
    transfers: &[Transfer],
    e: usize,
    endpoint: &Endpoint,
    placement: &Placement,
)
    requires room { length transfers.now < periodic.old.queued_room }
    ensures { periodic.new ≡ with_queued periodic.old (leaving_members periodic.old transfers.now e endpoint.now placement.now) }
{
    if is_isochronous(endpoint.desc.kind) {
        queue_waiting(periodic, transfers, e);
        return;
    }
    periodic.clear_queued();
    periodic.push_queue(endpoint.queue, placement);
}

/// The store of the frame list that is under way was made, if `stored`.
fn made_if(periodic: &mut PeriodicPart, stored: bool)
    ensures { periodic.new ≡ with_list periodic.old (list_made stored periodic.old.periodic.list) }
{
    if stored {
        periodic.store_made();
    }
}

/// The store of the frame list that is under way was made, if `stored`, and the command's next member begins where nothing is under way.
pub fn go_on(periodic: &mut PeriodicPart, stored: bool, removes: bool)
    ensures { periodic.new ≡ with_periodic periodic.old (begun_next removes (record periodic.old.periodic { list = list_made stored periodic.old.periodic.list })) }
{
    made_if(periodic, stored);
    periodic.begin_next(removes);
}

/// The store of a link, where there is one.
fn store_link(book: &RunBook, mem: &mut WordMem, store: Option<Store>)
    requires stands { Stands (holding book.now mem.old) }
    ensures memory { mem.new ≡ stored_link book.now mem.old store }
    ensures stands { Stands (holding book.now mem.new) }
{
    if let Some(store) = store {
        book.store(mem, store.block, store.at, store.value);
    }
}

/// The descriptor in this block leaves its frame by one store.
pub fn unlink_descriptor(book: &RunBook, mem: &mut WordMem, periodic: &mut PeriodicPart, block: u16)
    requires stands { Stands (holding book.now mem.old) }
    ensures periodic { periodic.new ≡ with_list periodic.old (after_store (unlinking periodic.old.periodic.list (descriptor_member periodic.old.periodic.notes block))) }
    ensures memory { mem.new ≡ stored_link book.now mem.old (next_store (unlinking periodic.old.periodic.list (descriptor_member periodic.old.periodic.notes block))) }
    ensures stands { Stands (holding book.now mem.new) }
{
    periodic.unlink_descriptor(block);
    store_link(book, mem, periodic.next_store());
    periodic.store_made();
}
