ghost use Rattle.std.specs.Prelude.{◌≡◌, ◌≤◌, take, drop, slice_get, Some};
ghost use Rattle.mem_runs.specs.Book.{holding, Stands, lend_taken};
ghost use Rattle.drv_table.specs.CancelOffers.{accepted_unchain, with_cancel, endpoint_members};
ghost use Rattle.drv_table.specs.FrameChoice.{framed_by, framed_notes, with_notes, placement_at, linked_by};
ghost use Rattle.drv_table.specs.Commands.{advance, linked_on, or_finished, leave_frames};

use crate::driver::Driver;
use bandwidth::Placement;
use drv_endpoints::{event_count, or_cancel, removes_members};
use drv_frames::{give_frames, go_on, of_command, queue_descriptors, queue_leaving, write_links};
use drv_periodic_table::Removed;
use drv_table::{Command, Endpoint};
use word_mem::WordMem;

impl Driver {
    /// The descriptors of the command get their frames, by a reading of FRINDEX.
    pub(crate) fn give_frames(&mut self, frindex: u16)
        ensures driver { self.new ≡ framed_by self.old frindex self.old.command }
        ensures book { self.new.book ≡ self.old.book }
    {
        let Some(Command::Iso(e, t, count)) = self.command else {
            return;
        };
        self.frame_command(e, t, count, frindex);
        self.advance();
    }

    /// So many descriptors from this transfer on get their frames, and are to be linked.
    fn frame_command(&mut self, e: usize, t: usize, count: u8, frindex: u16)
        ensures { self.new ≡ with_notes self.old frindex (take count (drop t self.old.transfers)) (framed_notes self.old frindex e t count (placement_at self.old e)) }
    {
        let placement = self.placement_at(e);
        give_frames(
            &mut self.periodic,
            &self.transfers,
            placement,
            e,
            t,
            count,
            frindex,
        );
        queue_descriptors(&mut self.periodic, of_command(&self.transfers, t, count));
        self.periodic.read(frindex);
    }

    /// The place of an endpoint in the frame list.
    fn placement_at(&self, e: usize) -> Option<Placement>
        ensures { result ≡ placement_at self.now e }
    {
        match self.endpoints.get(e) {
            Some(endpoint) => endpoint.placement,
            None => None,
        }
    }

    /// The links of the command's descriptors are written, and they are lent.
    pub(crate) fn lend_descriptors(&mut self, mem: &mut WordMem)
        requires stands { Stands (holding self.old.book mem.old) }
        ensures driver { self.new ≡ advance (record self.old { book = (lend_taken (holding self.old.book (linked_by self.old mem.old self.old.command))).book }) }
        ensures memory { mem.new ≡ (lend_taken (holding self.old.book (linked_by self.old mem.old self.old.command))).memory }
        ensures stands { Stands (holding self.new.book mem.new) }
    {
        self.link_command(mem);
        self.book.lend_taken(mem);
        self.advance();
    }

    /// The links of the command's descriptors are written.
    fn link_command(&self, mem: &mut WordMem)
        requires stands { Stands (holding self.now.book mem.old) }
        ensures memory { mem.new ≡ linked_by self.now mem.old self.now.command }
        ensures stands { Stands (holding self.now.book mem.new) }
    {
        if let Some(Command::Iso(_, t, count)) = self.command {
            write_links(
                &self.book,
                mem,
                &self.periodic,
                of_command(&self.transfers, t, count),
            );
        }
    }

    /// The last of the own events of a command that links or unlinks was made, or a store of the frame list.
    pub(crate) fn link_on(&mut self, command: Command)
        ensures driver { self.new ≡ linked_on self.old command }
        ensures book { self.new.book ≡ self.old.book }
    {
        let own = event_count(&command);
        let stored = self.made >= own;
        go_on(&mut self.periodic, stored, removes_members(&command));
        self.made = own;
        self.finish_if_idle(command);
    }

    /// The command is finished where nothing is linked or unlinked.
    fn finish_if_idle(&mut self, command: Command)
        ensures driver { self.new ≡ or_finished self.old command }
        ensures book { self.new.book ≡ self.old.book }
    {
        if self.periodic.is_idle() {
            self.finish(command);
        }
    }

    /// The endpoint of this number left its frames.
    pub(crate) fn leave_frames(&mut self, e: usize)
        ensures driver { self.new ≡ leave_frames self.old e (slice_get self.old.endpoints e) }
        ensures book { self.new.book ≡ self.old.book }
    {
        let Some(endpoint) = self.endpoints.get(e) else {
            return;
        };
        if !endpoint.chained {
            return;
        }
        let left = Endpoint {
            chained: false,
            ..endpoint
        };
        self.endpoints.write(e, left);
        self.periodic.push_removal(Removed::Endpoint(e));
    }

    /// The cancel of a periodic endpoint is accepted.
    pub(crate) fn accept_unchain(&mut self, e: usize, endpoint: &Endpoint, placement: &Placement)
        requires room { 1 ≤ self.old.room.reports }
        requires endpoint { slice_get self.old.endpoints e ≡ Some endpoint.now }
        ensures driver { self.new ≡ accepted_unchain self.old e endpoint.now (endpoint_members self.old e endpoint.now placement.now) }
        ensures book { self.new.book ≡ self.old.book }
    {
        self.begin_unchain(e, endpoint, placement);
        self.finish_if_idle(Command::Unchain(e));
    }

    /// The members of a cancelled endpoint are to leave the frame list, and the first begins to.
    fn begin_unchain(&mut self, e: usize, endpoint: &Endpoint, placement: &Placement)
        requires room { 1 ≤ self.old.room.reports }
        requires endpoint { slice_get self.old.endpoints e ≡ Some endpoint.now }
        ensures driver { self.new ≡ with_cancel self.old e endpoint.now (endpoint_members self.old e endpoint.now placement.now) }
        ensures book { self.new.book ≡ self.old.book }
    {
        queue_leaving(&mut self.periodic, &self.transfers, e, endpoint, placement);
        self.periodic.begin_next(true);
        self.room.reports -= 1;
        self.command = Some(Command::Unchain(e));
        self.made = 0;
        let cancelled = Endpoint {
            cancelled: true,
            ended: or_cancel(endpoint.ended),
            ..*endpoint
        };
        self.endpoints.write(e, cancelled);
    }
}
