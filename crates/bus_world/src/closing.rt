ghost use Rattle.std.specs.Prelude.{◌≡◌, ℕ, ◌<◌, ◌^◌, length, slice_index, IfOk};
ghost use Rattle.std.specs.List.{flat_map};
ghost use Rattle.usb_base.specs.Outside.{Prints};
ghost use Rattle.report_text.specs.ReportText.{report_text};
ghost use Rattle.image_codec.specs.Image.{IsAligned, HasFields};
ghost use Rattle.word_mem.specs.Memory.{IsShaped};
ghost use Rattle.endpoint_script.specs.Device.{taken_of};
ghost use Rattle.bus_world.specs.Closing.{waiting, waiting_text, hub_of, hub_text, world_image};
ghost use Rattle.bus_world.specs.ClosingAtWork.{device_text_at_work, told_text_at_work};
ghost use Rattle.bus_world.specs.ClosingAtWork.{opened_text_at_work, closing_at_work, text_at_work};

use crate::epochs::print_epochs;
use crate::marks::Mark;
use crate::world::World;
use bus_wire::Seat;
use endpoint_script::Device;
use image_codec::Image;
use report_text::{print_acted, print_pending, print_report};
use std::alloc::Global;
use usb_base::{EpKind, EpName, Failed, ListOf, Memory, Sink, Way};

/// Writes the line of so many transfers that wait at an endpoint, if there are some.
fn print_count<K: Sink>(name: &EpName, k: u32, sink: &mut K) -> Result<(), Failed>
    ensures { Prints K.written K.faults sink.old sink.new result (waiting_text name.now k) }
{
    if k == 0 {
        return Ok(());
    }
    print_pending(name, k, sink)
}

/// Writes the lines of what a device took at an endpoint, one an epoch, or how often it acted, if there are some.
fn print_device<K: Sink>(
    marks: &[Mark],
    seat: &Seat,
    device: &Device,
    sink: &mut K,
) -> Result<(), Failed>
    requires { length (taken_of device.now seat.now.name) < 2 ^ 32 }
    ensures { Prints K.written K.faults sink.old sink.new result
        (device_text_at_work marks.now seat.now.name.way seat.now.kind seat.now.name device.now) }
{
    match (seat.name.way, seat.kind) {
        (Way::Out, EpKind::Bulk | EpKind::Interrupt) => {
            print_epochs(marks, &seat.name, device.taken(&seat.name), sink)
        }
        (Way::Ctl, _) => print_acted(&seat.name, device.acted(&seat.name), sink),
        _ => Ok(()),
    }
}

impl World {
    /// How many transfers wait at an endpoint that hasn't ended.
    fn waiting(&self, name: &EpName) -> u32
        ensures { result ≡ waiting self.now.work.world.driver name.now }
    {
        if self.driver().ended(name).is_some() {
            return 0;
        }
        self.driver().pending(name)
    }

    /// Writes the line of how often endpoint 0 of a hub acted, if there is the hub.
    fn print_hub<K: Sink>(&self, name: &EpName, sink: &mut K) -> Result<(), Failed>
        ensures { Prints K.written K.faults sink.old sink.new result (hub_text name.now (hub_of self.now.work.world.bus name.now)) }
    {
        match self.hub(name.addr) {
            Some(hub) => print_acted(name, hub.acted(), sink),
            None => Ok(()),
        }
    }

    /// Writes the line of what the device of an endpoint took, or how often it or a hub acted, if there is one.
    fn print_told<K: Sink>(&self, seat: &Seat, sink: &mut K) -> Result<(), Failed>
        ensures { Prints K.written K.faults sink.old sink.new result (told_text_at_work self.now.work.marks self.now.work.world.bus seat.now) }
    {
        match self.device(seat.name.addr) {
            Some(device) => print_device(self.marks(), seat, device, sink),
            None => self.print_hub(&seat.name, sink),
        }
    }

    /// Writes the line of what waits at an endpoint that hasn't ended, if something does.
    fn print_waiting<K: Sink>(&self, name: &EpName, sink: &mut K) -> Result<(), Failed>
        ensures { Prints K.written K.faults sink.old sink.new result (waiting_text name.now (waiting self.now.work.world.driver name.now)) }
    {
        print_count(name, self.waiting(name), sink)
    }

    /// Writes what closes the report of an endpoint that was opened.
    fn print_opened<K: Sink>(&self, seat: &Seat, sink: &mut K) -> Result<(), Failed>
        ensures { Prints K.written K.faults sink.old sink.new result (opened_text_at_work self.now.work seat.now) }
    {
        self.print_waiting(&seat.name, sink)?;
        self.print_told(seat, sink)
    }

    /// Writes what closes the report of an endpoint, if it was opened.
    fn print_closing<K: Sink>(&self, seat: &Seat, sink: &mut K) -> Result<(), Failed>
        ensures { Prints K.written K.faults sink.old sink.new result (closing_at_work self.now.work seat.now) }
    {
        if self.driver().opened(&seat.name) {
            return self.print_opened(seat, sink);
        }
        Ok(())
    }

    /// Writes what closes the reports of these endpoints.
    fn print_closings<K: Sink>(&self, seats: &[Seat], sink: &mut K) -> Result<(), Failed>
        ensures { Prints K.written K.faults sink.old sink.new result (flat_map (closing_at_work self.now.work) seats.now) }
    {
        for seat in seats {
            self.print_closing(seat, sink)?;
        }
        Ok(())
    }

    /// Writes the lines of the report.
    fn print_lines<K: Sink>(&self, sink: &mut K) -> Result<(), Failed>
        ensures { Prints K.written K.faults sink.old sink.new result (report_text self.now.work.world.driver.reports self.now.work.world.driver.store) }
    {
        print_report(self.driver().reports(), self.driver().store(), sink)
    }

    /// Writes what closes the report of each endpoint.
    fn print_ends<K: Sink>(&self, sink: &mut K) -> Result<(), Failed>
        ensures { Prints K.written K.faults sink.old sink.new result (flat_map (closing_at_work self.now.work) self.now.fixed.seats) }
    {
        self.print_closings(self.seats(), sink)
    }

    /// Writes the report: its lines, and then for each endpoint that was opened those that close it. `Failed` comes only where the sink's
    /// count of faults rose, with a front part of the text written. It takes no memory.
    pub fn print<K: Sink>(&self, sink: &mut K) -> Result<(), Failed>
        ensures { Prints K.written K.faults sink.old sink.new result (text_at_work self.now.fixed self.now.work) }
    {
        self.print_lines(sink)?;
        self.print_ends(sink)
    }

    /// The words of memory.
    fn copied_words(&self, alloc: Global) -> Result<Vec<u32>, Memory>
        ensures words { IfOk result (λ v. v.items ≡ self.now.work.world.memory.words) }
        ensures shape { IsShaped self.now.work.world.memory }
        ensures fits { (i : ℕ) → slice_index self.now.work.world.memory.words i < 2 ^ 32 }
    {
        let count = self.mem().words();
        let mut words = Vec::with_capacity(alloc, count as usize)?;
        for word in 0..count {
            words.push_reserved(self.mem().word(4 * word));
        }
        Ok(words)
    }

    /// The image of memory.
    ///
    /// # Errors
    ///
    /// `Memory` where the words find no room.
    pub fn image(&self, alloc: Global) -> Result<Image, Memory>
        ensures image { IfOk result (λ i. i ≡ world_image self.now.work.world) }
        ensures aligned { IfOk result (λ i. IsAligned i) }
        ensures fields { IfOk result (λ i. HasFields i) }
    {
        let words = self.copied_words(alloc)?;
        Ok(Image {
            frindex: self.registers().frame_index(),
            list_base: self.registers().periodic_list_base(),
            async_at: self.registers().async_list_address(),
            words: ListOf::of(words),
        })
    }
}
