ghost use Rattle.std.specs.Prelude.{◌≡◌, ℕ};
ghost use Rattle.std.specs.Bool.{OnTrue, OnFalse};
ghost use Rattle.std.specs.List.{AllByRecursion};
ghost use Rattle.script_types.specs.declared.scripts.Event.{Event as Kind};
ghost use Rattle.bus_world.specs.World.{kind_next};
ghost use Rattle.bus_world.specs.AtWork.{next_at_work, room_in};
ghost use Rattle.drv_table.specs.declared.content.Reserve.{Reserve as Room};
ghost use Rattle.script_fits.specs.Fits.{IsFit, IsFitLine};
ghost use Rattle.bus_world.specs.Rooms.{HasRoomFor, needs_line, with_room, reserve_of};
ghost use Rattle.bus_world.specs.Orders.{is_end, left_of, orders_of, Events, Microframes};
ghost use Rattle.bus_world.specs.RunsAtWork.{CarriesOutAtWork, EndsAtWork, IsMicroframeUnendedAtWork, StopsInAtWork, IsRunAtWork};
ghost use Rattle.bus_world.specs.RunsAtWork.{place_at_work, ticks_at_work};
ghost use Rattle.bus_world.specs.BudgetsAtWork.{AdmitsExactlyAtWork};

use crate::world::World;
use hc_core::HcStep;
use script_types::{Event, Line, Script};

/// The most turns of one microframe.
const MOST_TURNS: u32 = 67_108_864;

fn ends(step: HcStep) -> bool
    ensures { result ≡ is_end step }
{
    match step {
        HcStep::End => true,
        _ => false,
    }
}

impl World {
    /// One turn: a step of the controller, then one of the driver. Whether the controller's ended the microframe.
    fn turn(&mut self) -> bool
        ensures ended { result ≡ is_end (kind_next self.old.work.world) }
        ensures work { self.new ≡ record self.old { work = next_at_work self.old.fixed (next_at_work self.old.fixed self.old.work Kind.C) Kind.D } }
        ensures room { room_in self.new.work ≡ room_in self.old.work }
    {
        let ended = ends(self.controller_event());
        self.driver_event();
        ended
    }

    /// Turns until the microframe has ended; false where it hasn't after the most turns.
    fn microframe(&mut self) -> bool
        ensures fixed { self.new.fixed ≡ self.old.fixed }
        ensures room { room_in self.new.work ≡ room_in self.old.work }
        ensures ended { OnTrue result (EndsAtWork self.old.fixed self.old.work self.new.work) }
        ensures unended { OnFalse result (IsMicroframeUnendedAtWork self.old.fixed self.old.work self.new.work) }
    {
        for _turn in 0..MOST_TURNS {
            if self.turn() {
                return true;
            }
        }
        false
    }

    /// So many microframes; false where one of them doesn't end.
    fn microframes(&mut self, count: u32) -> bool
        ensures fixed { self.new.fixed ≡ self.old.fixed }
        ensures room { room_in self.new.work ≡ room_in self.old.work }
        ensures done { OnTrue result (CarriesOutAtWork self.old.fixed self.old.work (Microframes count) self.new.work) }
        ensures overlong { OnFalse result (StopsInAtWork self.old.fixed self.old.work (Microframes count) self.new.work) }
    {
        for _microframe in 0..count {
            if !self.microframe() {
                return false;
            }
        }
        true
    }

    /// So many events of one kind.
    fn events(&mut self, event: Event, count: u32)
        ensures fixed { self.new.fixed ≡ self.old.fixed }
        ensures room { room_in self.new.work ≡ room_in self.old.work }
        ensures done { CarriesOutAtWork self.old.fixed self.old.work (Events event count) self.new.work }
    {
        for _event in 0..count {
            self.event(event);
        }
    }
}

impl World {
    /// One action line; false where a microframe of it doesn't end.
    fn line(&mut self, number: u32, line: &Line) -> bool
        requires fits { IsFitLine line.now }
        requires room { HasRoomFor (room_in self.old.work) (needs_line line.now) }
        ensures fixed { self.new.fixed ≡ self.old.fixed }
        ensures done { OnTrue result (CarriesOutAtWork self.old.fixed self.old.work (left_of line.now number) self.new.work) }
        ensures overlong { OnFalse result (StopsInAtWork self.old.fixed self.old.work (left_of line.now number) self.new.work) }
        ensures room_left { (r : Room) → HasRoomFor (room_in self.old.work) (with_room (needs_line line.now) r)
            → HasRoomFor (room_in self.new.work) r }
    {
        match line {
            Line::Order(event, count) => {
                self.events(*event, *count);
                true
            }
            Line::Micro(count) => self.microframes(*count),
            Line::Command(cmd) => {
                self.offer(number, cmd);
                true
            }
            Line::Plug(_port) => true,
            Line::Unplug(_port) => true,
        }
    }

    /// Carries out these lines, in their order.
    fn lines(&mut self, lines: &[(u32, Line)])
        requires fits { AllByRecursion (λ x. IsFitLine x.1) lines.now }
        requires room { HasRoomFor (room_in self.old.work) (reserve_of lines.now) }
        ensures fixed { self.new.fixed ≡ self.old.fixed }
        ensures run { IsRunAtWork self.old.fixed self.old.work (orders_of lines.now) self.new.work }
    {
        for entry in lines {
            if !self.line(entry.0, &entry.1) {
                return;
            }
        }
    }

    /// Carries out the action lines of a script, in their order. A microframe that doesn't end within 67,108,864 turns ends the run.
    /// After each event and each command all that is placed fits, and the open of a periodic endpoint is refused for want of a placement
    /// exactly where none fits.
    pub fn run(&mut self, script: &Script)
        requires fits { IsFit script.now }
        requires room { HasRoomFor (room_in self.old.work) (reserve_of script.now.lines) }
        ensures fixed { self.new.fixed ≡ self.old.fixed }
        ensures run { IsRunAtWork self.old.fixed self.old.work (orders_of script.now.lines) self.new.work }
        ensures budgets { (k : ℕ) → AdmitsExactlyAtWork self.old.work.world.driver.periodic.plan.rules
            (ticks_at_work self.old.fixed (place_at_work self.old.work (orders_of script.now.lines)) k) }
    {
        let _driver = self.driver();
        self.lines(script.lines.as_slice());
    }
}
