ghost use Rattle.std.specs.Prelude.{◌≡◌, ℕ, ◌%◌, ◌≤◌, Bool, true};
ghost use Rattle.hc_core.specs.Controller.{Content, new_control, content, microframe_row, HasRow};
ghost use Rattle.drv_table.specs.declared.content.Reserve.{Reserve};
ghost use Rattle.drv_table.specs.DriverContent.{DriverContent};
ghost use Rattle.drv_table.specs.Opening.{opening};
ghost use Rattle.drv_table.specs.Rows.{driver_row};
ghost use Rattle.law_structures.specs.lent_structures.Structures.{StructureSets};
ghost use Rattle.law_ring.specs.Hand.{Hand, Empty};
ghost use Rattle.claims_base.specs.Controller.{Base, opening_base};
ghost use Rattle.law_ring.specs.Effects.{AreBytesHeard};
ghost use Rattle.law_driver_ring.specs.Driven.{is_quiet};
ghost use Rattle.law_driver_ring.specs.PartOpened.{opening_parts, is_head};
ghost use Rattle.law_driver.specs.in_place.Run.{IsElsewhere};
ghost use Rattle.law_queues.specs.shared_memory.Shared.{IsShared, StaysShared, parts_of, next_parts, after_driver};

use usb_base::Wire;

/// A driver that was just built and a new controller share their memory so (4.1).
pub fn the_opening_is_shared()
    ensures { (n : ℕ) (room : Reserve) → 2048 ≤ n → n ≤ 262144 → n % 1024 ≡ 0
        → IsShared opening_base is_head opening_parts Empty (content new_control (opening n room).registers (opening n room).memory) (opening n room).driver }
{}

/// Each event of the controller leaves the states of blocks, the words of Free blocks, and words 0 to 2 of each queue head of the driver.
pub fn the_controller_writes_elsewhere<W: Wire>()
    ensures { (base : Base) (member : ℕ → Bool) (parts : StructureSets) (hand : Hand) (c : Content) (d : DriverContent) (wire : W) (new : Content) (after : W)
        → IsShared base member parts hand c d → AreBytesHeard W.transacts wire after
        → HasRow W.begins W.transacts (microframe_row c.registers c.control) c wire new after → IsElsewhere d c.memory new.memory }
{}

/// So all of it stays.
pub fn the_controller_keeps_it_shared<W: Wire>()
    ensures { (base : Base) (member : ℕ → Bool) (parts : StructureSets) (hand : Hand) (c : Content) (d : DriverContent) (wire : W) (new : Content) (after : W)
        → IsShared base member parts hand c d → AreBytesHeard W.transacts wire after
        → HasRow W.begins W.transacts (microframe_row c.registers c.control) c wire new after → StaysShared base member new d }
{}

/// And an event of the driver that stores no word keeps it, with the same structures and the same copy in hand.
pub fn quiet_events_keep_it_shared()
    ensures { (base : Base) (member : ℕ → Bool) (parts : StructureSets) (hand : Hand) (c : Content) (d : DriverContent)
        → IsShared base member parts hand c d → is_quiet (driver_row (parts_of c d)) ≡ true
        → IsShared base member parts hand (after_driver c d) (next_parts c d).driver }
{}
