ghost use Rattle.std.specs.Prelude.{◌≡◌, ℕ, ◌%◌};
ghost use Rattle.word_mem.specs.Memory.{word_at};
ghost use Rattle.hc_core.specs.Controller.{Content, microframe_row, HasRow};
ghost use Rattle.law_controller.specs.aligned_copies.Aligned.{AreAligned};
ghost use Rattle.law_controller.specs.event_places.Places.{IsBeside, IsLinkBeside};

use usb_base::Wire;

/// Each event of the controller leaves each word that is none of the places of what it has in hand.
pub fn each_event_writes_its_places<W: Wire>()
    ensures { (c : Content) (wire : W) (new : Content) (after : W) (at : ℕ) → IsBeside c.control at
        → HasRow W.begins W.transacts (microframe_row c.registers c.control) c wire new after → word_at new.memory at ≡ word_at c.memory at }
{}

/// So it leaves each link word that doesn't lie in a buffer, and isn't the first word of the second block of what is in hand.
pub fn a_link_word_stays<W: Wire>()
    ensures { (c : Content) (wire : W) (new : Content) (after : W) (a : ℕ) → AreAligned c → a % 32 ≡ 0 → IsLinkBeside c.control a
        → HasRow W.begins W.transacts (microframe_row c.registers c.control) c wire new after → word_at new.memory a ≡ word_at c.memory a }
{}
