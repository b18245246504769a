ghost use Rattle.word_mem.specs.Memory.{Mem};
ghost use Rattle.hc_core.specs.Controller.{Content, microframe_row, HasRow};
ghost use Rattle.law_controller.specs.aligned_copies.Aligned.{AreAligned};
ghost use Rattle.claims_base.specs.Controller.{IsSameWhereLent};
ghost use Rattle.law_controller.specs.lent_reads.Reading.{ReadsLent};

use usb_base::Wire;

/// Over a memory with other words in the blocks that aren't Lent, each event of the controller is the same.
pub fn each_event_reads_lent_words<W: Wire>()
    ensures { (c : Content) (n : Mem) (wire : W) (new : Content) (after : W) → AreAligned c → IsSameWhereLent c.memory n
        → HasRow W.begins W.transacts (microframe_row c.registers c.control) c wire new after → ReadsLent W.begins W.transacts c n wire new after }
{}
