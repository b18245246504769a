//! Worked rows, which the check computes: the streams of interrupt endpoints in the frames, where what either walk has in hand is one hand.
ghost use Rattle.std.specs.Prelude.{◌≡◌, true, false, [], ◌∷◌};
ghost use Rattle.usb_base.specs.declared.packets.Pid.TheVariants.{Ack, Nyet};
ghost use Rattle.usb_base.specs.declared.packets.Reply.TheVariants.{Hand};
ghost use Rattle.law_controller.specs.frame_control.Both.{BothEffect};
ghost use Rattle.law_controller.specs.frame_control.Joined.{joined, BothStreamEffect};
ghost use Rattle.law_controller.specs.frame_control.Samples.{steps_on};
ghost use Rattle.law_frames.specs.FrameHand.{Nothing, OfQueue, OfSettled};
ghost use Rattle.law_frames.specs.FrameStreams.{IsIsoAsk};
ghost use Rattle.law_frames.specs.Visits.{IsWrittenBack, back_of};
ghost use Rattle.law_frames.specs.QueueVisitSamples.{met};
ghost use Rattle.law_frames.specs.SplitSamples.{memory, parts, copy, started, waiting, ended, missed, hears, is_silent, completing};
ghost use Rattle.law_ring.specs.Hand.{Empty, Settled};
ghost use Rattle.law_ring.specs.OutBus.{Takes, took};
ghost use Rattle.law_ring.specs.OutPipes.{OutAgrees};
ghost use Rattle.law_ring.specs.Told.{Told, SameTold};
ghost use Rattle.law_structures.specs.lent_structures.Settles.{is_moved};
ghost use Rattle.example_frames.specs.StreamSamples.{in_frames, late, out_queue, out_part, out_copy, sent, as_bulk, refused, acknowledged, moved_then, out_ask, none_taken, both_taken};

/// The complete-split of a full-speed interrupt endpoint is an event of either walk, and moves one stream: before it none of its bytes are
/// told to be moved, after it these two.
pub fn a_complete_split_is_in_one_hand()
    ensures effect { (v : IsWrittenBack met memory parts copy started)
        → BothEffect steps_on hears v.now (in_frames completing) Empty (OfQueue waiting 0) 1 2 v.now Empty (OfSettled waiting ended 1) }
    ensures streams { (v : IsWrittenBack met memory parts copy started)
        → BothStreamEffect steps_on (IsIsoAsk v.now) hears v.now (joined Empty (OfQueue waiting 0)) 1 2 v.now
        (joined Empty (OfSettled waiting ended 1)) }
    ensures before { (v : IsWrittenBack met memory parts copy started) → Told (joined Empty (OfQueue waiting 0)) v.now 0 64 [] }
    ensures after { (v : IsWrittenBack met memory parts copy started)
        → Told (joined Empty (OfSettled waiting ended 1)) v.now 0 64 (1 ∷ 2 ∷ []) }
{}

/// Where its microframe was missed, nothing is told otherwise, though its qTD is halted.
pub fn a_missed_split_tells_the_same()
    ensures effect { (v : IsWrittenBack met memory parts copy started)
        (w : IsWrittenBack met (back_of copy started memory).memory v.now waiting missed)
        → BothEffect steps_on is_silent v.now (in_frames late) Empty (OfQueue waiting 0) 1 1 w.now Empty Nothing }
    ensures same { (v : IsWrittenBack met memory parts copy started)
        (w : IsWrittenBack met (back_of copy started memory).memory v.now waiting missed)
        → SameTold (joined Empty (OfQueue waiting 0)) v.now (joined Empty Nothing) w.now }
{}

/// The complete-split itself tells another thing, and a copy in hand that is let go without a write-back does: both are no such event.
pub fn a_complete_split_tells_more()
    ensures made { (v : IsWrittenBack met memory parts copy started)
        → SameTold (joined Empty (OfQueue waiting 0)) v.now (joined Empty (OfSettled waiting ended 1)) v.now → ⊥ }
    ensures let_go { (v : IsWrittenBack met memory parts copy started)
        → SameTold (joined Empty (OfSettled waiting ended 1)) v.now (joined Empty Nothing) v.now → ⊥ }
{}

/// An OUT of an interrupt endpoint at high speed that is answered NYET: the device has the packet, the host counts an error and sends it
/// again, so the device is ahead; in a ring it is an acknowledgement. The device drops the packet that comes again, and once that is
/// acknowledged both are level.
pub fn a_nyet_leaves_the_device_ahead()
    ensures stays { is_moved refused.outcome ≡ false }
    ensures error { refused.host.cerr ≡ 2 }
    ensures goes_on { refused.host.active ≡ true }
    ensures same_toggle { refused.host.toggle ≡ false }
    ensures in_a_ring { is_moved (as_bulk (Hand Nyet)).outcome ≡ true }
    ensures takes { Takes out_ask sent none_taken (Hand Nyet) both_taken }
    ensures ahead { OutAgrees out_part (Settled out_copy refused) 0 out_queue false [] both_taken }
    ensures drops { Takes out_ask sent both_taken (Hand Ack) both_taken }
    ensures level { OutAgrees out_part (Settled out_copy acknowledged) 0 out_queue acknowledged.host.toggle moved_then both_taken }
{}

/// A host that turned its toggle there and counted no bytes would agree no more; nor does a device that took the packet twice.
pub fn a_turned_toggle_breaks_the_pipe()
    ensures turned { OutAgrees out_part (Settled out_copy refused) 0 out_queue true [] both_taken → ⊥ }
    ensures twice { OutAgrees out_part (Settled out_copy acknowledged) 0 out_queue true sent (took sent both_taken) → ⊥ }
{}
