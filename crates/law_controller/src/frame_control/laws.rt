ghost use Rattle.std.specs.Prelude.{◌≡◌, ℕ, Bool, true, false, Option, None};
ghost use Rattle.hc_core.specs.Controller.{Content, microframe_row, HasRow};
ghost use Rattle.law_structures.specs.lent_structures.Structures.{StructureSets};
ghost use Rattle.law_ring.specs.Hand.{Hand};
ghost use Rattle.claims_base.specs.Controller.{Base};
ghost use Rattle.law_ring.specs.Effects.{AreBytesHeard};
ghost use Rattle.law_controller.specs.controlled_streams.Control.{IsOn, IsControlled};
ghost use Rattle.law_frames.specs.Met.{Kind};
ghost use Rattle.law_frames.specs.FrameHand.{FrameHand, Nothing};
ghost use Rattle.law_frames.specs.FrameSteps.{EventHappens};
ghost use Rattle.law_controller.specs.frame_control.Both.{RunsBoth, BothEffect, ControlsBoth};
ghost use Rattle.law_controller.specs.frame_control.Joined.{WalksMoveStreams, JoinedIsAsked};

use usb_base::Wire;

/// Each event of a controller that runs with its asynchronous schedule on, over a ring and the frames, leaves both; it is told what happened to the structures,
/// and of the ring's to the bytes and the toggle of each endpoint (4.6 to 4.10 and 4.12.3). Premise: the walk of the frames, with this in hand, leaves a frame.
pub fn each_event_of_the_controller_over_both<W: Wire>()
    ensures { (base : Base) (member : ℕ → Bool) (met : ℕ → Option Kind) (parts : StructureSets) (hand : Hand) (frame : FrameHand) (c : Content) (wire : W) (new : Content) (after : W)
        → EventHappens W.transacts met parts frame → RunsBoth base member met parts hand frame c → IsOn base → AreBytesHeard W.transacts wire after
        → HasRow W.begins W.transacts (microframe_row c.registers c.control) c wire new after
        → ControlsBoth W.begins W.transacts base member met parts hand frame c.control wire after new }
{}

/// Where the periodic schedule is on and no frame has a structure, both walks are run: the walk of the frames meets nothing, and has nothing in hand.
pub fn a_frameless_list_has_nothing_met()
    ensures { (base : Base) (member : ℕ → Bool) (parts : StructureSets) (hand : Hand) (c : Content) → base.periodic_enable ≡ true
        → IsControlled base member parts hand c → RunsBoth base member (λ n. None) parts hand Nothing c }
{}

/// .. and the other way.
pub fn frames_without_structures_are_frameless()
    ensures { (base : Base) (member : ℕ → Bool) (parts : StructureSets) (hand : Hand) (c : Content)
        → RunsBoth base member (λ n. None) parts hand Nothing c → IsControlled base member parts hand c }
{}

/// Each event leaves the structures of what neither walk meets.
pub fn what_neither_walk_meets_stays<W: Wire>()
    ensures { (base : Base) (member : ℕ → Bool) (met : ℕ → Option Kind) (parts : StructureSets) (hand : Hand) (frame : FrameHand) (c : Content) (wire after : W) (now : StructureSets)
        (later : Hand) (frame_later : FrameHand) (n : ℕ) → RunsBoth base member met parts hand frame c
        → BothEffect W.begins W.transacts parts c.control hand frame wire after now later frame_later → member n ≡ false → met n ≡ None → now n ≡ parts n }
{}

/// What either walk has in hand of a queue head is one hand, in which each event moves one stream, of the ring or of the frames; or
/// nothing is told otherwise.
pub fn walks_move_streams<W: Wire>()
    ensures { WalksMoveStreams W.begins W.transacts }
{}

/// A copy in that hand is one of a queue head of the ring, or of one that the walk of the frames meets.
pub fn joined_is_asked()
    ensures { JoinedIsAsked }
{}
