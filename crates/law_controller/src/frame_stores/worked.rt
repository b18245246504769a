//! Worked rows: of the frame with an iTD and a queue head of an interrupt endpoint, whose chain is ended at the iTD; and of both walks, where a frame is emptied.
ghost use Rattle.std.specs.Prelude.{◌≡◌, true, Some, None};
ghost use Rattle.link_words.specs.declared.kinds.Link.{Link};
ghost use Rattle.link_words.specs.Layout.{word_of};
ghost use Rattle.link_words.specs.Fields.{link_rows};
ghost use Rattle.link_words.specs.Links.{link_of, no_link};
ghost use Rattle.hc_core.specs.Controller.{began};
ghost use Rattle.law_ring.specs.Hand.{Empty};
ghost use Rattle.law_frames.specs.Met.{Kind, AnItd};
ghost use Rattle.law_frames.specs.FrameHand.{Nothing, OfItd};
ghost use Rattle.law_frames.specs.Frame.{IsFrame};
ghost use Rattle.law_frames.specs.PartSamples.{itd, met, at, in_hand, fetched};
ghost use Rattle.law_controller.specs.frame_control.Both.{RunsBoth};
ghost use Rattle.law_controller.specs.frame_control.Samples as both;
ghost use Rattle.law_controller.specs.frame_stores.Stores.{itd_linked, frame_linked, link_in};
ghost use Rattle.law_controller.specs.frame_stores.Samples.{ended, now, memory, narrow, listed, stored};

/// The store makes the word of the end of a chain. What stands there leads nowhere from then on; the copy in hand still leads to the queue head.
#[tactic(auto, unfolding(hc_iso::specs::Itd::fetched_itd))]
pub fn a_chain_is_ended()
    ensures word { word_of link_rows no_link ≡ 1 }
    ensures there { link_in ended ≡ Link.End }
    ensures older { link_of (itd_linked 64 no_link in_hand).held.itd.link ≡ Link.Qh 128 }
    ensures copy { (itd_linked 64 no_link in_hand).itd ≡ record itd { link = no_link } }
    ensures meets { narrow 64 ≡ Some AnItd }
    ensures others { narrow 128 ≡ None }
{}

/// With the iTD in hand, the queue head is met as before; where the walk hasn't begun its frame yet, it isn't met any more.
pub fn a_chain_of_two_is_ended()
    ensures in_hand { IsFrame met now (frame_linked 64 no_link (OfItd in_hand)) (record fetched { memory = memory }) }
    ensures before { IsFrame narrow now Nothing (record at { memory = memory }) }
{}

/// The element of a frame gets the word of an end: both walks go on, and so they do as the first microframe begins.
pub fn a_frame_is_emptied()
    ensures stored { RunsBoth both.base both.member both.met listed Empty Nothing stored }
    ensures begun { RunsBoth both.base both.member both.met listed Empty Nothing (began true stored) }
{}
