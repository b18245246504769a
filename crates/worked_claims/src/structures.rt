//! A ring of one queue head and an empty frame list, as words tell them, and what breaks them (EHCI 1.0, 3.1, 3.6, 4.6 and 4.8).
ghost use Rattle.worked_claims.specs.Structures.{RingIsRead, ListIsRead, WordsAreItsOwn, UnlinkedBreaks, OutBreaks};
ghost use Rattle.worked_claims.specs.Structures.{StrayBreaks, OutOfFramesBreaks, UnlistedBreaks};
ghost use Rattle.worked_claims.specs.Structures.{OtherDeviceBreaks, StrayCursorBreaks, ErrorBreaks};

/// The words tell the ring of one queue head, whose words are those of its endpoint, and a frame list of no members.
pub fn words_tell_ring_and_frame_list()
    ensures ring { RingIsRead }
    ensures list { ListIsRead }
    ensures queue_heads { WordsAreItsOwn }
{}

/// The last store of an open was left out, or the endpoint isn't linked.
pub fn memory_is_broken_by_an_endpoint_out_of_the_ring()
    ensures store { UnlinkedBreaks }
    ensures endpoint { OutBreaks }
{}

/// An element of the frame list leads to no member; an interrupt endpoint isn't in its frames; a descriptor that waits isn't linked.
pub fn memory_is_broken_by_a_frame_list_of_others()
    ensures element { StrayBreaks }
    ensures endpoint { OutOfFramesBreaks }
    ensures descriptor { UnlistedBreaks }
{}

/// A queue head has another device's words, the walk of the ring stands at a queue head of nobody's, or the controller met a fault.
pub fn memory_is_broken_by_a_stray_walk_and_a_fault()
    ensures words { OtherDeviceBreaks }
    ensures cursor { StrayCursorBreaks }
    ensures error { ErrorBreaks }
{}
