//! In a microframe the walk of the frames goes on only to such descriptors with something active as were active when the microframe began (EHCI 1.0, 4.4, 4.6 and 4.7):
//! one that is linked in the microframe stands first in its frame, so that the element of the frame list alone leads to it, and the element is read as the microframe begins.
ghost use Rattle.law_microframes.specs.visits.Began.{BeganIsMixed, ScriptsGoOnToOld};

/// When a microframe began nothing was out of place, and of an endpoint and a frame at most one descriptor was active.
pub fn began_is_mixed()
    ensures { BeganIsMixed }
{}

/// At each moment the walk goes on to descriptors that were active then, in the same frame, or to structures that have nothing active.
pub fn scripts_go_on_to_old()
    ensures { ScriptsGoOnToOld }
{}
