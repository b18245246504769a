//! What is said of a driver's content and of the words of memory that stand for it (EHCI 1.0, 3, 4.6 to 4.8 and 4.10; USB 2.0, 5.5 and 5.8): definitions that the
//! clauses of the top call cite, through `claims_world`, and nothing else. Why they hold is in the `law_` crates.
//!
//! - specs/Owners.antt, specs/Leaving.antt: whose each run of blocks is, and what is to be given back.
//! - specs/LentRuns.antt, specs/Released.antt: which runs are lent, and what is Free once it was given back.
//! - specs/FrameListMembers.antt, specs/DueMembers.antt, specs/FrameWords.antt: what stands in the frame list, what is due in a frame, and the words of both.
//! - specs/Unlinked.antt: what may still be met of those that left the frame list.
//! - specs/Ring.antt, specs/Walk.antt: the ring of queue heads, and where its walk stands.
//! - specs/InPlace.antt: the fixed words of queue heads are in place.
//! - specs/Scripts.antt: scripts whose endpoints are high-speed bulk and control ones.
//!
//! There is no code, and no proof.
#![tactic(auto)]
