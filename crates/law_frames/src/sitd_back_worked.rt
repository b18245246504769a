//! Worked rows, which the check computes: of a siTD of an IN, whose last complete-split brings its two bytes.
ghost use Rattle.std.specs.Prelude.{◌≡◌, true, false, [], ◌∷◌, Some};
ghost use Rattle.usb_base.specs.declared.packets.Reply.{Reply};
ghost use Rattle.hc_iso.specs.declared.held.SitdTurn.{SitdTurn};
ghost use Rattle.hc_iso.specs.declared.held.SplitOutcome.{SplitOutcome};
ghost use Rattle.hc_iso.specs.Sitd.{sitd_turn};
ghost use Rattle.law_structures.specs.lent_structures.Structures.{Buffer, SplitIsochronous};
ghost use Rattle.law_frames.specs.SitdBacks.{IsSitdInHand, missed, received_by, AreReceivedBy, parts_after, IsCounted};
ghost use Rattle.law_frames.specs.SitdBackSamples.{sitd, pages, met, memory, parts, fetched, heard, moved, into};

/// Its complete-split comes in microframe 2 and brings two bytes: they are in the buffer, just these are counted, and the siTD is done. Where none came in microframe 3, it was missed.
pub fn two_bytes()
    ensures works { sitd_turn 2 fetched.held.sitd ≡ SitdTurn.Work }
    ensures misses { sitd_turn 3 fetched.held.sitd ≡ SitdTurn.Miss }
    ensures before { IsSitdInHand met parts memory Reply.Silent fetched }
    ensures after { IsSitdInHand met parts memory heard moved }
    ensures settled { moved.held.settled ≡ Some (SplitOutcome.Moved 2) }
    ensures received { AreReceivedBy parts moved (SplitOutcome.Moved 2) heard into }
    ensures counted { IsCounted moved (SplitOutcome.Moved 2) heard }
    ensures bytes { parts_after parts moved (SplitOutcome.Moved 2) heard into 64 96 ≡ Some (Buffer pages 96 (5 ∷ 6 ∷ [])) }
    ensures done { parts_after parts moved (SplitOutcome.Moved 2) heard into 64 64 ≡ Some (SplitIsochronous (record sitd { total = 0; active = false; c_prog = 4; offset = 98 })) }
    ensures miss { IsSitdInHand met parts memory Reply.Silent (missed fetched) }
{}
