//! Worked rows of the definitions, which the check computes.
ghost use Rattle.std.specs.Prelude.{◌≡◌, ◌+◌, [], ◌∷◌, true, false, None, Some, is_some};
ghost use Rattle.word_mem.specs.Memory.{fresh};
ghost use Rattle.itd_sitd.specs.Itd.{slot_of};
ghost use Rattle.hc_iso.specs.WriteBack.{slot_place};
ghost use Rattle.drv_periodic_table.specs.Periodic.{note_at};
ghost use Rattle.drv_periodic_table.specs.Descriptors.{new_itd};
ghost use Rattle.law_descriptors.specs.Written.{bytes_in, runs_of};
ghost use Rattle.law_descriptors.specs.Lent.{descriptor_with, pages_in, start_in, lent_descs};
ghost use Rattle.law_descriptors.specs.LendWorked.{desc, notes, transfers};

/// What is lent of two descriptors: the runs of each and of its buffer; how many bytes the buffer has, where it begins, and in which page. The second slot of
/// the iTD, that of microframe 2, is behind the first. The owner of what is lent is the descriptor's address, and beside it there is the buffer alone.
#[tactic(auto, unfolding(drv_periodic_table::specs::Descriptors::slots_before))]
pub fn two_descriptors()
    ensures runs { runs_of notes transfers ≡ 2 ∷ 9 ∷ 4 ∷ 10 ∷ [] }
    ensures bytes { bytes_in (note_at notes 2) ≡ 32 }
    ensures split { bytes_in (note_at notes 4) ≡ 40 }
    ensures start { start_in (note_at notes 4) ≡ 320 }
    ensures pages { pages_in (note_at notes 4) ≡ 0 ∷ 0 ∷ [] }
    ensures place { slot_place (slot_of 2 (new_itd desc 5 16 (note_at notes 2).buffer)) ≡ 288 + 16 }
    ensures other { (slot_of 1 (new_itd desc 5 16 (note_at notes 2).buffer)).active ≡ false }
    ensures itd { lent_descs (fresh 1024) desc notes (λ b. 1) transfers (λ n a. None) 64 64 ≡ Some (descriptor_with desc (note_at notes 2) 1) }
    ensures buffer { is_some (lent_descs (fresh 1024) desc notes (λ b. 1) transfers (λ n a. None) 64 288) ≡ true }
    ensures none { lent_descs (fresh 1024) desc notes (λ b. 1) transfers (λ n a. None) 64 320 ≡ None }
{}
