//! A worked row, which the check computes.
ghost use Rattle.std.specs.Prelude.{◌≡◌, ◌∷◌, [], Some, true};
ghost use Rattle.drv_chains.specs.declared.members.Member.TheVariants.{Each};
ghost use Rattle.usb_base.specs.Rules.{first_rules};
ghost use Rattle.drv_periodic_table.specs.Periodic.{new_periodic};
ghost use Rattle.drv_periodic_table.specs.Linking.{begun_next};
ghost use Rattle.law_frame_words.specs.list_words.Worked.{queue, one_queue};

/// A cancel queues the one queue head of a list, and its unlinking begins at once: nothing is queued behind it.
pub fn a_cancel_begins_to_unlink()
    ensures begun { (begun_next true (record (new_periodic 0 0 0 first_rules) { list = one_queue; queued = Each queue ∷ [] })).list.work ≡ Some (record { member = Each queue; removes = true; made = 0 }) }
    ensures queued { (begun_next true (record (new_periodic 0 0 0 first_rules) { list = one_queue; queued = Each queue ∷ [] })).queued ≡ [] }
{}
