//! A worked row, which the check computes.
ghost use Rattle.std.specs.Prelude.{◌≡◌, true};
ghost use Rattle.drv_periodic_table.specs.Periodic.{queue_member};
ghost use Rattle.drv_periodic_table.specs.Linking.{may_link, new_link};
ghost use Rattle.law_frame_list.specs.list_opens.Worked.{with_room};

/// In a list with one queue head of every eighth frame, in block 130, one of each frame comes behind it and ends the list; one of every sixteenth frame
/// that has its frames leads to it: the link word of a queue head in block 130 is 4162.
pub fn a_new_queue_head_leads_on()
    ensures may { may_link with_room (queue_member 133 (record { period = 8; phase = 0; smask = 1; cmask = 0 })) ≡ true }
    ensures last { new_link with_room (queue_member 133 (record { period = 8; phase = 0; smask = 1; cmask = 0 })) ≡ 1 }
    ensures before { new_link with_room (queue_member 133 (record { period = 128; phase = 3; smask = 1; cmask = 0 })) ≡ 4162 }
{}
