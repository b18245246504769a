//! Worked rows of the definitions, which the check computes, of the driver that `run_owners` has for them.
ghost use Rattle.std.specs.Prelude.{◌≡◌, true, false};
ghost use Rattle.law_driver.specs.run_owners.Worked.{busy_schedule};
ghost use Rattle.law_driver.specs.listed_queues.Queues.{queue_of, is_in_queues};
ghost use Rattle.law_driver.specs.listed_queues.Worked.{each_frame, each_other_frame, polled_from};

/// The queue head of an interrupt endpoint in block 136 has the name 4,354; one in block 142 isn't linked, nor is one in each other frame.
pub fn queue_rows()
    ensures head { queue_of (polled_from 136) each_frame ≡ record { id = 4354; period = 8; phase = 0 } }
    ensures linked { is_in_queues busy_schedule (polled_from 136) each_frame ≡ true }
    ensures other { is_in_queues busy_schedule (polled_from 142) each_frame ≡ false }
    ensures later { is_in_queues busy_schedule (polled_from 136) each_other_frame ≡ false }
{}
