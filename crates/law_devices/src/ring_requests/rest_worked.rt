//! Worked queues at rest, which the check computes.
ghost use Rattle.dev_control.specs.Stages.{opened};
ghost use Rattle.law_request.specs.Samples.{described};
ghost use Rattle.law_ring.specs.Hand.{Empty};
ghost use Rattle.law_devices.specs.ring_requests.Resting.{IsAtRest, IsStopped};
ghost use Rattle.law_devices.specs.ring_requests.RestSamples.{rest_parts as RestParts, stalled_parts as StalledParts, left_device as LeftDevice};

/// A queue head whose overlay isn't active leads to the inactive qTD at the end of its queue.
pub fn a_queue_waits_at_its_end()
    ensures { IsAtRest described (opened 64 0) 64 Empty RestParts 32 LeftDevice }
{}

/// One that halted at a SETUP is at rest too, wherever it leads.
pub fn a_halted_queue_is_at_rest()
    ensures rest { IsAtRest described (opened 64 0) 160 Empty StalledParts 32 LeftDevice }
    ensures halted { IsStopped StalledParts 32 }
{}
