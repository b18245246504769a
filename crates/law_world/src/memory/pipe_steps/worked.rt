//! Worked rows, which the check computes.
ghost use Rattle.law_controller.specs.controlled_streams.Opened.{with_stream};
ghost use Rattle.law_driver.specs.queued_drivers.Queued.{queued};
ghost use Rattle.law_world.specs.memory.StepSamples.{key_driver};
ghost use Rattle.law_world.specs.memory.pipe_steps.Laws.{IsBegun};
ghost use Rattle.law_world.specs.memory.pipe_steps.Pipes.{AreByWay};
ghost use Rattle.law_world.specs.memory.pipe_steps.Samples.{both_ins, one_in, no_outs, named, unnamed, ends, key_end, packets, waits, takes_none};

/// Both endpoints with a queue ask the way of their streams; so they do where none has one. The isochronous one is beside them.
pub fn endpoints_ask_their_way()
    ensures streams { AreByWay (queued key_driver) named unnamed both_ins no_outs ends }
    ensures none { AreByWay (queued key_driver) unnamed unnamed no_outs no_outs ends }
{}

/// Where the stream of the interrupt endpoint is left out though its device's endpoint has one, or where it is told as an OUT endpoint,
/// its qTDs ask another way.
pub fn a_stream_left_out_is_asked()
    ensures left { AreByWay (queued key_driver) named unnamed one_in no_outs ends → ⊥ }
    ensures turned { AreByWay (queued key_driver) unnamed named no_outs both_ins ends → ⊥ }
{}

/// The stream of the interrupt endpoint begins beside that of the bulk one.
pub fn a_stream_begins()
    ensures { IsBegun named unnamed packets waits takes_none one_in no_outs ends 0 4352 key_end (with_stream one_in 4352) no_outs }
{}
