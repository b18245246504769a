//! Worked rows.
ghost use Rattle.std.specs.Prelude.{Some, None};
ghost use Rattle.usb_base.specs.declared.endpoints.EndCause.TheVariants as causes;
ghost use Rattle.usb_base.specs.declared.packets.Way.TheVariants as ways;
ghost use Rattle.usb_base.specs.declared.reports.What.TheVariants as lines;
ghost use Rattle.drv_table.specs.declared.content.Command.TheVariants as unfinished;
ghost use Rattle.drv_table.specs.declared.rows.Found.TheVariants as founds;
ghost use Rattle.law_queues.specs.whole_sends.Samples.{working, parts, parts_halted, queue_of, owned, written};
ghost use Rattle.law_world.specs.streams.put_laws.SentRead.{MovesAll};
ghost use Rattle.law_world.specs.streams.put_laws.SentSamples.{one_endpoint, left_second, Sends};

/// An OUT queue at work, once its second qTD is done, and one that the device stalled.
pub fn an_out_queue()
    ensures work { Sends (one_endpoint ways.Out None) parts }
    ensures done { Sends (one_endpoint ways.Out None) written }
    ensures halted { Sends (one_endpoint ways.Out None) parts_halted }
{}

/// A qTD that is done with a byte left was not sent whole. Nothing is said of an IN queue, nor of one whose queue head isn't linked yet.
pub fn a_byte_left()
    ensures out { Sends (one_endpoint ways.Out None) (owned (queue_of working left_second)) → ⊥ }
    ensures into { Sends (one_endpoint ways.In None) (owned (queue_of working left_second)) }
    ensures unmet { Sends (one_endpoint ways.Out (Some (unfinished.Open 2))) (owned (queue_of working left_second)) }
{}

/// Of three bytes all are moved where the qTD is done, and at a halt maybe none.
pub fn what_is_found()
    ensures moved { MovesAll (founds.Moved 3) 3 }
    ensures ended { MovesAll (founds.Ended 3 lines.Done) 3 }
    ensures short { MovesAll (founds.Ended 2 lines.Done) 3 → ⊥ }
    ensures stalled { MovesAll (founds.Ended 2 (lines.Halt causes.Stall)) 3 }
    ensures active { MovesAll founds.Active 3 }
{}
