//! Worked rows of prices and calls, which the check computes.
ghost use Rattle.std.specs.Prelude.{◌≡◌, true, false, [], ◌∷◌};
ghost use Rattle.transactions.specs.Asks.{start_split, complete_split, iso_ask};
ghost use Rattle.transactions.specs.Calls.{high_call, start_call, complete_call, got_of};
ghost use Rattle.transactions.specs.Prices.{price_of};
ghost use Rattle.transactions.specs.Worked.{host_of, high, full, eight, asked};

use toggle_error::Outcome;
use usb_base::{DataPart, EpKind, Pid, Reply, Speed, Split};

/// Prices of plain transactions in picoseconds.
pub fn plain_prices()
    ensures in_512 { price_of Split.Plain (high Pid.In EpKind.Bulk) (host_of 512) [] ≡ 10880343 }
    ensures in_64 { price_of Split.Plain (high Pid.In EpKind.Interrupt) (host_of 64) [] ≡ 2171320 }
    ensures in_1024 { price_of Split.Plain (high Pid.In EpKind.Interrupt) (host_of 1024) [] ≡ 20835000 }
    ensures iso_in_1024 { price_of Split.Plain (high Pid.In EpKind.Iso) (host_of 1024) [] ≡ 20551712 }
    ensures out_none { price_of Split.Plain (high Pid.Out EpKind.Bulk) (host_of 512) [] ≡ 927769 }
    ensures out_8 { price_of Split.Plain (high Pid.Out EpKind.Bulk) (host_of 512) eight ≡ 1081911 }
    ensures ping { price_of Split.Plain (high Pid.Out EpKind.Bulk) (record (host_of 512) { ping = true }) eight ≡ 927769 }
    ensures setup { price_of Split.Plain (high Pid.Setup EpKind.Control) (host_of 64) eight ≡ 1081911 }
{}

/// Prices of the halves of split transactions in picoseconds.
pub fn split_prices()
    ensures start_in { price_of (start_split (full Pid.In EpKind.Bulk)) (full Pid.In EpKind.Bulk) (host_of 64) [] ≡ 927769 }
    ensures start_out { price_of (start_split (full Pid.Out EpKind.Bulk)) (full Pid.Out EpKind.Bulk) (host_of 64) eight ≡ 1081911 }
    ensures complete_in { price_of (complete_split (full Pid.In EpKind.Interrupt)) (full Pid.In EpKind.Interrupt) (host_of 64) [] ≡ 2171320 }
    ensures complete_iso_in { price_of (complete_split (full Pid.In EpKind.Iso)) (full Pid.In EpKind.Iso) (host_of 1023) [] ≡ 4298063 }
    ensures complete_out { price_of (complete_split (full Pid.Out EpKind.Bulk)) (full Pid.Out EpKind.Bulk) (host_of 64) [] ≡ 927769 }
{}

/// What goes onto the wire.
pub fn calls()
    ensures in_call { high_call (high Pid.In EpKind.Bulk) (host_of 512) []
        ≡ record {
          ask = asked Split.Plain Pid.In Pid.Data0 Speed.High EpKind.Bulk 512;
          out = [];
          sent = 0;
          last = false;
        } }
    ensures out_call { high_call (high Pid.Out EpKind.Bulk) (record (host_of 512) { toggle = true }) eight
        ≡ record {
          ask = asked Split.Plain Pid.Out Pid.Data1 Speed.High EpKind.Bulk 512;
          out = eight;
          sent = 8;
          last = false;
        } }
    ensures ping_call { high_call (high Pid.Out EpKind.Bulk) (record (host_of 512) { ping = true }) eight
        ≡ record {
          ask = asked Split.Plain Pid.Ping Pid.Data0 Speed.High EpKind.Bulk 512;
          out = [];
          sent = 8;
          last = false;
        } }
    ensures start_out { start_call (full Pid.Out EpKind.Bulk) (record (host_of 64) { ping = true }) eight
        ≡ record {
          ask = asked (Split.Start 9 2 DataPart.All) Pid.Out Pid.Data0 Speed.Full EpKind.Bulk 64;
          out = eight;
          sent = 8;
          last = false;
        } }
    ensures complete_out { complete_call (full Pid.Out EpKind.Bulk) (record (host_of 64) { left = 8 }) true
        ≡ record {
          ask = asked (Split.Complete 9 2) Pid.Out Pid.Data0 Speed.Full EpKind.Bulk 8;
          out = [];
          sent = 8;
          last = true;
        } }
    ensures complete_in { (complete_call (full Pid.In EpKind.Interrupt) (host_of 64) true).sent ≡ 0 }
    ensures iso_out { iso_ask Split.Plain (high Pid.Out EpKind.Iso) (record (host_of 1024) { ping = true }) Pid.Mdata
        ≡ asked Split.Plain Pid.Out Pid.Mdata Speed.High EpKind.Iso 1000 }
{}

/// What is handed on of a reply.
pub fn bytes_received()
    ensures moved { got_of Pid.In (Outcome.Moved 8) (Reply.Bytes Pid.Data0 eight) ≡ eight }
    ensures repeated { got_of Pid.In Outcome.Discarded (Reply.Bytes Pid.Data1 eight) ≡ [] }
    ensures sent { got_of Pid.Out (Outcome.Moved 8) (Reply.Hand Pid.Ack) ≡ [] }
{}
