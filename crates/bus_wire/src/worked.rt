//! Worked values of the definitions, which the check computes.
ghost use Rattle.std.specs.Prelude.{◌≡◌, ◌+◌, ◌*◌, true, false, [], ◌∷◌, map, Some, None};
ghost use Rattle.usb_base.specs.declared.packets.Way.TheVariants as Ways;
ghost use Rattle.bus_wire.specs.Fates.{bad_numbers, is_unheard};
ghost use Rattle.usb_base.specs.declared.packets.DataPart.TheVariants as Parts;
ghost use Rattle.usb_base.specs.declared.packets.Split.TheVariants as Splits;
ghost use Rattle.bus_wire.specs.declared.seats.Owner.TheVariants as Owners;
ghost use Rattle.bus_wire.specs.Seats.{place_for, place_at, seats_of};
ghost use Rattle.bus_wire.specs.Samples.{named, classic_name, seat, mixed, mixed_fates, script, lost_below, lost_above, asks, start, complete, hub_asked, disable, heard, left, left_wired, opened, Asks, Begins};
ghost use Rattle.bus_wire.specs.WhoHeard.{who_heard, packets_of, with_data, packets_sent, asker_hears, later};
ghost use Rattle.bus_wire.specs.Bus.{is_held, begins_anew};

use crate::seats::TokenKind;
use crate::who_heard::WhoHeard;
use usb_base::{Pid, Reply, Speed};

/// Who heard what, row by row, and how many packets were on the bus: of an IN, whose token alone comes before the answer, and of an OUT,
/// whose data come right behind it.
pub fn rows()
    ensures token_lost { who_heard true true false true false ≡ WhoHeard.SentUnheard }
    ensures nobody { who_heard false false true true true ≡ WhoHeard.NoAnswer }
    ensures answer_lost { who_heard false true true true false ≡ WhoHeard.AnswerUnheard }
    ensures handshake { who_heard false true false false true ≡ WhoHeard.AnswerHeard }
    ensures ack_lost { who_heard false true false true true ≡ WhoHeard.AckUnheard }
    ensures ack_heard { who_heard false true false true false ≡ WhoHeard.AckHeard }
{}

/// Packets of each row: a lost IN token is alone on the bus, a lost OUT token has its data behind it.
pub fn packets()
    ensures lost_in { packets_of WhoHeard.SentUnheard (with_data Pid.In) ≡ 1 }
    ensures lost_out { packets_of WhoHeard.SentUnheard (with_data Pid.Out) ≡ 2 }
    ensures silent_in { packets_of WhoHeard.NoAnswer (with_data Pid.In) ≡ 1 }
    ensures silent_out { packets_of WhoHeard.NoAnswer (with_data Pid.Setup) ≡ 2 }
    ensures lost_data { packets_of WhoHeard.AnswerUnheard (with_data Pid.In) ≡ 2 }
    ensures refused_in { packets_of WhoHeard.AnswerHeard (with_data Pid.In) ≡ 2 }
    ensures refused_out { packets_of WhoHeard.AnswerHeard (with_data Pid.Out) ≡ 3 }
    ensures pinged { packets_of WhoHeard.AnswerHeard (with_data Pid.Ping) ≡ 2 }
    ensures lost_ack { packets_of WhoHeard.AckUnheard (with_data Pid.In) ≡ 3 }
    ensures whole_in { packets_of WhoHeard.AckHeard (with_data Pid.In) ≡ 3 }
    ensures lost_start { packets_of WhoHeard.SentUnheard (packets_sent (Splits.Start 9 1 Parts.All) Pid.Out) ≡ 2 }
    ensures whole_complete { packets_of WhoHeard.AnswerHeard (packets_sent (Splits.Complete 9 1) Pid.Out) ≡ 2 }
    ensures last { later 18446744073709551614 3 ≡ 18446744073709551615 }
{}

/// What the asker hears of a NAK.
pub fn hearing()
    ensures token_lost { asker_hears WhoHeard.SentUnheard (Reply.Hand Pid.Nak) ≡ Reply.Silent }
    ensures answer_lost { asker_hears WhoHeard.AnswerUnheard (Reply.Hand Pid.Nak) ≡ Reply.Silent }
    ensures heard { asker_hears WhoHeard.AnswerHeard (Reply.Hand Pid.Nak) ≡ Reply.Hand Pid.Nak }
{}

/// Fates of an endpoint on its own bus alone; spans of microframes; when devices begin anew.
pub fn fates()
    ensures numbers { bad_numbers mixed_fates classic_name false ≡ 7 ∷ 0 ∷ [] }
    ensures held { is_held ((3, 5) ∷ (9, 9) ∷ []) 5 ≡ true }
    ensures free { is_held ((3, 5) ∷ (9, 9) ∷ []) 8 ≡ false }
    ensures high { begins_anew Speed.High 3 ≡ true }
    ensures full { begins_anew Speed.Full 3 ≡ false }
    ensures full_frame { begins_anew Speed.Full 16 ≡ true }
{}

/// Which endpoint an ask is for.
pub fn places()
    ensures in_endpoint { place_for (seat (named 3 1 Ways.Out) 0 ∷ seat (named 3 1 Ways.In) 0 ∷ []) 3 1 TokenKind.In ≡ Some 1 }
    ensures no_setup { place_for (seat (named 3 1 Ways.Out) 0 ∷ []) 3 1 TokenKind.Setup ≡ None }
    ensures control { place_for (seat (named 4 0 Ways.Ctl) 2 ∷ []) 4 0 TokenKind.Setup ≡ Some 0 }
    ensures numbered { place_at (seat (named 4 1 Ways.Out) 2 ∷ []) (4 * 64 + 1 * 4 + 1) ≡ Some 0 }
{}

/// The endpoints of two devices stand in the order of their lines, behind those of hubs.
pub fn order()
    ensures devices { map (λ s. s.owner) (seats_of mixed) ≡ Owners.High 1 ∷ Owners.High 0 ∷ Owners.High 1 ∷ [] }
    ensures hubs { map (λ s. s.owner) (seats_of (script [])) ≡ Owners.Hub 0 ∷ Owners.Below 0 9 1 0 ∷ [] }
{}

/// A bulk IN behind a hub: its packet is there once the microframe of its start has ended. Packets of both buses are counted apart.
pub fn split_in()
    ensures heard { heard (opened []) (start ∷ Begins 1 ∷ complete ∷ []) ≡ Reply.Hand Pid.Ack ∷ Reply.Bytes Pid.Data0 (1 ∷ 2 ∷ 3 ∷ []) ∷ [] }
    ensures above { (left (opened []) (start ∷ Begins 1 ∷ complete ∷ [])).high ≡ 0 ∷ 4 ∷ [] }
    ensures below { (left (opened []) (start ∷ Begins 1 ∷ complete ∷ [])).below ≡ 0 ∷ 3 ∷ [] }
    ensures too_early { heard (opened []) (start ∷ complete ∷ []) ≡ Reply.Hand Pid.Ack ∷ Reply.Hand Pid.Nyet ∷ [] }
{}

/// The acknowledgement of a start is lost: it is sent again, and the device is asked once. A token below is lost: it is sent again.
pub fn split_losses()
    ensures ack_lost { heard (opened (lost_above 1 ∷ [])) (start ∷ start ∷ Begins 1 ∷ complete ∷ [])
        ≡ Reply.Silent ∷ Reply.Hand Pid.Ack ∷ Reply.Bytes Pid.Data0 (1 ∷ 2 ∷ 3 ∷ []) ∷ [] }
    ensures asked_once { (left (opened (lost_above 1 ∷ [])) (start ∷ start ∷ Begins 1 ∷ complete ∷ [])).below ≡ 0 ∷ 3 ∷ [] }
    ensures token_lost { heard (opened (lost_below 0 ∷ [])) (start ∷ Begins 1 ∷ complete ∷ Begins 2 ∷ complete ∷ [])
        ≡ Reply.Hand Pid.Ack ∷ Reply.Hand Pid.Nyet ∷ Reply.Bytes Pid.Data0 (1 ∷ 2 ∷ 3 ∷ []) ∷ [] }
    ensures asked_twice { (left (opened (lost_below 0 ∷ [])) (start ∷ Begins 1 ∷ complete ∷ Begins 2 ∷ complete ∷ [])).below ≡ 0 ∷ 4 ∷ [] }
{}

/// A device behind a port that isn't enabled hears nothing: each token is sent, and the third silence is a STALL.
pub fn disabled_port()
    ensures acted { heard (opened []) disable ≡ Reply.Hand Pid.Ack ∷ Reply.Bytes Pid.Data1 [] ∷ [] }
    ensures stalled { heard (left_wired (opened []) disable) (start ∷ Begins 1 ∷ Begins 2 ∷ Begins 3 ∷ complete ∷ []) ≡ Reply.Hand Pid.Ack ∷ Reply.Hand Pid.Stall ∷ [] }
    ensures tokens { (left (left_wired (opened []) disable) (start ∷ Begins 1 ∷ Begins 2 ∷ Begins 3 ∷ [])).below ≡ 0 ∷ 3 ∷ [] }
{}

/// Nobody hears a plain ask for a device below a hub, nor a split ask for a hub that isn't there; the token is sent.
pub fn nobody_hears()
    ensures plain { heard (opened []) (Asks (asks Splits.Plain) [] ∷ []) ≡ Reply.Silent ∷ [] }
    ensures no_hub { heard (opened []) (Asks (asks (Splits.Start 10 1 Parts.All)) [] ∷ []) ≡ Reply.Silent ∷ [] }
    ensures sent { (left (opened []) (Asks (asks Splits.Plain) [] ∷ [])).high ≡ 0 ∷ 1 ∷ [] }
    ensures no_data { heard (opened []) (hub_asked Pid.In Pid.Data1 [] ∷ []) ≡ Reply.Hand Pid.Stall ∷ [] }
{}
