//! Laws of scripted endpoints: a bulk or interrupt endpoint is its device's half of a pipe (USB 2.0, 8.6), and a control endpoint
//! acts at most once between two SETUPs (USB 2.0, 8.5.3).
//!
//! The crate has no code of its own: each function is a law over the definitions of `endpoint_script`, `dev_control` and
//! `law_pipe`, and its body is empty. A bus that makes one transaction of an endpoint takes one step of its pipe by `in_sends`
//! and `in_moves`, or by `out_takes` and `out_refuses`.
#![tactic(auto)]

ghost use Rattle.std.specs.Prelude.{◌≡◌, ℕ, Bool, true, false, List, [], ◌∷◌, ◌++◌, take, slice_get, Option, Some, None, if◌then◌else◌};
ghost use Rattle.usb_base.specs.declared.packets.Ask.{Ask as Asked};
ghost use Rattle.usb_base.specs.declared.packets.Pid.{Pid as PacketId};
ghost use Rattle.usb_base.specs.declared.packets.Reply.TheVariants.{Bytes as DataPacket};
ghost use Rattle.usb_base.specs.declared.packets.Speed.{Speed as DeviceSpeed};
ghost use Rattle.script_types.specs.declared.devices.Item.{Item as Said};
ghost use Rattle.std.specs.List.{concat};
ghost use Rattle.claims_base.specs.Prefix.{IsPrefix};
ghost use Rattle.law_pipe.specs.Pipe.{Pipe, PipeAgrees, opening, after, Unheard, Heard};
ghost use Rattle.dev_control.specs.Stages.{Stages, data_pid, setup_of};
ghost use Rattle.endpoint_script.specs.Items.{packets_of};
ghost use Rattle.endpoint_script.specs.Sending.{Sending, sending_at, sending_reply, sending_answered, sending_acked};
ghost use Rattle.endpoint_script.specs.Taking.{Taking, taking_at, taking_reply, taking_answered, is_ping};
ghost use Rattle.law_device.specs.Halves.{SendsFor, TakesFor, is_acknowledged};
ghost use Rattle.usb_base.specs.declared.packets.Pid.TheVariants as Pids;
ghost use Rattle.dev_control.specs.Worked.{ask_of, small, known, unknown, read_of, write_of};
ghost use Rattle.law_device.specs.Acts.{Event, Asks, Acks, said, status, acts_along, acts_at, is_within, counted, after as after_event};
ghost use Rattle.claims_report.specs.Acts.{IsOnce};

// ---- an IN endpoint is the sender of its pipe

/// Before the first IN it stands as the sender of a new pipe, whose packets are those of its script.
pub fn in_opens()
    ensures { (items : List Said) → SendsFor (packets_of items) opening (sending_at items) }
{}

/// What it sends is the packet after those that it knows to be taken, with the sender's toggle.
pub fn in_sends()
    ensures packet { (packets : List (List ℕ)) (w : Pipe (List ℕ)) (s : Sending) (pid : PacketId) (bytes : List ℕ) → SendsFor packets w s
        → sending_reply s ≡ DataPacket pid bytes → slice_get packets w.known ≡ Some bytes }
    ensures toggle { (packets : List (List ℕ)) (w : Pipe (List ℕ)) (s : Sending) (pid : PacketId) (bytes : List ℕ) → SendsFor packets w s
        → sending_reply s ≡ DataPacket pid bytes → pid ≡ data_pid w.sends }
{}

/// An IN whose data the host took moves the pipe by one step, whether the host's acknowledgement was heard or not; every other
/// answer leaves it where it was.
pub fn in_moves()
    ensures taken { (packets : List (List ℕ)) (w : Pipe (List ℕ)) (s : Sending) (pid : PacketId) (bytes : List ℕ) (heard : Bool) → SendsFor packets w s
        → sending_reply s ≡ DataPacket pid bytes
        → SendsFor packets (after packets w (Heard heard)) (if heard then sending_acked (sending_answered s) else sending_answered s) }
    ensures other { (packets : List (List ℕ)) (w : Pipe (List ℕ)) (s : Sending) → SendsFor packets w s
        → SendsFor packets (after packets w Unheard) (sending_answered s) }
{}

/// The packets that it knows to be taken are the first ones of its stream, each once: with those that are left they make it up.
pub fn known_packets_begin_the_stream()
    ensures { (packets : List (List ℕ)) (w : Pipe (List ℕ)) (s : Sending) → SendsFor packets w s → take w.known packets ++ packets_of s.items ≡ packets }
{}

// ---- an OUT endpoint is the receiver of its pipe

/// Before the first OUT it stands as the receiver of a new pipe.
pub fn out_opens()
    ensures { (items : List Said) (room : ℕ) → TakesFor opening (taking_at items room) }
{}

/// Data that it acknowledges move the pipe by one step, whether that was heard or not: it takes the packet that it expects, and
/// drops one that it took before.
pub fn out_takes()
    ensures { (packets : List (List ℕ)) (w : Pipe (List ℕ)) (t : Taking) (speed : DeviceSpeed) (ask : Asked) (out : List ℕ) (heard : Bool) → TakesFor w t
        → slice_get packets w.known ≡ Some out → ask.toggle ≡ data_pid w.sends → is_ping ask.pid ≡ false
        → is_acknowledged (taking_reply speed t ask out) ≡ true
        → TakesFor (after packets w (Heard heard)) (taking_answered t ask out) }
{}

/// Data that it refuses, and a PING, leave the pipe where it was.
pub fn out_refuses()
    ensures data { (packets : List (List ℕ)) (w : Pipe (List ℕ)) (t : Taking) (speed : DeviceSpeed) (ask : Asked) (out : List ℕ) → TakesFor w t
        → is_acknowledged (taking_reply speed t ask out) ≡ false
        → TakesFor (after packets w Unheard) (taking_answered t ask out) }
    ensures ping { (packets : List (List ℕ)) (w : Pipe (List ℕ)) (t : Taking) (ask : Asked) (out : List ℕ) → TakesFor w t
        → is_ping ask.pid ≡ true → TakesFor (after packets w Unheard) (taking_answered t ask out) }
{}

/// Where the two sides of the pipe agree, the bytes that it took begin the stream: each once and in order.
pub fn taken_bytes_begin_the_stream()
    ensures { (packets : List (List ℕ)) (w : Pipe (List ℕ)) (t : Taking) → TakesFor w t → PipeAgrees packets w → IsPrefix t.taken (concat packets) }
{}

// ---- a control endpoint acts at most once

/// Between two SETUPs a control endpoint acts at most once, and only on the setup bytes of the first, whatever it is asked and
/// whatever its device replies.
pub fn acts_once()
    ensures { (c : Stages) (setup : List ℕ) (events : List Event) → setup_of c.request ≡ Some setup → is_within events ≡ true
        → IsOnce setup (acts_along c events) }
{}

/// Before the first SETUP it never acts.
pub fn acts_on_nothing()
    ensures { (c : Stages) (events : List Event) → c.request ≡ None → is_within events ≡ true → acts_along c events ≡ [] }
{}

/// Requests at work: one acted on at its first answered status, one whose status is never answered, and one that stalls.
pub fn worked()
    ensures once { acts_along (small 0) (said (write_of 0) ∷ status ∷ Acks (known []) ∷ status ∷ []) ≡ write_of 0 ∷ [] }
    ensures twice { acts_along (small 1) (said (write_of 0) ∷ status ∷ status ∷ said (read_of 0) ∷ status ∷ []) ≡ write_of 0 ∷ read_of 0 ∷ [] }
    ensures never { acts_along (small 1) (said (write_of 0) ∷ status ∷ []) ≡ [] }
    ensures stalled { acts_along (small 0) (said (write_of 0) ∷ Asks unknown (ask_of Pids.In Pids.Data1) [] ∷ []) ≡ [] }
{}

/// Its count is the number of its acts, up to the last value of 32 bits.
pub fn acts_are_counted()
    ensures { (c : Stages) (event : Event) → (after_event c event).acted ≡ counted (acts_at c event) c.acted }
{}
