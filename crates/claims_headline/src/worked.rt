//! Worked rows of the headline and of pipes, which the check computes.
ghost use Rattle.std.specs.Prelude.{◌≡◌, ℕ, ◌+◌, true, false, List, [], ◌∷◌, Some, None};
ghost use Rattle.script_types.specs.declared.devices.Item.{Item};
ghost use Rattle.script_types.specs.declared.devices.Item.TheVariants.{Bytes, Nak};
ghost use Rattle.script_types.specs.declared.scripts.Script.{Script};
ghost use Rattle.usb_base.specs.declared.packets.EpKind.TheVariants.{Interrupt};
ghost use Rattle.usb_base.specs.declared.packets.Speed.TheVariants.{Low};
ghost use Rattle.endpoint_script.specs.Taking.{Taking};
ghost use Rattle.word_mem.specs.Memory.{Mem};
ghost use Rattle.toggle_error.specs.declared.host.Outcome.TheVariants.{Moved};
ghost use Rattle.qh_qtd.specs.declared.queue_head.Qh.{Qh};
ghost use Rattle.bus_world.specs.World.{World};
ghost use Rattle.claims_report.specs.Samples.{script_of, line_of, report_of, sender, bulk};
ghost use Rattle.claims_headline.specs.Due.{HasPacket};
ghost use Rattle.claims_headline.specs.Headline.{IsOfStreams, TellsStreams};
ghost use Rattle.claims_headline.specs.Pipes.{toggle_of_copy, next_packet, AreNear};

use usb_base::What;

/// The first of two packets is told: its bytes begin the stream. Bytes told twice don't, nor does a packet that was passed over.
pub fn what_is_told_begins_the_stream()
    ensures begun { TellsStreams (script_of (bulk sender) (Bytes (1 ∷ 2 ∷ []) ∷ Bytes (3 ∷ []) ∷ []) [])
        (report_of (line_of sender What.Done 0 2 ∷ []) (1 ∷ 2 ∷ []) []) }
    ensures not_twice { TellsStreams (script_of (bulk sender) (Bytes (1 ∷ 2 ∷ []) ∷ Bytes (3 ∷ []) ∷ []) [])
        (report_of (line_of sender What.Done 0 4 ∷ []) (1 ∷ 2 ∷ 2 ∷ 3 ∷ []) []) → ⊥ }
    ensures not_passed { TellsStreams (script_of (bulk sender) (Bytes (1 ∷ 2 ∷ []) ∷ Bytes (3 ∷ []) ∷ []) [])
        (report_of (line_of sender What.Done 0 1 ∷ []) (3 ∷ []) []) → ⊥ }
{}

/// Of a keyboard at low speed behind a hub nothing is said.
pub fn a_keyboard_behind_a_hub_is_none()
    ensures { IsOfStreams (script_of (bulk sender) [] [])
        (record (bulk sender) { kind = Interrupt; speed = Low; hub = Some 9; port = 1 }) → ⊥ }
{}

/// A copy in hand tells the toggle of its queue head once its transaction was made; before that, and of any other queue head, words do.
pub fn a_copy_tells_the_toggle_after_its_transaction()
    ensures made { (q : Qh)
        → toggle_of_copy 4160 (Some (record { at = 4160; queue_head = q; settled = Some (Moved 2) })) true ≡ q.token.toggle }
    ensures before { (q : Qh) → toggle_of_copy 4160 (Some (record { at = 4160; queue_head = q; settled = None })) true ≡ true }
    ensures other { (q : Qh) → toggle_of_copy 4352 (Some (record { at = 4160; queue_head = q; settled = Some (Moved 2) })) true ≡ true }
{}

/// A device that took what was moved has the host's toggle; one that took the next packet, too, has the other. None took a packet twice,
/// and none has the other toggle without that packet.
pub fn a_device_is_level_or_one_packet_ahead()
    ensures level { (m : Mem) (q : Qh)
        → AreNear m q true (1 ∷ 2 ∷ []) (record { items = []; toggle = true; taken = 1 ∷ 2 ∷ []; room = 9 }) }
    ensures ahead { (m : Mem) (q : Qh) → q.token.active ≡ true → next_packet m q ≡ 3 ∷ []
        → AreNear m q true (1 ∷ 2 ∷ []) (record { items = []; toggle = false; taken = 1 ∷ 2 ∷ 3 ∷ []; room = 9 }) }
    ensures not_twice { (m : Mem) (q : Qh)
        → AreNear m q true (1 ∷ 2 ∷ []) (record { items = []; toggle = true; taken = 1 ∷ 2 ∷ 1 ∷ 2 ∷ []; room = 9 }) → ⊥ }
    ensures not_turned { (m : Mem) (q : Qh) → q.token.active ≡ true → next_packet m q ≡ 3 ∷ []
        → AreNear m q true (1 ∷ 2 ∷ []) (record { items = []; toggle = false; taken = 1 ∷ 2 ∷ []; room = 9 }) → ⊥ }
{}

/// A packet that the host has already, since the device didn't hear it accepted, is none for its transfer; nor is a NAK.
pub fn a_packet_that_comes_again_is_none()
    ensures again { (s : Script) (b : World) (e q : ℕ) (h : HasPacket s b e q) → h.pipe.accepted ≡ h.pipe.known + 1 → ⊥ }
    ensures nak { (s : Script) (b : World) (e q : ℕ) (h : HasPacket s b e q) (n : ℕ) (rest : List Item)
        → h.sending.items ≡ Nak n ∷ rest → ⊥ }
{}
