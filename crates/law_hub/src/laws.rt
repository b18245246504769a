//! What a request's row says is what the three stages of its transfer do.
ghost use Rattle.std.specs.Prelude.{◌≡◌, ◌≢◌, ℕ, List, [], length, true};
ghost use Rattle.usb_base.specs.declared.packets.Ask.{Ask as Asked};
ghost use Rattle.usb_base.specs.declared.packets.Pid.TheVariants as Pids;
ghost use Rattle.usb_base.specs.declared.packets.Reply.TheVariants.{Bytes as DataPacket, Hand as Handshake};
ghost use Rattle.script_types.specs.declared.devices.HubText.{HubText as HubLine};
ghost use Rattle.dev_control.specs.declared.rows.StageToken.TheVariants as Tokens;
ghost use Rattle.dev_control.specs.Stages.{token_of, wanted_of, begun_with};
ghost use Rattle.hub_ports.specs.declared.rows.HubReply.TheVariants as Answers;
ghost use Rattle.hub_class.specs.HubContent.{HubContent, opening};
ghost use Rattle.hub_class.specs.Requesting.{requested, request_answer};
ghost use Rattle.hub_class.specs.EndpointZero.{suits, hub_reply, hub_answered, hub_acked};
ghost use Rattle.hub_class.specs.Translating.{HubWorks, transacted};
ghost use Rattle.law_hub.specs.Stages.{Hears, IsReady, under, told, finished, read_of};

use usb_base::Wire;

/// A SETUP is acknowledged, and changes nothing but the request under way.
pub fn setup_is_heard()
    ensures reply { (a : Asked) (setup : List ℕ) (h : HubContent) → Hears Tokens.Setup a h → length setup ≡ 8
        → hub_reply a setup h ≡ Handshake Pids.Ack }
    ensures after { (a : Asked) (setup : List ℕ) (h : HubContent) → Hears Tokens.Setup a h → length setup ≡ 8
        → hub_answered a setup h ≡ told setup h }
{}

/// A request that changes something has no data. Its status stage is an IN, which is answered by an empty DATA1; then the hub is as
/// the request leaves it, and the request is done.
pub fn change_is_made()
    ensures no_data { (setup : List ℕ) (h : HubContent) → request_answer setup h ≡ Answers.Done → wanted_of setup ≡ 0 }
    ensures reply { (a : Asked) (b : Asked) (setup : List ℕ) (out : List ℕ) (h : HubContent) → IsReady h
        → Hears Tokens.Setup a h → length setup ≡ 8 → request_answer setup h ≡ Answers.Done → Hears Tokens.In b h
        → hub_reply b out (hub_answered a setup h) ≡ DataPacket Pids.Data1 [] }
    ensures after { (a : Asked) (b : Asked) (setup : List ℕ) (out : List ℕ) (h : HubContent) → IsReady h
        → Hears Tokens.Setup a h → length setup ≡ 8 → request_answer setup h ≡ Answers.Done → Hears Tokens.In b h
        → hub_answered b out (hub_answered a setup h) ≡ finished (begun_with setup) (requested setup h) }
{}

/// A read's data stage is an IN, which is answered by the bytes of its row in one DATA1. Once the host's ACK of it was heard, the
/// status stage, an empty DATA1 to the hub, is acknowledged; the request is then done, and nothing else has changed.
pub fn status_is_read()
    ensures four_bytes { (setup : List ℕ) (bytes : List ℕ) (h : HubContent) → request_answer setup h ≡ Answers.Bytes bytes → length bytes ≡ 4 }
    ensures packet { (a : Asked) (b : Asked) (setup : List ℕ) (bytes : List ℕ) (out : List ℕ) (h : HubContent) → IsReady h
        → Hears Tokens.Setup a h → length setup ≡ 8 → request_answer setup h ≡ Answers.Bytes bytes → Hears Tokens.In b h
        → hub_reply b out (hub_answered a setup h) ≡ DataPacket Pids.Data1 bytes }
    ensures sent { (a : Asked) (b : Asked) (setup : List ℕ) (bytes : List ℕ) (out : List ℕ) (h : HubContent) → IsReady h
        → Hears Tokens.Setup a h → length setup ≡ 8 → request_answer setup h ≡ Answers.Bytes bytes → Hears Tokens.In b h
        → hub_answered b out (hub_answered a setup h) ≡ told setup h }
    ensures received { (b : Asked) (setup : List ℕ) (bytes : List ℕ) (h : HubContent) → IsReady h
        → request_answer setup h ≡ Answers.Bytes bytes → Hears Tokens.In b h → hub_acked b (told setup h) ≡ under (read_of setup) h }
    ensures status { (c : Asked) (setup : List ℕ) (bytes : List ℕ) (h : HubContent) → IsReady h
        → request_answer setup h ≡ Answers.Bytes bytes → Hears Tokens.Out c h → c.toggle ≡ Pids.Data1
        → hub_reply c [] (under (read_of setup) h) ≡ Handshake Pids.Ack }
    ensures after { (c : Asked) (setup : List ℕ) (bytes : List ℕ) (h : HubContent) → IsReady h
        → request_answer setup h ≡ Answers.Bytes bytes → Hears Tokens.Out c h → c.toggle ≡ Pids.Data1
        → hub_answered c [] (under (read_of setup) h) ≡ finished (read_of setup) h }
{}

/// A request that the hub doesn't know is stalled at each later token, and changes nothing.
pub fn unknown_is_stalled()
    ensures reply { (a : Asked) (d : Asked) (setup : List ℕ) (out : List ℕ) (h : HubContent) → IsReady h
        → Hears Tokens.Setup a h → length setup ≡ 8 → request_answer setup h ≡ Answers.Stall
        → suits d h ≡ true → token_of d.pid ≢ Tokens.Setup
        → hub_reply d out (hub_answered a setup h) ≡ Handshake Pids.Stall }
    ensures after { (a : Asked) (d : Asked) (setup : List ℕ) (out : List ℕ) (h : HubContent) → IsReady h
        → Hears Tokens.Setup a h → length setup ≡ 8 → request_answer setup h ≡ Answers.Stall
        → suits d h ≡ true → token_of d.pid ≢ Tokens.Setup
        → hub_answered d out (hub_answered a setup h) ≡ told setup h }
{}

/// A hub is ready from its opening on, whatever it is asked and works on.
pub fn hubs_are_ready<W: Wire>()
    ensures opened { (text : HubLine) → IsReady (opening text) }
    ensures by_request { (setup : List ℕ) (h : HubContent) → IsReady h → IsReady (requested setup h) }
    ensures by_answer { (ask : Asked) (out : List ℕ) (h : HubContent) → IsReady h → IsReady (hub_answered ask out h) }
    ensures by_acknowledgement { (ask : Asked) (h : HubContent) → IsReady h → IsReady (hub_acked ask h) }
    ensures by_split { (ask : Asked) (out : List ℕ) (stuff : ℕ) (h : HubContent) → IsReady h → IsReady (transacted ask out stuff h) }
    ensures by_work { (frindex : ℕ) (old : HubContent) (before : W) (new : HubContent) (after : W)
        → HubWorks W.transacts frindex old before new after → IsReady old → IsReady new }
{}
