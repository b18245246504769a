//! What follows of a hub's rows.
ghost use Rattle.std.specs.Prelude.{◌≡◌, ℕ, List, None, Some, true};
ghost use Rattle.usb_base.specs.declared.packets.Ask.{Ask as Asked};
ghost use Rattle.usb_base.specs.declared.packets.Reply.{Reply as Heard};
ghost use Rattle.hub_class.specs.HubContent.{HubContent};
ghost use Rattle.hub_class.specs.Requesting.{requested, request_at};
ghost use Rattle.hub_class.specs.EndpointZero.{acts_on, row_at, suits, hub_acked, hub_answered};
ghost use Rattle.hub_class.specs.Translating.{HubWorks, transacted};
ghost use Rattle.hub_class.specs.Microframe.{hub_worked, wire_left};

use usb_base::Wire;

/// Split asks change no port, and nothing of endpoint 0.
pub fn splits_leave_the_ports()
    ensures ports { (ask : Asked) → (out : List ℕ) → (stuff : ℕ) → (h : HubContent) → (transacted ask out stuff h).ports ≡ h.ports }
    ensures control { (ask : Asked) → (out : List ℕ) → (stuff : ℕ) → (h : HubContent) → (transacted ask out stuff h).control ≡ h.control }
{}

/// The host's ACK and the work of a microframe change no port.
pub fn acks_and_work_leave_the_ports<W: Wire>()
    ensures acks { (ask : Asked) → (h : HubContent) → (hub_acked ask h).ports ≡ h.ports }
    ensures work { (frindex : ℕ) → (old : HubContent) → (before : W) → (new : HubContent) → (after : W) → HubWorks W.transacts frindex old before new after → new.ports ≡ old.ports }
{}

/// An answer of endpoint 0 changes the ports only where it acts on a request, and then as that request does.
pub fn ports_change_by_requests()
    ensures still { (ask : Asked) → (out : List ℕ) → (h : HubContent) → acts_on (row_at ask out h) h.control.request ≡ None → (hub_answered ask out h).ports ≡ h.ports }
    ensures acts { (ask : Asked) → (out : List ℕ) → (setup : List ℕ) → (h : HubContent) → suits ask h ≡ true →
        acts_on (row_at ask out h) h.control.request ≡ Some setup → (hub_answered ask out h).ports ≡ (requested setup h).ports }
{}

/// A request that the hub doesn't know changes nothing.
pub fn unknown_requests_change_nothing()
    ensures { (setup : List ℕ) → (h : HubContent) → request_at setup h ≡ None → requested setup h ≡ h }
{}

/// Over a bus below that answers and changes by functions of its content, the work of a microframe is a function.
pub fn the_work_is_a_function<W: Wire>()
    ensures { (reply_of : W → Asked → List ℕ → Heard) → (wire_after : W → Asked → List ℕ → W) →
        ((w : W) → (ask : Asked) → (out : List ℕ) → (reply : Heard) → (v : W) → W.transacts w ask out reply v → (reply ≡ reply_of w ask out) × (v ≡ wire_after w ask out)) →
        (frindex : ℕ) → (old : HubContent) → (before : W) → (new : HubContent) → (after : W) → HubWorks W.transacts frindex old before new after →
        (new ≡ hub_worked reply_of wire_after frindex old before) × (after ≡ wire_left reply_of wire_after old before) }
{}
