//! What a translator has of each key: each call is a step of the slot of its own key, and leaves that of any other one, or it was told
//! and is gone (USB 2.0, 11.14 to 11.21).
ghost use Rattle.law_translated.specs.KeyLaws.{AskedByKey, StartByKey, CompleteByKey, ClearByKey, ResetByKey, WorkByKey};
ghost use Rattle.law_translated.specs.KeyHubs.{HubStartByKey, HubCompleteByKey, HubClearByKey, HubWorkByKey};
ghost use Rattle.law_translated.specs.KeyEvents.{EventsOf};
ghost use Rattle.law_translated.specs.InPipes as inward;
ghost use Rattle.law_translated.specs.OutPipes as outward;
ghost use Rattle.law_translated.specs.Windows.{window_halves};
ghost use Rattle.usb_base.specs.declared.packets.Reply.{Reply as Answer};
ghost use Rattle.tt_bulk.specs.Contents.{Taken};
ghost use Rattle.transactions.specs.Calls.{Call};
ghost use Rattle.claims_report.specs.Requests.{Request};
ghost use Rattle.law_request.specs.Host.{Endpoint};

use usb_base::Wire;

/// A start is `repeats`, `starts` or is refused for the slot of its key, and the slot of another key stays, or was told and is empty.
pub fn start_by_key()
    ensures { StartByKey }
{}

/// A complete-split is answered with what its key has, which is told then, and leaves any other key's.
pub fn complete_by_key()
    ensures { CompleteByKey }
{}

/// A clear empties the buffer of its key, of a control endpoint those of both directions; a translator that begins anew has nothing of
/// any key.
pub fn clear_by_key()
    ensures clears { ClearByKey }
    ensures resets { ResetByKey }
{}

/// What is asked for a key is asked with it.
pub fn asked_by_key()
    ensures { AskedByKey }
{}

/// In the work of a microframe at most one transaction is the key's; what it hears is shown once all its byte-times are worked, and goes
/// where a frame begins.
pub fn work_by_key<W: Wire>()
    ensures { WorkByKey W.transacts }
{}

/// Of a hub with one translator, or one for each port, a start at the port of its key is a step of it.
pub fn hub_start_by_key()
    ensures { HubStartByKey }
{}

/// Of such a hub a complete-split at the port of its key is answered with what the key has there.
pub fn hub_complete_by_key()
    ensures { HubCompleteByKey }
{}

/// Of such a hub a clear at the port of a key is one of its translator, and at another one leaves it.
pub fn hub_clear_by_key()
    ensures { HubClearByKey }
{}

/// All translators of such a hub work, and the key's own makes the key's transaction.
pub fn hub_work_by_key<W: Wire>()
    ensures { HubWorkByKey W.transacts }
{}

/// For pipes, and for requests, each call is one event or none of the machine with a translator between host and device, however what is
/// asked and answered is told.
pub fn calls_are_events()
    ensures inward { (f : Taken → inward.Ask) → (g : Answer → inward.Reply) → EventsOf inward.in_halves f g }
    ensures outward { (f : Taken → outward.Ask) → (g : Answer → outward.Reply) → EventsOf outward.out_halves f g }
    ensures requests { (e : Endpoint) → (r : Request) → (f : Taken → Call) → (g : Answer → Answer) → EventsOf (window_halves e r) f g }
{}
