//! The work of hubs where a microframe begins, key by key.
ghost use Rattle.std.specs.Prelude.{ℕ};
ghost use Rattle.hub_keys.specs.declared.key.Key.{Key};
ghost use Rattle.claims_report.specs.Requests.{Request};
ghost use Rattle.law_below_hubs.specs.ControlAsks.{IsRequestAsk, RequestStartsAreRight};
ghost use Rattle.law_below_hubs.specs.ControlFits.{AnswersFit};
ghost use Rattle.law_below_hubs.specs.ControlStands.{RequestGoesOn};
ghost use Rattle.law_below_hubs.specs.ControlTurns.{QuietIsInTurn, RequestWorkIsEvents};
ghost use Rattle.law_below_hubs.specs.ControlWork.{ControlWorkIsEvents};
ghost use Rattle.law_below_hubs.specs.Kept.{TransactionsKeepRight};
ghost use Rattle.law_below_hubs.specs.OutWork.{IsPut, OutWorkIsEvents};
ghost use Rattle.law_below_hubs.specs.RightAsks.{KeepsRight, WorksRightly};
ghost use Rattle.law_below_hubs.specs.HubsKeys.{IsOfKind};
ghost use Rattle.law_below_hubs.specs.InWork.{InWorkIsEvents};

use usb_base::Wire;

/// What the translators of a hub ask of an endpoint is of its kind, where each start that was put into them is; and so for what an OUT
/// endpoint is sent, and for the SETUP, the data and the status of a request.
pub fn asks_are_of_their_kind<W: Wire>()
    ensures keeps { (k : Key) → KeepsRight (IsOfKind k) }
    ensures work { (k : Key) → WorksRightly (IsOfKind k) W.transacts }
    ensures put_keeps { (k : Key) → KeepsRight (IsPut k) }
    ensures put_work { (k : Key) → WorksRightly (IsPut k) W.transacts }
    ensures request_keeps { (r : Request) (addr num : ℕ) → KeepsRight (IsRequestAsk r addr num) }
    ensures request_work { (r : Request) (addr num : ℕ) → WorksRightly (IsRequestAsk r addr num) W.transacts }
{}

/// Each transaction of the host keeps what the hubs ask so, where a start that it puts in is.
pub fn transactions_keep_asks_of_their_kind()
    ensures kind { (k : Key) → TransactionsKeepRight (IsOfKind k) }
    ensures put { (k : Key) → TransactionsKeepRight (IsPut k) }
    ensures request { (r : Request) (addr num : ℕ) → TransactionsKeepRight (IsRequestAsk r addr num) }
{}

/// Of an IN endpoint below a hub, the work of all hubs is a few events of the machine of its pipe, whatever else they do.
pub fn in_work_is_events()
    ensures { InWorkIsEvents }
{}

/// Of an OUT endpoint below a hub, the work of all hubs is a few events of the machine of its pipe, whatever else they do.
pub fn out_work_is_events()
    ensures { OutWorkIsEvents }
{}

/// Each start of a request's host is a control ask by a token of the request.
pub fn request_starts_are_right()
    ensures { RequestStartsAreRight }
{}

/// Of a control endpoint below a hub, the work of all hubs is a few events of the machine of its request, whatever else they do.
pub fn control_work_is_events()
    ensures { ControlWorkIsEvents }
{}

/// Over both directions of it: the host asks in one, and what the translator has of the other one stays.
pub fn request_work_is_events()
    ensures turn { QuietIsInTurn }
    ensures work { RequestWorkIsEvents }
{}

/// Where the host of a request asks and the device stands to it as it must, the device's answer fits: a translator acknowledges it where
/// the host would.
pub fn answers_fit()
    ensures { AnswersFit }
{}

/// Where host and device of a request stand to each other as they must, with what the translator has of both directions, the work of all
/// hubs leaves them so.
pub fn request_goes_on()
    ensures { RequestGoesOn }
{}
