//! The transactions of the host, key by key.
ghost use Rattle.std.specs.Prelude.{ℕ};
ghost use Rattle.hub_keys.specs.declared.key.Key.{Key};
ghost use Rattle.claims_report.specs.Requests.{Request};
ghost use Rattle.law_below_hubs.specs.ControlAsks.{IsRequestAsk};
ghost use Rattle.law_below_hubs.specs.HubsKeys.{IsOfKind};
ghost use Rattle.law_below_hubs.specs.OutWork.{IsPut};
ghost use Rattle.law_below_hubs.specs.Opening.{OpensWithoutKeys, OpensRight};
ghost use Rattle.law_below_hubs.specs.PlainAsks.{PlainAsksByKey};
ghost use Rattle.law_below_hubs.specs.Splits.{SplitsByKey};

/// A split transaction of the host is a step of what the named hub has of its key, unless the hub doesn't hear it; the host hears the
/// answer or nothing. What any hub has of another key stays, or a start takes what was told.
pub fn splits_by_key()
    ensures { SplitsByKey }
{}

/// A plain transaction of the host leaves what the hubs have of a key, but for a request to a hub that clears it.
pub fn plain_asks_by_key()
    ensures { PlainAsksByKey }
{}

/// Where a run begins, no hub has anything of any key, and nothing was asked of it.
pub fn a_run_opens_without_keys()
    ensures keys { OpensWithoutKeys }
    ensures kind { (k : Key) → OpensRight (IsOfKind k) }
    ensures put { (k : Key) → OpensRight (IsPut k) }
    ensures request { (r : Request) (addr num : ℕ) → OpensRight (IsRequestAsk r addr num) }
{}
