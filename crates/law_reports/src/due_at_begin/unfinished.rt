//! What is due of an interrupt endpoint at high speed, told by its transfers (EHCI 1.0, 3.5, 3.6, 4.7 and 4.10.2; USB 2.0, 5.7.4).
ghost use Rattle.law_reports.specs.due_at_begin.Unfinished.{TextsHaveUnfinishedDue};

/// Where a transfer of an interrupt endpoint in its frames is stored and unfinished, its queue head comes to work; so a transaction is due
/// in a microframe of its S-mask where its device is ready for it.
pub fn texts_have_unfinished_due()
    ensures { TextsHaveUnfinishedDue }
{}
