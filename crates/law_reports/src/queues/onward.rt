//! How far queue heads have come along their qTDs, and what they left behind (EHCI 1.0, 4.10 and 4.10.2).
ghost use Rattle.law_reports.specs.queues.OnwardLaws.{
  ControllerKeepsOnward,
  DriverKeepsOnward,
  CommandKeepsOnward,
  NewWorldGoesOnward,
  ScriptsGoOnward,
  OnwardComesToWork,
  ScriptsComeToWork,
  TextsComeToWork,
  MixedCopiesComeToWork,
  TextsKeepCopiesAtWork,
  TextsKeepToWork,
};

/// Each event of the controller keeps it, of either walk: a qTD that is done leads to the place where its queue head goes on, and skips
/// what stands between. So does each event of the driver, and each command.
pub fn queue_heads_go_onward()
    ensures controller { ControllerKeepsOnward }
    ensures driver { DriverKeepsOnward }
    ensures command { CommandKeepsOnward }
{}

/// So it is at each moment of each script.
pub fn each_moment_goes_onward()
    ensures opening { NewWorldGoesOnward }
    ensures scripts { ScriptsGoOnward }
{}

/// And an unfinished transfer is what its queue head comes to.
pub fn an_unfinished_transfer_comes_next()
    ensures worlds { OnwardComesToWork }
    ensures scripts { ScriptsComeToWork }
    ensures texts { TextsComeToWork }
{}

/// So is it of its copy in the hand of either walk, which isn't passed for want of work then.
pub fn a_copy_in_hand_has_work()
    ensures worlds { MixedCopiesComeToWork }
    ensures texts { TextsKeepCopiesAtWork }
    ensures both { TextsKeepToWork }
{}
