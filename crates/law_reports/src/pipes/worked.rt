//! Worked rows, which the check computes.
ghost use Rattle.law_driver.specs.run_owners.Worked.{busy_driver};
ghost use Rattle.law_world.specs.memory.Samples.{keyboard_and_disk};
ghost use Rattle.law_world.specs.memory.StepSamples.{key_driver, key_memory};
ghost use Rattle.law_world.specs.memory.pipe_steps.Samples.{ends};
ghost use Rattle.law_reports.specs.pipes.Declared.{AreDeclared};
ghost use Rattle.law_reports.specs.pipes.DescriptorNames.{AreDescriptorsNamed};
ghost use Rattle.law_reports.specs.pipes.Piped.{AreEndsNamed};
ghost use Rattle.law_reports.specs.pipes.PipedLaws.{DeclaresOpens};
ghost use Rattle.law_reports.specs.pipes.Samples.{both_send, one_sends, other_ends, named_memory, alone};

/// The endpoints of a driver are declared where the devices have a stream for its bulk and its interrupt endpoint, and none for its
/// isochronous one; and not where the interrupt endpoint's is left out.
pub fn endpoints_are_declared()
    ensures both { AreDeclared both_send key_driver }
    ensures left_out { AreDeclared one_sends key_driver → ⊥ }
{}

/// Its queue heads are told by their real names; and not where one is told to have longer packets.
pub fn queue_heads_are_named()
    ensures real { AreEndsNamed key_driver ends }
    ensures longer { AreEndsNamed key_driver other_ends → ⊥ }
{}

/// Its isochronous descriptors tell device 3, endpoint 1 and IN; a memory of zeros doesn't.
pub fn descriptors_are_named()
    ensures told { AreDescriptorsNamed busy_driver named_memory }
    ensures untold { AreDescriptorsNamed busy_driver key_memory → ⊥ }
{}

/// A script that opens an interrupt endpoint below a hub and a bulk one at high speed declares both; one without devices declares neither.
pub fn opens_are_declared()
    ensures script { DeclaresOpens keyboard_and_disk }
    ensures alone { DeclaresOpens alone → ⊥ }
{}
