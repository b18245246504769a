ghost use Rattle.std.specs.Prelude.{◌≡◌, false};
ghost use Rattle.word_mem.specs.Memory.{IsShaped};
ghost use Rattle.mem_runs.specs.Book.{holding, Stands};
ghost use Rattle.drv_table.specs.declared.content.Command.{Command};
ghost use Rattle.drv_table.specs.Parts.{Parts};
ghost use Rattle.drv_table.specs.Rows.{driver_row, after_driver_row};
ghost use Rattle.drv_table.specs.Commands.{removes_members};
ghost use Rattle.claims_driver.specs.Leaving.{HasOwners};
ghost use Rattle.law_driver.specs.listed_members.Members.{IsListed};
ghost use Rattle.claims_driver.specs.FrameWords.{ListStands};
ghost use Rattle.law_frame_list.specs.list_steps.Steps.{IsLinkingStep, NextLeads, IsOfInterrupt};

/// A store of a command that links or unlinks members leaves the list standing, where a member that is linked next leads to the one behind it.
pub fn a_step_keeps_the_list_standing()
    ensures { (p : Parts) (c : Command) → IsLinkingStep p c → Stands (holding p.driver.book p.memory) → IsShaped p.memory → HasOwners p.driver → IsListed p.driver
        → ListStands p.memory p.driver → (removes_members c ≡ false → NextLeads p)
        → ListStands (after_driver_row (driver_row p) p).memory (after_driver_row (driver_row p) p).driver }
{}

/// A command for an interrupt endpoint has no member that is linked next, and nor has one that unlinks.
pub fn steps_of_interrupt_endpoints_keep_it_standing()
    ensures { (p : Parts) (c : Command) → IsLinkingStep p c → IsOfInterrupt c → Stands (holding p.driver.book p.memory) → IsShaped p.memory → HasOwners p.driver
        → IsListed p.driver → ListStands p.memory p.driver → ListStands (after_driver_row (driver_row p) p).memory (after_driver_row (driver_row p) p).driver }
{}
