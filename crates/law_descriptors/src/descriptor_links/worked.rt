//! A worked row, which the check computes.
ghost use Rattle.std.specs.Prelude.{◌≡◌, ◌*◌, ◌+◌, [], ◌∷◌, true, false, Some};
ghost use Rattle.drv_chains.specs.declared.members.Member.TheVariants.{Each};
ghost use Rattle.drv_periodic.specs.Periodic.{link_to};
ghost use Rattle.drv_periodic_table.specs.Periodic.{descriptor_name, no_descriptor};

/// The word of a queue head in block 130, of an iTD and of a siTD in block 140.
pub fn link_words()
    ensures queue { link_to (Some (Each (record { id = 32 * 130 + 2; period = 64; phase = 3 }))) ≡ 4162 }
    ensures itd { descriptor_name no_descriptor 140 ≡ 4480 }
    ensures sitd { descriptor_name (record no_descriptor { split = true }) 140 ≡ 4484 }
{}
