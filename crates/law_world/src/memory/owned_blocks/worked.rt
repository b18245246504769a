//! Worked rows: a driver with a bulk endpoint, of which a transfer is out, an interrupt endpoint, and an isochronous one with two descriptors, one of which
//! was reported and is still linked. Its runs begin in blocks 130 and 133, 132 and 134; 136 and 135; 138 and 144; and 140 and 152.
ghost use Rattle.law_driver.specs.run_owners.Worked.{busy_driver};
ghost use Rattle.claims_world.specs.Owned.{IsOwnedRun};

/// The runs of its queues and transfers are owned.
pub fn runs_of_queues()
    ensures list { IsOwnedRun busy_driver 0 }
    ensures head { IsOwnedRun busy_driver 128 }
    ensures queue { IsOwnedRun busy_driver 130 }
    ensures inactive { IsOwnedRun busy_driver 133 }
    ensures qtd { IsOwnedRun busy_driver 132 }
    ensures buffer { IsOwnedRun busy_driver 134 }
    ensures interrupt { IsOwnedRun busy_driver 136 }
{}

/// And so are those of its descriptors, until they are given back.
pub fn runs_of_descriptors()
    ensures reported { IsOwnedRun busy_driver 138 }
    ensures waiting { IsOwnedRun busy_driver 140 }
    ensures buffer { IsOwnedRun busy_driver 152 }
{}

/// A run that began in block 131 would be nobody's.
pub fn a_run_of_nobody()
    ensures { IsOwnedRun busy_driver 131 → ⊥ }
{}
