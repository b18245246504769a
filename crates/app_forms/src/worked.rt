//! Worked rows: which inputs are sound, and which ends `finishes` and `load` take and refuse.
ghost use Rattle.std.specs.Prelude.{[], Some, None, codes};
ghost use Rattle.bus_world.specs.RunsAtWork.{IsRunOfAtWork};
ghost use Rattle.app_forms.specs.Finished.{IsSound, FinishesForm};
ghost use Rattle.app_forms.specs.Output.{IsLoadEnd};
ghost use Rattle.app_forms.specs.Samples.{calm, failing};

use crate::form::Form;
use app_ends::Status;

pub const VERSION_ALONE: &[u8] = b"ehci 1\n";

pub const NO_VERSION: &[u8] = b"ehci 3\n";

/// A script of its version alone is one that `run` reads, and one of a version that there isn't is none; `load` reads nothing.
pub fn sound_inputs()
    ensures script { IsSound Form.Run VERSION_ALONE.now }
    ensures faulty { IsSound Form.Run NO_VERSION.now → ⊥ }
    ensures load { IsSound (Form.Load 1) NO_VERSION.now }
{}

/// Where neither source nor sink failed, want of memory with nothing written is an end of `load`, and a refusal, or a byte that was
/// written before, is none.
pub fn calm_ends()
    ensures memory { FinishesForm IsRunOfAtWork (Form.Load 1) Status.Memory calm [] (Some []) (Some []) }
    ensures refused { FinishesForm IsRunOfAtWork (Form.Load 1) Status.Refused calm [] None None → ⊥ }
    ensures written { FinishesForm IsRunOfAtWork (Form.Load 1) Status.Memory calm [] (Some []) (Some (codes "load")) → ⊥ }
{}

/// It says nothing where the sink failed.
pub fn failing_ends()
    ensures { FinishesForm IsRunOfAtWork (Form.Load 1) Status.WriteFault failing [] None None }
{}

/// `load` ends with its output, with a part of it where the sink fails, or for want of memory; it refuses nothing, and reads nothing that
/// could fail.
pub fn ends_of_load()
    ensures done { IsLoadEnd Status.Ok }
    ensures cut { IsLoadEnd Status.WriteFault }
    ensures refused { IsLoadEnd Status.Refused → ⊥ }
    ensures unread { IsLoadEnd Status.ReadFault → ⊥ }
{}
