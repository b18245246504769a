//! A worked text, which the check computes.
ghost use Rattle.script_text.specs.Faults.{Spells};
ghost use Rattle.law_scripts.specs.Numbers.{NumbersOpens};
ghost use Rattle.law_scripts.specs.Samples.{opens_highest};

/// The text.
pub const HIGHEST: &[u8] =
    b"ehci 1\nmem 2048\ndev 127 high\nep 127 15 in bulk 512\nopen 127 15 in\n";

/// It spells this script, whose open has the highest address and the highest number.
pub fn highest()
    ensures spelled { Spells HIGHEST.now opens_highest }
    ensures numbered { NumbersOpens opens_highest }
{}
