//! Which commands a driver refuses, and why (EHCI 1.0, 3, 4.7, 4.8 and 4.10; USB 2.0, 5.11.3).
ghost use Rattle.law_answers.specs.RefusalLaws.{CommandsAreAnswered};

/// A command is refused for the first cause that stands, and one for which none stands is accepted.
#[tactic(auto, using(crate::proofs::Causes::commands_are_answered))]
pub fn commands_are_answered()
    ensures { CommandsAreAnswered }
{}
