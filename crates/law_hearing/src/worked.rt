//! Worked rows of who hears a packet: a start-split to a translator, with and without a line that says that it is lost.
ghost use Rattle.law_hearing.specs.Worked.{IsAnswered, IsLostAbove, SilenceIsWrong, DeafnessToLinesIsWrong};

/// The translator acknowledges it; where the token is lost, nothing is heard.
#[tactic(auto, using(crate::proofs::Samples::answered, crate::proofs::Samples::lost))]
pub fn a_start_split_is_heard_unless_it_is_lost()
    ensures answered { IsAnswered }
    ensures lost { IsLostAbove }
{}

/// A bus that is silent though no line says so isn't what the lines say.
pub fn hearing_is_broken_by_silence()
    ensures { SilenceIsWrong }
{}

/// Nor is one that answers a token of which a line says that it is lost.
#[tactic(auto, using(crate::proofs::Samples::deaf))]
pub fn hearing_is_broken_by_a_bus_that_ignores_lines()
    ensures { DeafnessToLinesIsWrong }
{}
