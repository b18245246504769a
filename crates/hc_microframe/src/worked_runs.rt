//! Worked values of events in a row, which the check computes.
ghost use Rattle.std.specs.Prelude.{◌≡◌, [], ◌∷◌, replicate, Some, None, true, false};
ghost use Rattle.hc_core.specs.Controller.{began, ended};
ghost use Rattle.hc_microframe.specs.Answers.{told, asked};
ghost use Rattle.hc_microframe.specs.Microframe.{Goes, IsOver, is_last};
ghost use Rattle.hc_microframe.specs.Samples.{answer, running, in_of_three, nothing_sent};

/// With both schedules off a run goes on behind the Begin of its microframe, and not behind the End, which is its second event.
pub fn a_run_goes_on()
    ensures begun { is_last (running (replicate 8 1)) (began true (running (replicate 8 1))) ≡ false }
    ensures goes { Goes (running (replicate 8 1)) (told [] []) 1 (began true (running (replicate 8 1))) (told [] []) }
    ensures ended { let begun = began true (running (replicate 8 1)) in
        is_last begun (record begun { control = ended begun.control }) ≡ true }
    ensures over { let begun = began true (running (replicate 8 1)) in
        IsOver (running (replicate 8 1)) (told [] []) 2 None (record begun { control = ended begun.control }) (told [] []) }
{}

/// Where the frame list lies past the words a run doesn't go on: the Begin halts the controller, and is the last event of its microframe.
pub fn a_run_is_halted()
    ensures halted { is_last (running []) (began true (running [])) ≡ true }
    ensures over { IsOver (running []) (told [] []) 1 None (began true (running [])) (told [] []) }
{}

/// What is asked takes the first answer that is left; with none left it is what is wanted, and none is left behind it.
pub fn what_is_asked()
    ensures taken { asked (told (answer 1 0xa 0 0 ∷ answer 1 2 0 0 ∷ []) []) in_of_three [] ≡ told (answer 1 2 0 0 ∷ []) [] }
    ensures wanted { (asked (told [] []) in_of_three []).wanted ≡ Some nothing_sent }
    ensures none { (asked (told [] []) in_of_three []).answers ≡ [] }
{}
