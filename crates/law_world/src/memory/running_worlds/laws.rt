//! Runs in which the controller goes on.
ghost use Rattle.law_world.specs.memory.running_worlds.Running.{NoRefusalWhileItRuns, NoErrorWhileItRuns};

/// While the controller runs, Host System Error is 0.
pub fn no_error_while_it_runs()
    ensures { NoErrorWhileItRuns }
{}

/// And no refusal is counted.
pub fn no_refusal_while_it_runs()
    ensures { NoRefusalWhileItRuns }
{}
