//! What is proved of each run of a script, clause by clause of the top call: a file of specs/ for each, which begins with the clause in words. Each definition here is reached
//! from a clause, and what is reached elsewhere is in `claims_driver`, `claims_report` or the machine. Why it holds is in the `law_` crates.
//!
//! - specs/Scripts.antt: the scripts of which the clauses speak.
//! - specs/Lent.antt, specs/Owned.antt, specs/Schedule.antt, specs/Memory.antt, specs/Reach.antt, specs/Releases.antt: the clauses `lent`, `owned`,
//!   `schedule`, `memory`, `reach` and `releases`.
//! - specs/Visits.antt, specs/Microframes.antt, specs/Prices.antt, specs/WithinLoad.antt, specs/InTime.antt: the clauses `visits`,
//!   `microframes`, `within_load` and `in_time`.
//! - specs/Translators.antt: the clause `translators` (USB 2.0, 11.14, 11.18 and 11.18.4). What is placed below a translator and laid for
//!   it is in specs/Plans.antt and specs/HubPlans.antt; the entries of its pipeline, and what was done for them, in specs/Watched.antt,
//!   specs/Gaps.antt, specs/KeepsUp.antt, specs/Answered.antt and specs/Pipelines.antt. specs/Results.antt, specs/Behind.antt: the clause
//!   `results`; specs/Places.antt: the clause `places`.
//! - specs/HighStreams.antt, specs/BelowStreams.antt: the clause `streams`; specs/Requests.antt: the clause `requests`.
//!
//! The clause `budgets` is in `bus_world`, whose run promises it (specs/Budgets.antt). There is no code, and no proof.
#![tactic(auto)]
