ghost use Rattle.std.specs.Prelude.{◌≡◌, ℕ, ◌+◌, ◌-◌, ◌^◌, ◌<◌, ◌≤◌, length, ◌++◌, [], None, option_to_list};
ghost use Rattle.std.specs.List.{last_or};
ghost use Rattle.drv_chains.specs.Chains.{Schedule};
ghost use Rattle.drv_chains.specs.Classes.{members};
ghost use Rattle.drv_search.specs.Search.{found_below, found_from, found_then, pending, words_left, IsSearch};

use bandwidth_steps::Steps;
use drv_chains::QueueHead;
use std::sync::ledger::Ledger;

/// What holds the classes of queue heads, and has each reading of one counted on this ledger.
pub trait Classes<L: Ledger> {
    // The members of the frame list.
    ghost schedule: { Self → Schedule };

    /// The last member of the class of this level and phase: one class is read.
    fn last(&self, level: u8, phase: u16, reads: &mut Steps<L>) -> Option<QueueHead>
        requires level { level ≤ 10 }
        requires phase { phase < 2 ^ level }
        ensures last { result ≡ last_or None (members (schedule self.now) level phase) }
        ensures reads { reads.new ≡ reads.old + 1 };
}

/// What stands right before a class in some of its frames.
#[derive(Clone, Copy, Debug, PartialEq, Eq)]
pub enum Found {
    /// The last member of a class of a longer period.
    Last(QueueHead),
    /// No queue head: the frame's oldest descriptor, or its element.
    Frame(u16),
}

/// Where a search goes on.
#[derive(Clone, Copy, Debug, PartialEq, Eq)]
pub enum Stage {
    /// Nowhere: all is found.
    Ended,
    /// At a class.
    AtClass,
    /// At a frame.
    AtFrame,
}

/// A search below one class, the one at level `floor`.
#[derive(Clone, Copy, Debug, PartialEq, Eq)]
pub struct Search {
    floor: u8,
    level: u8,
    phase: u16,
    stage: Stage,
}

/// What was found, and at which level.
#[derive(Clone, Copy, Debug, PartialEq, Eq)]
struct Met {
    found: Found,
    level: u8,
}

/// The number of frames of a level's period.
fn frames_of(level: u8) -> u16
    requires { level ≤ 10 }
    ensures { result ≡ 2 ^ level }
{
    1u16 << level
}

/// From a class down to the first that has a member, or to the frame.
#[tactic(auto, using(crate::proofs::Steps::deeper))]
fn first_found<L: Ledger, C: Classes<L>>(
    classes: &C,
    level: u8,
    phase: u16,
    reads: &mut Steps<L>,
) -> Met
    requires level { level ≤ 10 }
    requires phase { phase < 2 ^ level }
    ensures not_above { level ≤ result.level }
    ensures most { result.level ≤ 10 }
    ensures reads { reads.new + level ≤ reads.old + 11 }
    ensures found { (depth : ℕ) → found_from (C.schedule classes.now) depth level phase ≡ found_then (C.schedule classes.now) result.found (depth + (result.level - level)) result.level phase }
{
    if let Some(queue) = classes.last(level, phase, reads) {
        return Met {
            found: Found::Last(queue),
            level,
        };
    }
    if level >= 10 {
        return Met {
            found: Found::Frame(phase),
            level,
        };
    }
    first_found(classes, level + 1, phase, reads)
}

/// From what was found up to the next class that wasn't looked at.
fn next_place(floor: u8, level: u8, phase: u16) -> Search
    requires floor { floor ≤ level }
    requires level { level ≤ 10 }
    requires phase { phase < 2 ^ level }
    ensures left { (s : Schedule) → words_left s result ≡ pending s (level - floor) (10 - level) level phase }
    ensures valid { IsSearch result }
    ensures floor { result.floor ≡ floor }
{
    if level <= floor {
        return Search {
            floor,
            level,
            phase,
            stage: Stage::Ended,
        };
    }
    let half = frames_of(level - 1);
    if phase < half {
        return Search {
            floor,
            level,
            phase: phase + half,
            stage: Stage::AtClass,
        };
    }
    next_place(floor, level - 1, phase - half)
}

impl Search {
    /// A search that has nothing to find.
    pub fn nothing() -> Search
        ensures left { (s : Schedule) → words_left s result ≡ [] }
        ensures valid { IsSearch result }
    {
        Search {
            floor: 0,
            level: 0,
            phase: 0,
            stage: Stage::Ended,
        }
    }

    /// A search below the class of this level and phase.
    pub fn below(level: u8, phase: u16) -> Search
        requires level { level ≤ 10 }
        requires phase { phase < 2 ^ level }
        ensures left { (s : Schedule) → words_left s result ≡ found_below s (10 - level) level phase }
        ensures some { (s : Schedule) → 1 ≤ length (words_left s result) }
        ensures deeper { 1 ≤ result.level }
        ensures valid { IsSearch result }
    {
        if level >= 10 {
            return Search {
                floor: level,
                level,
                phase,
                stage: Stage::AtFrame,
            };
        }
        Search {
            floor: level,
            level: level + 1,
            phase,
            stage: Stage::AtClass,
        }
    }

    /// The next that stands right before the class; `None` exactly where all is found. It reads at most eleven classes, each counted on
    /// the ledger that is handed down: no other may count what this one holds.
    pub fn next<L: Ledger, C: Classes<L>>(
        &mut self,
        classes: &C,
        reads: &mut Steps<L>,
    ) -> Option<Found>
        requires { IsSearch self.old }
        ensures left { words_left (C.schedule classes.now) self.old ≡ option_to_list result ++ words_left (C.schedule classes.now) self.new }
        ensures end { result ≡ None → words_left (C.schedule classes.now) self.old ≡ [] }
        ensures valid { IsSearch self.new }
        ensures reads { reads.new + self.old.level ≤ reads.old + 11 }
    {
        match self.stage {
            Stage::Ended => None,
            Stage::AtFrame => {
                let frame = self.phase;
                *self = next_place(self.floor, self.level, self.phase);
                Some(Found::Frame(frame))
            }
            Stage::AtClass => {
                let met = first_found(classes, self.level, self.phase, reads);
                *self = next_place(self.floor, met.level, self.phase);
                Some(met.found)
            }
        }
    }
}
