use crate::rounds::Guests;
use crate::{compare, fill, rounds};
use std::alloc::{AllocError, Global};

/// What a line asks for.
#[derive(Clone, Copy)]
enum Task {
    Fill {
        seed: u32,
        wants: u32,
    },
    Compare {
        seed: u32,
        wants: u32,
        room: u32,
        ids: u32,
    },
    Rounds {
        guests: Guests,
        placed: u32,
        rounds: u32,
    },
}

fn guests_of(word: &str) -> Option<Guests> {
    match word {
        "drawn" => Some(Guests::Drawn),
        "high" => Some(Guests::LongHigh),
        "long" => Some(Guests::LongOut),
        "short" => Some(Guests::ShortOut),
        "long-in" => Some(Guests::LongIn),
        "short-in" => Some(Guests::ShortIn),
        _ => None,
    }
}

fn number(word: Option<&str>) -> Option<u32> {
    word?.parse::<u32>().ok()
}

fn task_of(line: &str) -> Option<Task> {
    let mut words = line.split(' ');
    match words.next()? {
        "fill" => Some(Task::Fill {
            seed: number(words.next())?,
            wants: number(words.next())?,
        }),
        "compare" => Some(Task::Compare {
            seed: number(words.next())?,
            wants: number(words.next())?,
            room: number(words.next())?,
            ids: number(words.next())?,
        }),
        "rounds" => Some(Task::Rounds {
            guests: guests_of(words.next()?)?,
            placed: number(words.next())?,
            rounds: number(words.next())?,
        }),
        _ => None,
    }
}

/// What a line gives.
pub(crate) fn answer(alloc: Global, line: &str) -> Result<String, AllocError> {
    match task_of(line) {
        Some(Task::Fill { seed, wants }) => fill::describe(alloc, seed, wants),
        Some(
            Task::Compare {
                seed,
                wants,
                room,
                ids,
            },
        ) => compare::describe(alloc, seed, wants, room, ids),
        Some(
            Task::Rounds {
                guests,
                placed,
                rounds,
            },
        ) => rounds::describe(alloc, guests, placed, rounds),
        None => format!(in alloc; "not a task"),
    }
}
