use crate::reports::put;
use crate::shot::Shot;
use std::alloc::{AllocError, Global};

/// How many of these words there are before another one than `word`.
fn length_of_run(words: &[u32], word: u32) -> usize {
    match words.iter().position(|other| *other != word) {
        Some(long) => long,
        None => words.len(),
    }
}

/// A word with its address.
fn pair(alloc: Global, number: usize, word: u32) -> Result<String, AllocError> {
    format!(in alloc; " {:x}={word:x}", number.saturating_mul(4))
}

/// The words from a byte address on, at most so many, that aren't 0, each with its address; several equal ones in a row as one, with
/// their number.
pub(crate) fn words_from(
    alloc: Global,
    shot: &Shot,
    at: u32,
    most: u32,
) -> Result<String, AllocError> {
    let end = shot.words.len().min((at / 4) as usize + most as usize);
    let words = &shot.words.as_slice()[..end];
    let mut text = String::new(alloc);
    let mut after = (at / 4) as usize;
    for number in 0..words.len() {
        let word = words[number];
        if number < after || word == 0 {
            continue;
        }
        let long = length_of_run(&words[number..], word);
        after = number.saturating_add(long);
        put(&mut text, pair(alloc, number, word))?;
        if long > 1 {
            put(&mut text, format!(in alloc; "*{long}"))?;
        }
    }
    Ok(text)
}

/// The words that differ, except those that are 0 in a Free block now.
pub(crate) fn changes(alloc: Global, before: &Shot, now: &Shot) -> Result<String, AllocError> {
    let mut text = String::new(alloc);
    let mut number = 0;
    for (old, new) in before.words.iter().zip(now.words.iter()) {
        if *old != *new && !(*new == 0 && now.is_free(number)) {
            put(&mut text, pair(alloc, number, *new))?;
        }
        number = number.saturating_add(1);
    }
    Ok(text)
}
