//! Numbers, and what is next, as words of a line.

use crate::error::TogetherError;
use std::alloc::Global;
use web_connections::Next;

/// The number that a word is.
pub(crate) fn number(word: &str) -> Result<usize, TogetherError> {
    match word.parse::<usize>() {
        Ok(number) => Ok(number),
        Err(_) => Err(TogetherError::Unread),
    }
}

/// The numbers of a line, with a space between two.
pub(crate) fn numbers(alloc: Global, line: &str) -> Result<Vec<usize>, TogetherError> {
    let mut all = Vec::new(alloc);
    for word in line.split(' ') {
        if !word.is_empty() {
            all.push(number(word)?)?;
        }
    }
    Ok(all)
}

// What a word says is next: a `+` that somebody comes, a number that whoever is at that slot has a turn, and a `-` before it that whoever is
// there leaves.
fn next_of(word: &str) -> Result<Next, TogetherError> {
    if word == "+" {
        return Ok(Next::Comes);
    }
    match word.strip_prefix('-') {
        Some(place) => Ok(Next::Leaves(number(place)?)),
        None => Ok(Next::Turn(number(word)?)),
    }
}

/// What a line says happens, word by word.
pub(crate) fn nexts(alloc: Global, line: &str) -> Result<Vec<Next>, TogetherError> {
    let mut all = Vec::new(alloc);
    for word in line.split(' ') {
        if !word.is_empty() {
            all.push(next_of(word)?)?;
        }
    }
    Ok(all)
}
