//! Callers as a text has them, and what they do.

use crate::error::TogetherError;
use crate::words::{nexts, number, numbers};
use std::alloc::Global;
use web_connections::Next;

/// A caller: what it sends, how many bytes each of its reads gives at most, and how many each write to it takes.
#[derive(Drop)]
pub(crate) struct Guest<'a> {
    pub(crate) bytes: &'a str,
    pub(crate) reads: Vec<usize>,
    pub(crate) writes: Vec<usize>,
}

/// What happens: first, then what two lists say in each order of both, and at last.
#[derive(Drop)]
pub(crate) struct Plan {
    pub(crate) first: Vec<Next>,
    pub(crate) one: Vec<Next>,
    pub(crate) other: Vec<Next>,
    pub(crate) last: Vec<Next>,
}

/// Callers, in the order in which they come, and the server that they come to.
#[derive(Drop)]
pub struct Party<'a> {
    pub(crate) moments: &'a str,
    pub(crate) slots: usize,
    pub(crate) guests: Vec<Guest<'a>>,
}

impl<'a> Party<'a> {
    /// The moments of all whole requests, one after another, with a space between two.
    pub fn moments(&self) -> &'a str {
        self.moments
    }
}

// The caller that a text is: a line of what its reads give and what writes to it take, with a bar between, and all that it sends.
fn guest_of(alloc: Global, text: &str) -> Result<Guest<'_>, TogetherError> {
    let (line, bytes) = text.split_once('\n').unwrap_or((text, ""));
    let (reads, writes) = line.split_once('|').unwrap_or((line, ""));
    Ok(Guest {
        bytes,
        reads: numbers(alloc, reads)?,
        writes: numbers(alloc, writes)?,
    })
}

// The callers that a text lists, each behind a `%`.
fn guests(alloc: Global, text: &str) -> Result<Vec<Guest<'_>>, TogetherError> {
    let mut all = Vec::new(alloc);
    for part in text.split('%') {
        if !part.is_empty() {
            all.push(guest_of(alloc, part)?)?;
        }
    }
    Ok(all)
}

/// What happens by four lines.
pub(crate) fn plan_of(alloc: Global, text: &str) -> Result<Plan, TogetherError> {
    let mut lines = text.lines();
    let first = nexts(alloc, lines.next().unwrap_or(""))?;
    let one = nexts(alloc, lines.next().unwrap_or(""))?;
    let other = nexts(alloc, lines.next().unwrap_or(""))?;
    let last = nexts(alloc, lines.next().unwrap_or(""))?;
    Ok(Plan {
        first,
        one,
        other,
        last,
    })
}

/// The callers of a text, whose server has so many slots; requests come at these moments.
pub(crate) fn party_of<'a>(
    alloc: Global,
    slots: &str,
    moments: &'a str,
    text: &'a str,
) -> Result<Party<'a>, TogetherError> {
    Ok(Party {
        moments,
        slots: number(slots)?,
        guests: guests(alloc, text)?,
    })
}
