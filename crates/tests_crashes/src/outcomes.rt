//! What may come of a trial, and how often it came.

use std::alloc::{AllocError, Global};

/// What may come of a deed while calls of its files are refused, by name: what it tells, and what those behind it tell.
#[derive(Clone, Copy)]
pub(crate) struct Outcome<'a> {
    pub(crate) name: &'a str,
    pub(crate) first: &'a str,
    pub(crate) then: &'a str,
}

/// The outcomes that a text lists, each behind a `%`.
pub(crate) fn outcomes(alloc: Global, text: &str) -> Result<Vec<Outcome<'_>>, AllocError> {
    let mut all = Vec::new(alloc);
    for part in text.split('%') {
        if let Some((name, told)) = part.split_once('\n') {
            let (first, then) = told.split_once('~').unwrap_or((told, ""));
            all.push(Outcome { name, first, then })?;
        }
    }
    Ok(all)
}

/// The place of the outcome that has these texts.
pub(crate) fn place(outcomes: &[Outcome<'_>], first: &[u8], then: &[u8]) -> Option<usize> {
    outcomes.iter().position(|it| it.first.as_bytes() == first && it.then.as_bytes() == then)
}

/// How often each of at most eight outcomes came, by its place, and how often none of them.
#[derive(Clone, Copy)]
pub(crate) struct Tally {
    pub(crate) counts: [u64; 8],
    pub(crate) otherwise: u64,
}

/// None came.
pub(crate) const NEVER: Tally = Tally {
    counts: [0; 8],
    otherwise: 0,
};

impl Tally {
    /// Counts an outcome.
    pub(crate) fn add(&mut self, at: Option<usize>) {
        match at {
            Some(at) if at < self.counts.len() => {
                self.counts[at] = self.counts[at].saturating_add(1);
            }
            _ => self.otherwise = self.otherwise.saturating_add(1),
        }
    }

    /// Looks whether that is the first outcome.
    pub(crate) fn end(&mut self, at: Option<usize>) {
        if at != Some(0) {
            self.otherwise = self.otherwise.saturating_add(1);
        }
    }

    /// How often one of the outcomes came whose name begins so.
    pub(crate) fn of(&self, outcomes: &[Outcome<'_>], begin: &str) -> u64 {
        let mut sum = 0u64;
        for (outcome, count) in outcomes.iter().zip(self.counts.as_slice()) {
            if outcome.name.starts_with(begin) {
                sum = sum.saturating_add(*count);
            }
        }
        sum
    }
}
