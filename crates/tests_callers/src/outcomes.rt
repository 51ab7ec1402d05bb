//! What callers may be told, and how often they were.

use std::alloc::{AllocError, Global};

/// What callers may be told, by name, each of them by its number.
#[derive(Drop)]
pub(crate) struct Outcome<'a> {
    pub(crate) name: &'a str,
    pub(crate) told: Vec<Vec<u8>>,
}

// The texts that a text lists, with a bar between two.
fn texts(alloc: Global, text: &str) -> Result<Vec<Vec<u8>>, AllocError> {
    let mut all = Vec::new(alloc);
    for part in text.split('|') {
        all.push(part.as_bytes().to_vec(alloc)?)?;
    }
    Ok(all)
}

/// The outcomes that a text lists, each behind a `%`.
pub(crate) fn outcomes(alloc: Global, text: &str) -> Result<Vec<Outcome<'_>>, AllocError> {
    let mut all = Vec::new(alloc);
    for part in text.split('%') {
        if let Some((name, told)) = part.split_once('\n') {
            let told = texts(alloc, told)?;
            all.push(Outcome { name, told })?;
        }
    }
    Ok(all)
}

/// How often each outcome came, by its slot, and how often none of them.
#[derive(Drop)]
pub(crate) struct Tally {
    pub(crate) counts: Vec<u64>,
    pub(crate) otherwise: u64,
}

impl Tally {
    /// None of so many came yet.
    pub(crate) fn new(alloc: Global, count: usize) -> Result<Tally, AllocError> {
        Ok(Tally {
            counts: vec![in alloc; 0u64; count]?,
            otherwise: 0,
        })
    }

    // Counts the outcome at a slot, or none.
    fn add(&mut self, at: Option<usize>) {
        let Some(at) = at else {
            self.otherwise = self.otherwise.saturating_add(1);
            return;
        };
        if let Some(count) = self.counts.get_mut(at) {
            *count = count.saturating_add(1);
        }
    }

    /// Counts that callers were told this.
    pub(crate) fn note(&mut self, outcomes: &[Outcome<'_>], told: &Vec<Vec<u8>>) {
        self.add(outcomes.iter().position(|it| it.told == *told));
    }

    /// How often any outcome came.
    pub(crate) fn sum(&self) -> u64 {
        let mut sum = 0u64;
        for count in &self.counts {
            sum = sum.saturating_add(*count);
        }
        sum
    }
}
