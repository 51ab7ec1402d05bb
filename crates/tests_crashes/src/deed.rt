//! What is done with a shop's files.

use crate::error::TrialError;
use sqlite::{Alter, Connection};
use std::alloc::{AllocError, Global};

/// What is done with a shop's files, as it is written down: a line of a verb and the rest, and the lines below.
#[derive(Clone, Copy)]
pub struct Deed<'a> {
    /// The line.
    pub line: &'a str,
    /// Its first word.
    pub verb: &'a str,
    /// The rest of it.
    pub word: &'a str,
    /// The lines below.
    pub text: &'a str,
}

/// A connection as a deed left it, and what is told of the deed.
#[derive(Drop)]
pub struct Acted<S: Alter> {
    /// The connection.
    pub connection: Connection<S>,
    /// What is told.
    pub told: Result<Vec<u8>, TrialError>,
}

/// What does deeds.
pub trait Acts {
    /// Does a deed with the shop of a connection.
    fn act<S: Alter + Drop>(
        &self,
        alloc: Global,
        connection: Connection<S>,
        deed: &Deed<'_>,
    ) -> Acted<S>;
}

/// The deed that a text is.
pub(crate) fn deed_of(text: &str) -> Deed<'_> {
    let (line, text) = text.split_once('\n').unwrap_or((text, ""));
    let (verb, word) = line.split_once(' ').unwrap_or((line, ""));
    Deed {
        line,
        verb,
        word,
        text,
    }
}

/// The deeds that a text lists, each behind a `%`.
pub(crate) fn deeds(alloc: Global, text: &str) -> Result<Vec<Deed<'_>>, AllocError> {
    let mut all = Vec::new(alloc);
    for part in text.split('%') {
        if !part.is_empty() {
            all.push(deed_of(part))?;
        }
    }
    Ok(all)
}
