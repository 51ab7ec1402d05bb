//! A deed while calls of a shop's files are refused, each in turn.

use crate::deed::{Acts, Deed, deed_of, deeds};
use crate::error::TrialError;
use crate::outcomes::{NEVER, Outcome, Tally, outcomes, place};
use crate::refusing::{NONE, Refusals};
use crate::run::{Done, Run, do_at};
use crate::stored::{Fate, Stored};
use std::alloc::Global;
use std::io::Write;

/// Which calls are refused: from one on all calls of a file, so that it stops; or one of them alone, while the shop stays open.
#[derive(Clone, Copy)]
pub enum Kind {
    /// A file stops.
    Stops,
    /// A call is refused.
    Refusals,
}

/// The parts of a trial as a text has them, with a `~` between: deeds that come before it, the deed during which calls are refused, those
/// behind it, and all that may come of it.
#[derive(Clone, Copy)]
struct Parts<'a> {
    before: &'a str,
    first: &'a str,
    then: &'a str,
    outcomes: &'a str,
}

/// A deed while calls of the files are refused, those behind it, and all that may come of it.
#[derive(Drop)]
struct Trial<'a, A: Acts> {
    acts: &'a A,
    name: &'a str,
    base: &'a Stored,
    first: Deed<'a>,
    then: &'a [Deed<'a>],
    outcomes: &'a [Outcome<'a>],
}

/// Which calls are refused, one after another: of the log or of the database file, and how many.
#[derive(Clone, Copy)]
struct How {
    of_log: bool,
    refuses: u64,
}

/// Which outcome came, where all that was written stays, and where what wasn't synced is lost; and whether a call was refused.
#[derive(Clone, Copy)]
struct Came {
    of_kept: Option<usize>,
    of_lost: Option<usize>,
    refused: bool,
}

/// What came of a trial where each call of a file is refused in turn: how many calls there were, and which outcomes came, where all that was
/// written stays, and where what wasn't synced is lost.
#[derive(Clone, Copy)]
struct Found {
    calls: u64,
    kept: Tally,
    lost: Tally,
}

/// What the deeds behind a trial's tell of files that it left.
#[derive(Drop)]
struct Seen {
    stored: Stored,
    then: Vec<u8>,
}

// The parts of a trial.
fn split(text: &str) -> Parts<'_> {
    let (before, rest) = text.split_once('~').unwrap_or((text, ""));
    let (first, rest) = rest.split_once('~').unwrap_or((rest, ""));
    let (then, outcomes) = rest.split_once('~').unwrap_or((rest, ""));
    Parts {
        before,
        first,
        then,
        outcomes,
    }
}

// The files that deeds leave which come one after another over no files.
fn base<A: Acts>(alloc: Global, acts: &A, text: &str) -> Result<Stored, TrialError> {
    let before = deeds(alloc, text)?;
    let mut run = Run::over(alloc, Stored::none(alloc));
    run.go_on(alloc, acts, before.as_slice())?;
    Ok(run.stored)
}

// What was seen of these files.
fn seen_of<'a>(seen: &'a [Seen], stored: &Stored) -> Option<&'a Seen> {
    seen.iter().find(|it| it.stored == *stored)
}

impl How {
    // Which calls are refused where so many pass first.
    fn fate(&self, passes: u64) -> Fate {
        let refusals = Refusals {
            passes,
            refuses: self.refuses,
        };
        if self.of_log {
            Fate {
                log: refusals,
                db: NONE,
            }
        } else {
            Fate {
                log: NONE,
                db: refusals,
            }
        }
    }
}

impl Found {
    // Counts what came where a call was refused. Where none was, that has to be the first outcome.
    fn note(&mut self, came: &Came) {
        if came.refused {
            self.calls = self.calls.saturating_add(1);
            self.kept.add(came.of_kept);
            self.lost.add(came.of_lost);
        } else {
            self.kept.end(came.of_kept);
            self.lost.end(came.of_lost);
        }
    }
}

impl<A: Acts> Trial<'_, A> {
    // What the deeds behind the first tell of these files.
    fn look(&self, alloc: Global, stored: &Stored) -> Result<Seen, TrialError> {
        let mut run = Run::over(alloc, stored.copy(alloc)?);
        run.go_on(alloc, self.acts, self.then)?;
        Ok(Seen {
            stored: stored.copy(alloc)?,
            then: run.told,
        })
    }

    // The outcome that has this text, where such files are left. What the same bytes tell is looked at once.
    fn outcome(
        &self,
        alloc: Global,
        seen: &mut Vec<Seen>,
        told: &[u8],
        stored: &Stored,
    ) -> Result<Option<usize>, TrialError> {
        if let Some(it) = seen_of(seen.as_slice(), stored) {
            return Ok(place(self.outcomes, told, it.then.as_slice()));
        }
        let it = self.look(alloc, stored)?;
        let at = place(self.outcomes, told, it.then.as_slice());
        seen.push(it)?;
        Ok(at)
    }

    // What came of it where that was done.
    fn came_of(
        &self,
        alloc: Global,
        seen: &mut Vec<Seen>,
        done: &Done,
    ) -> Result<Came, TrialError> {
        let told = done.told.as_slice();
        let of_kept = self.outcome(alloc, seen, told, &done.rest.kept)?;
        let of_lost = self.outcome(alloc, seen, told, &done.rest.lost)?;
        Ok(Came {
            of_kept,
            of_lost,
            refused: done.rest.refused,
        })
    }

    // What comes of it where these calls are refused.
    fn came(&self, alloc: Global, seen: &mut Vec<Seen>, fate: &Fate) -> Result<Came, TrialError> {
        let done = do_at(alloc, self.acts, self.base, fate, &self.first)?;
        self.came_of(alloc, seen, &done)
    }

    // Refuses each call in turn, until a run ends without a refused one.
    fn each_call_with(
        &self,
        alloc: Global,
        seen: &mut Vec<Seen>,
        how: &How,
    ) -> Result<Found, TrialError> {
        let mut found = Found {
            calls: 0,
            kept: NEVER,
            lost: NEVER,
        };
        for calls in 0..10_000u64 {
            let came = self.came(alloc, seen, &how.fate(calls))?;
            found.note(&came);
            if !came.refused {
                return Ok(found);
            }
        }
        Err(TrialError::Endless)
    }

    // Looks at a stop at each call, where nothing was looked at yet.
    fn each_call(&self, alloc: Global, how: &How) -> Result<Found, TrialError> {
        let mut seen = Vec::new(alloc);
        self.each_call_with(alloc, &mut seen, how)
    }

    // Tells how often each outcome came.
    fn tell(
        &self,
        text: &mut Vec<u8>,
        words: &str,
        how: &str,
        tally: &Tally,
    ) -> Result<(), TrialError> {
        let ins = tally.of(self.outcomes, "in");
        let outs = tally.of(self.outcomes, "out");
        let name = self.name;
        let otherwise = tally.otherwise;
        writeln!(
            text,
            "{name}, {words}, {how}: in {ins}, out {outs}, otherwise {otherwise}"
        )?;
        for (outcome, count) in self.outcomes.iter().zip(tally.counts.as_slice()) {
            writeln!(text, "    {count} {}", outcome.name)?;
        }
        Ok(())
    }

    // Tells what comes of it where a file stops at each call, and what wasn't synced is lost, or all that was written is kept.
    fn tell_stops(
        &self,
        alloc: Global,
        text: &mut Vec<u8>,
        of_log: bool,
    ) -> Result<(), TrialError> {
        let how = How {
            of_log,
            refuses: u64::MAX,
        };
        let found = self.each_call(alloc, &how)?;
        let (file, calls) = (file(of_log), found.calls);
        let words = format!(in alloc; "the {file} stops at each of {calls} calls")?;
        self.tell(
            text,
            words.as_str(),
            "what wasn't synced is lost",
            &found.lost,
        )?;
        self.tell(
            text,
            words.as_str(),
            "what was written is kept",
            &found.kept,
        )
    }

    // Tells what comes of it where one call of a file is refused.
    fn tell_refusals(
        &self,
        alloc: Global,
        text: &mut Vec<u8>,
        of_log: bool,
    ) -> Result<(), TrialError> {
        let how = How { of_log, refuses: 1 };
        let found = self.each_call(alloc, &how)?;
        let (file, calls) = (file(of_log), found.calls);
        let words = format!(in alloc; "each of {calls} calls of the {file} is refused once")?;
        self.tell(text, words.as_str(), "the files stay", &found.kept)
    }

    // Tells what comes of it, of each of both files.
    fn told(&self, alloc: Global, kind: Kind) -> Result<Vec<u8>, TrialError> {
        let mut text = Vec::new(alloc);
        for of_log in [true, false] {
            match kind {
                Kind::Stops => self.tell_stops(alloc, &mut text, of_log)?,
                Kind::Refusals => self.tell_refusals(alloc, &mut text, of_log)?,
            }
        }
        Ok(text)
    }
}

// The name of a file.
fn file(of_log: bool) -> &'static str {
    if of_log { "log" } else { "database file" }
}

/// What comes of a trial that a text is, where calls of each of both files are refused: how often each outcome came. A run without a refused
/// call has to come to the first one.
pub fn trial_told<A: Acts>(
    alloc: Global,
    acts: &A,
    kind: Kind,
    name: &str,
    text: &str,
) -> Result<Vec<u8>, TrialError> {
    let parts = split(text);
    let base = base(alloc, acts, parts.before)?;
    let then = deeds(alloc, parts.then)?;
    let outcomes = outcomes(alloc, parts.outcomes)?;
    let trial = Trial {
        acts,
        name,
        base: &base,
        first: deed_of(parts.first),
        then: then.as_slice(),
        outcomes: outcomes.as_slice(),
    };
    trial.told(alloc, kind)
}
