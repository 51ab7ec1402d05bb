//! Deeds one after another, over a shop's files.

use crate::deed::{Acted, Acts, Deed, deeds};
use crate::error::TrialError;
use crate::refusing::Refusing;
use crate::stored::{Fate, InMemory, Opens, Rest, Stored, WELL};
use sqlite::{Alter, Connection, FileStore};
use sqlite_disk::Memory;
use std::alloc::Global;
use std::io::Write;

/// What is told of a deed, and what the disks leave.
#[derive(Drop)]
pub(crate) struct Done {
    pub(crate) told: Vec<u8>,
    pub(crate) rest: Rest,
}

// Both, where there are both.
fn both(
    told: Result<Vec<u8>, TrialError>,
    rest: Result<Rest, TrialError>,
) -> Result<Done, TrialError> {
    match (told, rest) {
        (Ok(told), Ok(rest)) => Ok(Done { told, rest }),
        (Err(error), _) | (_, Err(error)) => Err(error),
    }
}

// What is told where the files aren't opened.
fn unopened(alloc: Global) -> Result<Vec<u8>, TrialError> {
    Ok(b"not opened\n".to_vec(alloc)?)
}

// Opens these files, so that these calls of them are refused, does something with the shop in them, and closes them.
fn do_with<S: Alter + Drop, F: Opens<Connection<S>>, A: Acts>(
    alloc: Global,
    files: &F,
    acts: &A,
    stored: &Stored,
    fate: &Fate,
    deed: &Deed<'_>,
) -> Result<Done, TrialError> {
    match files.open(alloc, stored, fate) {
        Ok(Ok(connection)) => {
            let Acted { connection, told } = acts.act(alloc, connection, deed);
            both(told, files.close(alloc, connection))
        }
        Ok(Err(rest)) => both(unopened(alloc), Ok(rest)),
        Err(error) => Err(error),
    }
}

/// Does a deed on disks in memory.
pub(crate) fn do_at<A: Acts>(
    alloc: Global,
    acts: &A,
    stored: &Stored,
    fate: &Fate,
    deed: &Deed<'_>,
) -> Result<Done, TrialError> {
    do_with::<FileStore<Refusing<Memory>>, InMemory, A>(alloc, &InMemory, acts, stored, fate, deed)
}

/// A shop's files after deeds, and what is told of these.
#[derive(Drop)]
pub(crate) struct Run {
    pub(crate) stored: Stored,
    pub(crate) told: Vec<u8>,
}

impl Run {
    /// No deed yet, over these files.
    pub(crate) fn over(alloc: Global, stored: Stored) -> Run {
        Run {
            stored,
            told: Vec::new(alloc),
        }
    }

    // Does one more, where no call is refused.
    fn go<A: Acts>(&mut self, alloc: Global, acts: &A, deed: &Deed<'_>) -> Result<(), TrialError> {
        let done = do_at(alloc, acts, &self.stored, &WELL, deed)?;
        self.take(done)
    }

    // Takes what was done.
    fn take(&mut self, done: Done) -> Result<(), TrialError> {
        let Done { told, rest } = done;
        self.told.extend_from_slice(told.as_slice())?;
        self.stored = rest.kept;
        Ok(())
    }

    /// Does these, one after another.
    pub(crate) fn go_on<A: Acts>(
        &mut self,
        alloc: Global,
        acts: &A,
        deeds: &[Deed<'_>],
    ) -> Result<(), TrialError> {
        for deed in deeds {
            self.go(alloc, acts, deed)?;
        }
        Ok(())
    }

    // Does what spoils the files, and tells what an opening tells then. The files are as they were before.
    fn go_and_back<A: Acts>(
        &mut self,
        alloc: Global,
        acts: &A,
        deed: &Deed<'_>,
    ) -> Result<(), TrialError> {
        let spoilt = do_at(alloc, acts, &self.stored, &WELL, deed)?;
        let opened = do_at(alloc, acts, &spoilt.rest.kept, &WELL, &OPEN)?;
        self.told.extend_from_slice(opened.told.as_slice())?;
        Ok(())
    }

    // Does one more, and tells its line before and a line's end behind.
    fn go_aloud<A: Acts>(
        &mut self,
        alloc: Global,
        acts: &A,
        deed: &Deed<'_>,
    ) -> Result<(), TrialError> {
        writeln!(self.told, "-- {}", deed.line)?;
        if deed.verb == "spoil" {
            self.go_and_back(alloc, acts, deed)?;
        } else {
            self.go(alloc, acts, deed)?;
        }
        self.told.push(b'\n')?;
        Ok(())
    }

    // Does these so, one after another.
    fn go_on_aloud<A: Acts>(
        &mut self,
        alloc: Global,
        acts: &A,
        deeds: &[Deed<'_>],
    ) -> Result<(), TrialError> {
        for deed in deeds {
            self.go_aloud(alloc, acts, deed)?;
        }
        Ok(())
    }
}

// The file is opened.
const OPEN: Deed<'static> = Deed {
    line: "open",
    verb: "open",
    word: "",
    text: "",
};

/// What is told of the deeds that a text lists, one after another over no files: of each its line, and what it tells; of what spoils the
/// files, what an opening tells then. Files that were spoilt are as they were before.
pub fn run_told<A: Acts>(alloc: Global, acts: &A, text: &str) -> Result<Vec<u8>, TrialError> {
    let all = deeds(alloc, text)?;
    let mut run = Run::over(alloc, Stored::none(alloc));
    run.go_on_aloud(alloc, acts, all.as_slice())?;
    Ok(run.told)
}
