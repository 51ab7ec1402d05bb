//! A shop's files: as bytes at rest, and on disks in memory while they are open.

use crate::error::TrialError;
use crate::refusing::{NONE, Refusals, Refusing};
use sqlite::{Connection, FileStore, Files, Options};
use sqlite_disk::{Crash, Disk, Memory};
use std::alloc::{AllocError, Global};
use std::io;

/// The bytes of a shop's files.
#[derive(Drop, PartialEq, Eq)]
pub(crate) struct Stored {
    log: Vec<u8>,
    db: Vec<u8>,
}

impl Stored {
    /// No file.
    pub(crate) fn none(alloc: Global) -> Stored {
        Stored {
            log: Vec::new(alloc),
            db: Vec::new(alloc),
        }
    }

    /// A copy.
    pub(crate) fn copy(&self, alloc: Global) -> Result<Stored, AllocError> {
        copied(alloc, self.log.as_slice(), self.db.as_slice())
    }
}

// Files of these bytes.
fn copied(alloc: Global, log: &[u8], db: &[u8]) -> Result<Stored, AllocError> {
    let log = log.to_vec(alloc)?;
    let db = db.to_vec(alloc)?;
    Ok(Stored { log, db })
}

/// Which calls of a shop's files are refused while they are open.
#[derive(Clone, Copy)]
pub(crate) struct Fate {
    pub(crate) log: Refusals,
    pub(crate) db: Refusals,
}

/// None is refused.
pub(crate) const WELL: Fate = Fate {
    log: NONE,
    db: NONE,
};

/// What the disks of a shop's files leave: all that was written, what is left of it where the machine stops and all that wasn't synced is
/// lost, and whether a call was refused.
#[derive(Drop)]
pub(crate) struct Rest {
    pub(crate) kept: Stored,
    pub(crate) lost: Stored,
    pub(crate) refused: bool,
}

/// What opens a shop's files, and closes them.
pub(crate) trait Opens<C> {
    /// Opens these files, so that these calls of them are refused. Where that fails, what is left of them.
    fn open(
        &self,
        alloc: Global,
        stored: &Stored,
        fate: &Fate,
    ) -> Result<Result<C, Rest>, TrialError>;

    /// Closes files: the log is copied into the database file, as far as the disks let it. What is left of them.
    fn close(&self, alloc: Global, connection: C) -> Result<Rest, TrialError>;
}

/// The disks of a shop's files in memory.
pub(crate) type Disks = Files<Refusing<Memory>>;

/// What opens files in memory.
#[derive(Clone, Copy)]
pub(crate) struct InMemory;

// A disk with these bytes.
fn disk(alloc: Global, bytes: &[u8], refusals: Refusals) -> io::Result<Refusing<Memory>> {
    let mut memory = Memory::new(alloc);
    if !bytes.is_empty() {
        memory.write_at(0, bytes)?;
        memory.sync()?;
    }
    Ok(Refusing::new(memory, refusals))
}

// The disks of these files.
fn on_disks(alloc: Global, stored: &Stored, fate: &Fate) -> io::Result<Disks> {
    let log = disk(alloc, stored.log.as_slice(), fate.log)?;
    let db = disk(alloc, stored.db.as_slice(), fate.db)?;
    Ok(Files { log, db })
}

// What these disks leave.
fn rest_of(
    alloc: Global,
    log: &mut Memory,
    db: &mut Memory,
    refused: bool,
) -> Result<Rest, AllocError> {
    let kept = copied(alloc, log.bytes(), db.bytes())?;
    log.crash();
    db.crash();
    let lost = copied(alloc, log.bytes(), db.bytes())?;
    Ok(Rest {
        kept,
        lost,
        refused,
    })
}

// What disks leave.
fn left(alloc: Global, disks: Disks) -> Result<Rest, AllocError> {
    let Files { log, db } = disks;
    let (mut log, log_refused) = log.into_inner();
    let (mut db, db_refused) = db.into_inner();
    rest_of(alloc, &mut log, &mut db, log_refused || db_refused)
}

// Opens files. Where that fails they are given back.
fn opened<D: Disk + Drop>(
    alloc: Global,
    files: Files<D>,
) -> Result<Connection<FileStore<D>>, Files<D>> {
    if !files.may_be_used() {
        return Err(files);
    }
    match Connection::open_files(alloc, files, Options::new(1)) {
        Ok(connection) => Ok(connection),
        Err((_, left)) => Err(left.into_files()),
    }
}

// Closes files. Where the log can't be copied they are given back as they are.
fn closed<D: Disk + Drop>(connection: Connection<FileStore<D>>) -> Files<D> {
    match connection.close_files() {
        Ok(files) => files,
        Err((_, store)) => store.close(),
    }
}

impl Opens<Connection<FileStore<Refusing<Memory>>>> for InMemory {
    fn open(
        &self,
        alloc: Global,
        stored: &Stored,
        fate: &Fate,
    ) -> Result<Result<Connection<FileStore<Refusing<Memory>>>, Rest>, TrialError> {
        match opened(alloc, on_disks(alloc, stored, fate)?) {
            Ok(connection) => Ok(Ok(connection)),
            Err(files) => Ok(Err(left(alloc, files)?)),
        }
    }

    fn close(
        &self,
        alloc: Global,
        connection: Connection<FileStore<Refusing<Memory>>>,
    ) -> Result<Rest, TrialError> {
        Ok(left(alloc, closed(connection))?)
    }
}
