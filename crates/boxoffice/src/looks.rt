//! A look at a file before the store opens it, which would write to it; and files that are made.

use app_files::{begins_as_database, finds_mark};
use std::fs::OpenOptions;
use std::io::Read;
use std::os::unix::fs::OpenOptionsExt;
use std::{fs, io};

// Whether a file begins as a database. Reads 16 bytes, or all where there are fewer.
fn begins(file: &mut fs::File) -> io::Result<bool> {
    let mut head = [0; 16];
    match file.read_exact(&mut head) {
        Ok(()) => Ok(begins_as_database(&head)),
        Err(error) if error.kind() == io::ErrorKind::UnexpectedEof => Ok(false),
        Err(error) => Err(error),
    }
}

// Whether a file is a database that has, behind what each one begins with, the mark of a shop's table.
fn is_marked(rt: &HostRuntime, name: &str) -> io::Result<bool> {
    let mut file = fs::open(rt, name)?;
    Ok(begins(&mut file)? && finds_mark(&mut file)?)
}

// Whether the log of this name has that mark. There may be no such log.
fn is_log_marked(rt: &HostRuntime, name: &str) -> io::Result<bool> {
    match fs::metadata(rt, name) {
        Ok(found) if found.is_file() => finds_mark(&mut fs::open(rt, name)?),
        Ok(_) => Ok(false),
        Err(error) if error.kind() == io::ErrorKind::NotFound => Ok(false),
        Err(error) => Err(error),
    }
}

// Whether the file of this name, or its log, may have a shop's tables.
fn may_be_shop(rt: &HostRuntime, name: &str) -> io::Result<bool> {
    let file = fs::canonicalize(rt, name)?;
    if is_marked(rt, file.as_str())? {
        return Ok(true);
    }
    let log = format!(in rt.alloc(); "{}-wal", file.as_str())?;
    is_log_marked(rt, log.as_str())
}

/// Whether the bytes of a file and of its log show that no shop is in them. Where they can't be read they show nothing: the store says why.
pub(crate) fn is_strange(rt: &HostRuntime, name: &str) -> bool {
    match may_be_shop(rt, name) {
        Ok(may_be) => !may_be,
        Err(_) => false,
    }
}

/// Makes an empty file which its owner alone may read and write; its log takes that mode. Where this fails, the store says why.
pub(crate) fn make_private(rt: &HostRuntime, name: &str) {
    let _ = OpenOptions::new()
        .read(true)
        .write(true)
        .create_new(true)
        .mode(0o600)
        .open(rt, name);
}
