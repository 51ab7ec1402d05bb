//! A connection over memory, which goes as a script says.

ghost use Rattle.std.specs.Prelude.{◌≡◌, ◌≤◌, ◌++◌, [], Some, Ok, length, take, min, IfOk, OnErr};
ghost use Rattle.base_devices.specs.Reported.{Adds, AddsSoMany};
ghost use Rattle.web_sockets.specs.Reads.{Reads};
ghost use Rattle.web_sockets.specs.Scripts.{came_of, limit_of, rest_of};

use crate::ends::{Awaited, Came, Ends};
use base_devices::Refused;
use std::alloc::Global;

/// A connection over memory: what its caller sends, and what it was brought. Each read gives at most so many bytes, and each write takes at
/// most so many, as two lists say; 0 is nothing yet. Behind the end of a list nothing limits them.
#[derive(Drop)]
pub struct Script<'a> {
    /// What is still to come.
    pub bytes: &'a [u8],
    /// How many bytes each read that is still to come gives at most.
    pub reads: &'a [usize],
    /// How many bytes each write that is still to come takes at most.
    pub writes: &'a [usize],
    /// What was taken.
    pub taken: Vec<u8>,
}

// The first size of a list, and the others.
fn next_of(sizes: &[usize]) -> (usize, &[usize])
    ensures first { result.0 ≡ limit_of sizes.now }
    ensures others { result.1.now ≡ rest_of sizes.now }
{
    match sizes.split_first() {
        Some((first, others)) => (*first, others),
        None => (usize::MAX, sizes),
    }
}

impl<'a> Script<'a> {
    /// A connection of which nothing was read yet, and to which nothing was written.
    pub fn new(alloc: Global, bytes: &'a [u8], reads: &'a [usize], writes: &'a [usize]) -> Self
        ensures bytes { result.bytes.now ≡ bytes.now }
        ensures reads { result.reads.now ≡ reads.now }
        ensures writes { result.writes.now ≡ writes.now }
        ensures taken { result.taken.items ≡ [] }
    {
        Script {
            bytes,
            reads,
            writes,
            taken: Vec::new(alloc),
        }
    }

    // The first bytes that are still to come, into the front of a buffer.
    fn give(&mut self, buffer: &mut [u8], n: usize)
        requires room { n ≤ length buffer.old }
        requires there { n ≤ length self.old.bytes.now }
        ensures given { self.old.bytes.now ≡ take n buffer.new ++ self.new.bytes.now }
        ensures reads { self.new.reads.now ≡ self.old.reads.now }
        ensures writes { self.new.writes.now ≡ self.old.writes.now }
        ensures taken { self.new.taken.items ≡ self.old.taken.items }
    {
        buffer[..n].copy_from_slice(&self.bytes[..n]);
        self.bytes = &self.bytes[n..];
    }
}

impl Ends for Script<'_> {
    ghost left = { λ s. Some s.bytes.now };

    ghost taken = { λ s. Some s.taken.items };

    // A read gives nothing yet where it may give none, or has no room for any; else what there is, or the end.
    fn read(&mut self, buffer: &mut [u8]) -> Result<Came, Refused>
        ensures reads { Reads result
            (Some self.old.bytes.now) (Some self.new.bytes.now) buffer.new }
        ensures size { length buffer.new ≡ length buffer.old }
        ensures same { let before = Some self.old.taken.items in
            Some self.new.taken.items ≡ before }
        ensures came { result
            ≡ Ok (came_of (limit_of self.old.reads.now) (length buffer.old)
            (length self.old.bytes.now)) }
        ensures rest { self.new.reads.now ≡ rest_of self.old.reads.now }
        ensures writes { self.new.writes.now ≡ self.old.writes.now }
    {
        let (most, reads) = next_of(self.reads);
        self.reads = reads;
        let room = most.min(buffer.len());
        if room == 0 {
            return Ok(Came::Later);
        }
        let n = room.min(self.bytes.len());
        if n == 0 {
            return Ok(Came::End);
        }
        self.give(buffer, n);
        Ok(Came::Bytes(n))
    }

    // A write takes as many as it may.
    fn write(&mut self, bytes: &[u8]) -> Result<usize, Refused>
        ensures fits { IfOk result (λ n. n ≤ length bytes.now) }
        ensures many { IfOk result
            (λ n. n ≡ min (limit_of self.old.writes.now) (length bytes.now)) }
        ensures taken { AddsSoMany result (Some self.old.taken.items) bytes.now
            (Some self.new.taken.items) }
        ensures kept { OnErr result
            (Adds (Some self.old.taken.items) [] (Some self.new.taken.items)) }
        ensures same { let before = Some self.old.bytes.now in Some self.new.bytes.now ≡ before }
        ensures rest { self.new.writes.now ≡ rest_of self.old.writes.now }
        ensures reads { self.new.reads.now ≡ self.old.reads.now }
    {
        let (most, writes) = next_of(self.writes);
        self.writes = writes;
        let n = most.min(bytes.len());
        match self.taken.extend_from_slice(&bytes[..n]) {
            Ok(()) => Ok(n),
            Err(_) => Err(Refused),
        }
    }

    fn wait_for(&mut self, awaited: Awaited) -> Result<(), Refused> {
        Ok(())
    }
}
