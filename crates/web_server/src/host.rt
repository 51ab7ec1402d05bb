//! What a server is opened on.

ghost use Rattle.std.specs.Prelude.{◌≡◌};

use crate::log::Log;
use std::alloc::Global;

/// What a server is opened on: the system whose clock it reads, its memory, and where it tells of its requests and connections.
#[derive(Drop)]
pub struct Host<'a, R> {
    pub(crate) rt: &'a R,
    pub(crate) alloc: Global,
    pub(crate) log: &'a Log<'a, R>,
}

impl<'a, R> Host<'a, R> {
    /// Of a system, memory and a log.
    pub fn new(rt: &'a R, alloc: Global, log: &'a Log<'a, R>) -> Host<'a, R>
        ensures alloc { result.alloc ≡ alloc }
    {
        Host { rt, alloc, log }
    }
}
