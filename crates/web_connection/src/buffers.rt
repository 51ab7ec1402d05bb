//! The room of a connection.

ghost use Rattle.std.specs.Prelude.{◌≡◌, [], IfOk, length, replicate};

use std::alloc::{AllocError, Global};
use web_http::frames::Frames;

/// The most bytes that one call of the reader gives.
const MOST: usize = 65536;

/// Room for what one call of a reader gives.
#[derive(Drop)]
pub struct ReadBuffer {
    /// Its bytes.
    pub bytes: Vec<u8>,
    ghost size: { length bytes.items ≡ 65536 },
}

/// The room of a connection: what came and is not yet taken, and what one call of the reader gives. It is made once, and
/// serves one connection after another.
#[derive(Drop)]
pub struct Buffers {
    pub(crate) frames: Frames,
    pub(crate) input: ReadBuffer,
}

/// As many bytes of 0, as room for what a read gives.
pub fn blank(alloc: Global, size: usize) -> Result<Vec<u8>, AllocError>
    ensures { IfOk result (λ v. v.items ≡ replicate size 0) }
{
    vec![in alloc; 0u8; size]
}

impl ReadBuffer {
    /// A read buffer of 65,536 bytes.
    pub fn new(alloc: Global) -> Result<ReadBuffer, AllocError>
        ensures { IfOk result (λ input. length input.bytes.items ≡ 65536) }
    {
        let bytes = blank(alloc, MOST)?;
        Ok(ReadBuffer { bytes })
    }
}

impl Buffers {
    /// Room for the connections that come. Nothing has come yet.
    pub fn new(alloc: Global) -> Result<Buffers, AllocError>
        ensures { IfOk result (λ buffers. buffers.frames.left ≡ []) }
    {
        let frames = Frames::new(alloc)?;
        let input = ReadBuffer::new(alloc)?;
        Ok(Buffers { frames, input })
    }
}
