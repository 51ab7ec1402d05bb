//! An input without end.

ghost use Rattle.std.specs.Prelude.{◌≡◌};

use std::io;
use std::io::Read;

/// What comes again and again.
pub const REQUEST: &[u8] = b"GET /x HTTP/1.1\r\n\r\n";

/// The request again and again, a byte a call.
#[derive(Drop)]
pub struct Repeated {
    at: usize,
}

impl Repeated {
    /// From the first byte on.
    pub fn new() -> Self
        ensures { result.at ≡ 0 }
    {
        Repeated { at: 0 }
    }
}

impl Read for Repeated {
    fn read(&mut self, buf: &mut [u8]) -> io::Result<usize> {
        if buf.is_empty() {
            return Ok(0);
        }
        let at = self.at % REQUEST.len();
        buf[0] = REQUEST[at];
        self.at = at + 1;
        Ok(1)
    }
}
