//! Any reader or writer of std as a device that counts its calls and failures.
ghost use Rattle.std.specs.Prelude.{◌≡◌};

use crate::device::{Drain, Refused, Source};
use base_values::Steps;
use std::io::{Read, Write};
use std::sync::ledger::Ledger;

/// A reader or writer of std, with its counts.
#[derive(Drop)]
pub struct Device<X, L: Ledger, M: Ledger> {
    pub inner: X,
    pub calls: Steps<L>,
    pub failures: Steps<M>,
}

impl<X: Read, L: Ledger, M: Ledger> Source for Device<X, L, M> {
    ghost left = { λ w. X.remaining w.inner };

    ghost calls = { λ w. w.calls };

    ghost failures = { λ w. w.failures };

    fn read(&mut self, buffer: &mut [u8]) -> Result<usize, Refused> {
        self.calls.tick();
        match self.inner.read(buffer) {
            Ok(n) => Ok(n),
            Err(_) => {
                self.failures.tick();
                Err(Refused)
            }
        }
    }
}

impl<X: Write, L: Ledger, M: Ledger> Drain for Device<X, L, M> {
    ghost taken = { λ w. X.contents w.inner };

    ghost failures = { λ w. w.failures };

    fn write(&mut self, bytes: &[u8]) -> Result<usize, Refused> {
        self.calls.tick();
        match self.inner.write(bytes) {
            Ok(0) => {
                self.failures.tick();
                Err(Refused)
            }
            Ok(n) => Ok(n),
            Err(_) => {
                self.failures.tick();
                Err(Refused)
            }
        }
    }
}
