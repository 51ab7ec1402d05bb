//! A disk that refuses some of its calls.

ghost use Rattle.std.specs.Prelude.{◌≡◌, ◌+◌, ◌&&◌, not, false};
ghost use Rattle.sqlite_disk.specs.Disk.{CountsFault};
ghost use Rattle.sqlite_disk.specs.Refusal.{finds_no_room};

use sqlite_disk::{Disk, Tally};
use std::io;

/// Which calls of a disk are refused: so many pass first, and so many are refused then. Those behind them pass.
#[derive(Clone, Copy)]
pub(crate) struct Refusals {
    pub(crate) passes: u64,
    pub(crate) refuses: u64,
}

/// None is refused.
pub(crate) const NONE: Refusals = Refusals {
    passes: 0,
    refuses: 0,
};

/// A disk that passes its calls on to another one, and refuses some. A call that is refused changes nothing. Behind a sync that was refused
/// nothing may be asked of it, as of any disk.
#[derive(Drop)]
pub(crate) struct Refusing<D: Disk> {
    inner: D,
    passes: u64,
    refuses: u64,
    refused: u64,
    sync_refused: bool,
}

impl<D: Disk> Refusing<D> {
    ghost use Rattle.std.specs.Prelude.{false};

    /// A disk over this one.
    pub(crate) fn new(inner: D, refusals: Refusals) -> Refusing<D>
        ensures inner { result.inner ≡ inner }
        ensures usable { result.sync_refused ≡ false }
    {
        Refusing {
            inner,
            passes: refusals.passes,
            refuses: refusals.refuses,
            refused: 0,
            sync_refused: false,
        }
    }

    /// The disk below, and whether a call was refused.
    pub(crate) fn into_inner(self) -> (D, bool) {
        let Refusing {
            inner,
            passes: _,
            refuses: _,
            refused,
            sync_refused: _,
        } = self;
        (inner, refused > 0)
    }
}

// Counts a call, which passes or is refused.
fn pass(passes: &mut u64, refuses: &mut u64, refused: &mut u64) -> io::Result<()>
    ensures faults { CountsFault result refused.old refused.new }
    ensures kind { finds_no_room result ≡ false }
{
    if *passes > 0 {
        *passes -= 1;
        return Ok(());
    }
    if *refuses == 0 {
        return Ok(());
    }
    *refuses -= 1;
    *refused = refused.saturating_add(1);
    Err(io::Error::other("the call is refused"))
}

impl<D: Disk> Disk for Refusing<D> {
    ghost seen = { λ f. D.Disk.seen f.inner };

    ghost may_leave = { λ f. D.Disk.may_leave f.inner };

    ghost is_usable = { λ f. D.Disk.is_usable f.inner && not f.sync_refused };

    ghost faults = { λ f. D.Disk.faults f.inner + f.refused };

    ghost tally_of = { λ f. D.Disk.tally_of f.inner };

    ghost is_rotten = { λ f. D.Disk.is_rotten f.inner };

    ghost key_of = { λ f. D.Disk.key_of f.inner };

    ghost is_clean = { λ f. D.Disk.is_clean f.inner };

    ghost is_fair = { λ f. D.Disk.is_fair f.inner };

    ghost fair_if_clean = { λ f. D.Disk.fair_if_clean f.inner };

    ghost seen_may_stay = { λ f. D.Disk.seen_may_stay f.inner };

    ghost is_mixing = { λ f. D.Disk.is_mixing f.inner };

    fn mixes(&self) -> bool {
        self.inner.mixes()
    }

    fn key(&self) -> u64 {
        self.inner.key()
    }

    fn tally(&self) -> Tally {
        self.inner.tally()
    }

    fn may_be_used(&self) -> bool {
        self.inner.may_be_used() && !self.sync_refused
    }

    fn len(&mut self) -> io::Result<usize> {
        pass(&mut self.passes, &mut self.refuses, &mut self.refused)?;
        self.inner.len()
    }

    fn read_at(&mut self, at: usize, buf: &mut [u8]) -> io::Result<()> {
        pass(&mut self.passes, &mut self.refuses, &mut self.refused)?;
        self.inner.read_at(at, buf)
    }

    fn read_checked(&mut self, key: u64, want: u64, at: usize, buf: &mut [u8]) -> io::Result<()> {
        pass(&mut self.passes, &mut self.refuses, &mut self.refused)?;
        self.inner.read_checked(key, want, at, buf)
    }

    fn write_at(&mut self, at: usize, bytes: &[u8]) -> io::Result<()> {
        pass(&mut self.passes, &mut self.refuses, &mut self.refused)?;
        self.inner.write_at(at, bytes)
    }

    fn set_len(&mut self, len: usize) -> io::Result<()> {
        pass(&mut self.passes, &mut self.refuses, &mut self.refused)?;
        self.inner.set_len(len)
    }

    fn sync(&mut self) -> io::Result<()> {
        if let Err(error) = pass(&mut self.passes, &mut self.refuses, &mut self.refused) {
            self.sync_refused = true;
            return Err(error);
        }
        self.inner.sync()
    }
}
