//! What is read of a system's clock and its chance.

use std::fmt::Display;
use std::io;
use std::io::{Eprint, ErrorKind, Print};
use std::random::RandomSource;
use std::time::{Clock, Duration};
use web_cli::Console;
use web_server::read_tick;

/// A system whose clock shows so many seconds since 1970, or can't be read. Its chance gives the bytes 1 to 16, or nothing.
#[derive(Clone, Copy)]
pub(crate) struct Shown {
    seconds: u64,
    error: Option<ErrorKind>,
    gives: bool,
}

impl Clock for Shown {
    fn monotonic(&self) -> io::Result<Duration> {
        Ok(Duration::from_secs(0))
    }

    fn since_1970(&self) -> io::Result<Duration> {
        match self.error {
            None => Ok(Duration::from_secs(self.seconds)),
            Some(kind) => Err(io::Error::from(kind)),
        }
    }
}

impl RandomSource for Shown {
    fn fill_bytes(&self, buf: &mut [u8]) -> io::Result<()> {
        if !self.gives {
            return Err(io::Error::from(ErrorKind::Unsupported));
        }
        let mut next = 1u8;
        for byte in buf.iter_mut() {
            *byte = next;
            next = next.wrapping_add(1);
        }
        Ok(())
    }
}

// Nobody reads what it prints.
impl Print for Shown {
    fn print<D: Display + Drop>(&self, _value: D) -> io::Result<()> {
        Ok(())
    }

    fn println<D: Display + Drop>(&self, _value: D) -> io::Result<()> {
        Ok(())
    }

    fn write_all(&self, _bytes: &[u8]) -> io::Result<()> {
        Ok(())
    }
}

impl Eprint for Shown {
    fn eprint<D: Display + Drop>(&self, _value: D) -> io::Result<()> {
        Ok(())
    }

    fn eprintln<D: Display + Drop>(&self, _value: D) -> io::Result<()> {
        Ok(())
    }
}

impl Console for Shown {
    fn has_reader(&self) -> bool {
        false
    }
}

// Prints the moment and the draw that are read of a system.
fn show(rt: &HostRuntime, name: &str, system: &Shown) -> anyhow::Result<()> {
    match read_tick(system) {
        Some(tick) => {
            let draw = u128::from_be_bytes(tick.draw.bytes);
            println!(rt; "{name}: moment {}, draw {draw}", tick.clock.get())?
        }
        None => println!(rt; "{name}: none")?,
    }
    Ok(())
}

/// A system whose clock shows so many seconds since 1970.
pub(crate) fn at(seconds: u64) -> Shown {
    Shown {
        seconds,
        error: None,
        gives: true,
    }
}

// A system whose clock can't be read for this.
fn unread(kind: ErrorKind) -> Shown {
    Shown {
        seconds: 0,
        error: Some(kind),
        gives: true,
    }
}

/// Prints what is read of clocks before, within and beyond the moments, and of ones that can't be read.
pub(crate) fn show_clocks(rt: &HostRuntime) -> anyhow::Result<()> {
    show(rt, "before 1970", &unread(ErrorKind::InvalidData))?;
    show(rt, "at the first moment", &at(0))?;
    show(rt, "at a moment", &at(1_777_629_600))?;
    show(rt, "at the last moment", &at(253_370_764_799))?;
    show(rt, "beyond the last moment", &at(253_370_764_800))?;
    show(rt, "unreadable", &unread(ErrorKind::InvalidInput))?;
    let mut system = at(0);
    system.gives = false;
    show(rt, "without chance", &system)
}
