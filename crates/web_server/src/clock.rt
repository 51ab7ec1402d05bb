//! The ticks of a shop that is served: the system's clock and its draws.

ghost use Rattle.std.specs.Prelude.{◌≡◌, ⊤, ℕ, List, Option, Some, None, Result, OnOk, OnErr};
ghost use Rattle.std.specs.declared.io.Error.{Error};
ghost use Rattle.std.specs.declared.time.Duration.{Duration};
ghost use Rattle.web_server.specs.Clock.{IsDrawn, IsRead, moment_shown};

use base_devices::{Refused, Tick, Ticks};
use base_values::{Draw, Moment, Steps};
use std::io;
use std::io::ErrorKind;
use std::random::RandomSource;
use std::sync::ledger::Ledger;
use std::time::{Clock, Duration};

/// A system with a clock and chance. std promises nothing of either; here what a call gave has a name, and whoever is handed a system
/// can't have it from elsewhere.
pub trait System {
    // what its clock may show: the time since 1970, or why it can't be read
    ghost shows: { Result Duration Error → Type 0 };

    // which bytes its chance may give, or none
    ghost gives: { Option (List ℕ) → Type 0 };

    /// What its clock shows.
    fn show_clock(&self) -> io::Result<Duration>
        ensures { shows result };

    /// Fills all of these bytes by chance.
    fn fill(&self, bytes: &mut [u8]) -> io::Result<()>
        ensures filled { OnOk result (gives (Some bytes.new)) }
        ensures refused { OnErr result (gives None) };
}

impl<O: Clock + RandomSource> System for O {
    ghost shows = { λ _. ⊤ };

    ghost gives = { λ _. ⊤ };

    fn show_clock(&self) -> io::Result<Duration> {
        self.since_1970()
    }

    fn fill(&self, bytes: &mut [u8]) -> io::Result<()> {
        self.fill_bytes(bytes)
    }
}

/// The system's clock and its draws, as the ticks of a shop.
#[derive(Drop)]
pub struct ClockTicks<'a, O, M: Ledger> {
    /// The system.
    pub rt: &'a O,
    /// How many calls failed: those where the clock can't be read, or gives no draw.
    pub failures: Steps<M>,
}

// The moment of what the clock shows.
pub(crate) fn moment_shown(shown: io::Result<Duration>) -> Option<Moment>
    ensures { result ≡ moment_shown shown }
{
    match shown {
        Ok(since) => Some(Moment::new(0).later(since.as_secs())),
        Err(error) => match error.kind() {
            ErrorKind::InvalidData => Some(Moment::new(0)),
            _ => None,
        },
    }
}

// Sixteen bytes by chance.
fn read_draw<O: System>(rt: &O) -> Option<Draw>
    ensures { IsDrawn O.gives result }
{
    let mut bytes = [0; 16];
    match rt.fill(&mut bytes) {
        Ok(()) => Some(Draw { bytes }),
        Err(_) => None,
    }
}

/// What the system's clock shows, and sixteen bytes by its chance. A clock before 1970 is moment 0, one beyond the last moment is that
/// one. None where the clock can't be read, or chance gives nothing.
pub fn read_tick<O: System>(rt: &O) -> Option<Tick>
    ensures { IsRead O.shows O.gives result }
{
    let clock = moment_shown(rt.show_clock())?;
    let draw = read_draw(rt)?;
    Some(Tick { clock, draw })
}

impl<O: System, M: Ledger> Ticks for ClockTicks<'_, O, M> {
    ghost reported = { λ _. None };

    ghost reads = { IsRead O.shows O.gives };

    ghost failures = { λ t. t.failures };

    fn tick(&mut self) -> Result<Tick, Refused> {
        match read_tick(self.rt) {
            Some(tick) => Ok(tick),
            None => {
                self.failures.tick();
                Err(Refused)
            }
        }
    }
}
