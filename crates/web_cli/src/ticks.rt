//! The ticks of `feed`, which take no clock and no chance.

ghost use Rattle.std.specs.Prelude.{◌≡◌, ◌<◌, ⊤, ℕ, Some};
ghost use Rattle.web_cli.specs.FeedTicks.{feed_ticks};

use base_devices::device::{Refused, Tick, Ticks};
use base_values::draw::Draw;
use base_values::moment::Moment;
use base_values::steps::Steps;
use std::marker::{Brand, PhantomData};
use std::sync::ledger::Ledger;

/// When requests come, as a type, so that no call can change it.
pub trait Pace {
    // the moment of the first tick
    ghost from: { ℕ };

    // the seconds from one tick to the next
    ghost step: { ℕ };
}

impl Pace for Brand {
    ghost from = { 0 };

    ghost step = { 0 };
}

/// Ticks that follow one another by the same number of seconds, with draws that count from 1.
#[derive(Drop)]
pub struct FeedTicks<P: Pace, M: Ledger> {
    /// The moment of the first tick.
    pub from: Moment,
    /// The seconds from one tick to the next.
    pub step: u64,
    /// How many were reported.
    pub reported: u64,
    /// How many calls failed: those after the last number of a `u64`.
    pub failures: Steps<M>,
    /// When requests come.
    pub pace: PhantomData<P>,
    ghost begins: { from ≡ P.from },
    ghost goes_on: { step ≡ P.step },
    ghost at_end: { 0 < failures → reported ≡ 18446744073709551615 },
}

impl<P: Pace, M: Ledger> Ticks for FeedTicks<P, M> {
    ghost reported = { λ t. Some (feed_ticks P.from P.step t.reported) };

    ghost reads = { λ _. ⊤ };

    ghost failures = { λ t. t.failures };

    fn tick(&mut self) -> Result<Tick, Refused> {
        let Some(number) = self.reported.checked_add(1) else {
            self.failures.tick();
            return Err(Refused);
        };
        let clock = self.from.later(self.reported.saturating_mul(self.step));
        let draw = Draw {
            bytes: (number as u128).to_be_bytes(),
        };
        self.reported = number;
        Ok(Tick { clock, draw })
    }
}
