//! Readers, writers and clocks that tell what passed through them, and count their failures.

ghost use Rattle.std.specs.Prelude.{◌≡◌, ℕ, ◌+◌, ◌<◌, ◌≤◌, List, [], ◌∷◌, Option, Some, None, length, IfOk, OnOk, OnErr};
ghost use Rattle.std.specs.Io.KnownBytes.{IsAtEnd};
ghost use Rattle.base_devices.specs.Reported.{Adds, AddsSoMany, Gives, GivesSoMany};
ghost use Rattle.base_devices.specs.declared.device.Tick.{Tick};

use base_values::{Draw, Moment};

/// A device refused a call, and counted it.
#[derive(Clone, Copy, Drop, PartialEq, Eq)]
pub struct Refused;

/// A reader.
pub trait Source {
    // the bytes that are still to come, where they are known
    ghost left: { Self → Option (List ℕ) };

    // how many calls were made, and how many failed
    ghost calls: { Self → ℕ };

    ghost failures: { Self → ℕ };

    /// Reads some bytes, none only at the end.
    fn read(&mut self, buffer: &mut [u8]) -> Result<usize, Refused>
        ensures fits { IfOk result (λ n. n ≤ length buffer.new) }
        ensures given { GivesSoMany result (left self.old) buffer.new (left self.new) }
        ensures ended { IfOk result (λ n. n ≡ 0 → 0 < length buffer.new → IsAtEnd (left self.new)) }
        ensures kept { OnErr result (Gives (left self.old) [] (left self.new)) }
        ensures calls { calls self.new ≡ calls self.old + 1 }
        ensures well { OnOk result (failures self.new ≡ failures self.old) }
        ensures failed { OnErr result (failures self.new ≡ failures self.old + 1) };
}

/// A writer.
pub trait Drain {
    // the bytes that were taken, where they are told
    ghost taken: { Self → Option (List ℕ) };

    // how many calls failed
    ghost failures: { Self → ℕ };

    /// Takes some of the bytes, at least one.
    fn write(&mut self, bytes: &[u8]) -> Result<usize, Refused>
        requires { 0 < length bytes.now }
        ensures some { IfOk result (λ n. 0 < n) }
        ensures fits { IfOk result (λ n. n ≤ length bytes.now) }
        ensures taken { AddsSoMany result (taken self.old) bytes.now (taken self.new) }
        ensures kept { OnErr result (Adds (taken self.old) [] (taken self.new)) }
        ensures well { OnOk result (failures self.new ≡ failures self.old) }
        ensures failed { OnErr result (failures self.new ≡ failures self.old + 1) };
}

/// What the clock shows and a draw, handed out together for each request.
#[derive(Clone, Copy, PartialEq, Eq)]
pub struct Tick {
    pub clock: Moment,
    pub draw: Draw,
}

/// A clock with draws.
pub trait Ticks {
    // the ticks that were told
    ghost reported: { Self → Option (List Tick) };

    // what is known of a tick that was told, or where there was none
    ghost reads: { Option Tick → Type 0 };

    // how many calls failed
    ghost failures: { Self → ℕ };

    /// The next tick.
    fn tick(&mut self) -> Result<Tick, Refused>
        ensures read { IfOk result (λ t. reads (Some t)) }
        ensures unread { OnErr result (reads None) }
        ensures reported { IfOk result
            (λ t. Adds (reported self.old) (t ∷ []) (reported self.new)) }
        ensures kept { OnErr result (Adds (reported self.old) [] (reported self.new)) }
        ensures well { OnOk result (failures self.new ≡ failures self.old) }
        ensures failed { OnErr result (failures self.new ≡ failures self.old + 1) };
}
