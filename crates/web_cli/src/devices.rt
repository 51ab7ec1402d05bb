//! The devices of a run.

ghost use Rattle.std.specs.Prelude.{◌≡◌};
ghost use Rattle.base_devices.specs.Blanks.{IsBlankOf};

use base_devices::Device;
use base_values::Steps;
use std::sync::ledger::{Blank, Ledger};

/// A reader or a writer of std as a device that has counted nothing yet, with a ledger for each of its counts.
pub fn counted<X, L: Ledger, M: Ledger>(inner: X, calls: Blank, failures: Blank) -> Device<X, L, M>
    requires calls { IsBlankOf L.Ledger calls }
    requires failures { IsBlankOf M.Ledger failures }
    ensures inner { result.inner ≡ inner }
    ensures counts { (result.calls ≡ 0) × (result.failures ≡ 0) }
{
    Device {
        inner,
        calls: Steps::<L>::new(calls),
        failures: Steps::<M>::new(failures),
    }
}
