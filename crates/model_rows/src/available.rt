//! What is left of a quota of which so much is used.

ghost use Rattle.std.specs.Prelude.{◌≡◌};
ghost use Rattle.model_rows.specs.Available.{available, available_number, availability_by};

use crate::rows::{Availability, Usage};
use base_values::Size;

impl Availability {
    /// What is left of a quota of this size (`None` is unlimited) of which so much is used.
    pub fn of(size: Option<Size>, usage: Usage) -> Self
        ensures { result ≡ availability_by size usage }
    {
        let used = usage.total();
        Availability {
            size,
            usage,
            available: is_available(&size, used),
            available_number: number_left(&size, used),
        }
    }
}

fn is_available(size: &Option<Size>, used: u128) -> bool
    ensures { result ≡ available size.now used }
{
    match size {
        None => true,
        Some(size) => used < u128::from(size.get()),
    }
}

fn number_left(size: &Option<Size>, used: u128) -> Option<u64>
    ensures { result ≡ available_number size.now used }
{
    let size = (*size)?;
    Some(u128::from(size.get()).saturating_sub(used) as u64)
}
