//! Why a value isn't read.

ghost use Rattle.std.specs.Prelude.{◌≡◌};
ghost use Rattle.base_values.specs.Refusals.{number_of_refusal};
ghost use Rattle.base_values.specs.declared.refusal.ValueRefusal.TheVariants.{Memory};

use std::alloc::AllocError;
use thiserror::Error;

/// Why a value isn't read.
#[derive(Clone, Copy, Debug, PartialEq, Eq, Error)]
pub enum ValueRefusal {
    /// 1: the text isn't an amount of money.
    #[error("not an amount of money")]
    NotMoney,
    /// 2: the amount is more than 99,999,999.99.
    #[error("the amount is too large")]
    TooLarge,
    /// 3: the text isn't an instant or a day.
    #[error("not a moment")]
    NotMoment,
    /// 4: the instant is before 1970 or after 9998.
    #[error("the moment is out of range")]
    OutOfRange,
    /// 5: the text is no order's code.
    #[error("not a code")]
    NotCode,
    /// 6: there is no memory.
    #[error("out of memory")]
    Memory,
}

impl From<AllocError> for ValueRefusal {
    ghost from_gives = { λ _ e. e ≡ Memory };

    fn from(_e: AllocError) -> ValueRefusal {
        ValueRefusal::Memory
    }
}

impl ValueRefusal {
    /// The refusal's number.
    pub fn number(self) -> u8
        ensures { result ≡ number_of_refusal self }
    {
        match self {
            ValueRefusal::NotMoney => 1,
            ValueRefusal::TooLarge => 2,
            ValueRefusal::NotMoment => 3,
            ValueRefusal::OutOfRange => 4,
            ValueRefusal::NotCode => 5,
            ValueRefusal::Memory => 6,
        }
    }
}
