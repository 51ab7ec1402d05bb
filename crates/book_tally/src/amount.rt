//! What is counted of a key: amounts that add up.

ghost use Rattle.std.specs.Prelude.{◌≡◌, ◌+◌, IfOk};
ghost use Rattle.book_tally.specs.Amounts.{nothing, plus, no_uses, plus_uses};

use model_rows::Usage;
use std::alloc::AllocError;

/// An amount that can come and go.
pub trait Amount: Copy {
    /// None of it.
    ghost zero: { Self };

    /// Both together.
    ghost sum: { Self → Self → Self };

    /// None of it.
    fn none() -> Self
        ensures { result ≡ zero };

    /// The amount with some more. A sum of 2^64, which no book reaches, is refused as a want of memory.
    fn with(self, more: Self) -> Result<Self, AllocError>
        ensures { IfOk result (λ new. new ≡ sum self more) };
}

/// How often a voucher is used: by the positions of pending and paid orders, and by live cart positions. And what these
/// positions of orders spend of its budget, in cents.
#[derive(Clone, Copy)]
pub struct Uses {
    pub used: u64,
    pub held: u64,
    pub spent: u64,
}

impl Amount for Usage {
    ghost zero = { nothing };

    ghost sum = { plus };

    fn none() -> Self {
        Usage {
            paid: 0,
            pending: 0,
            blocked: 0,
            carts: 0,
            waiting: 0,
            exited: 0,
        }
    }

    fn with(self, more: Self) -> Result<Self, AllocError> {
        Ok(Usage {
            paid: sum(self.paid, more.paid)?,
            pending: sum(self.pending, more.pending)?,
            blocked: sum(self.blocked, more.blocked)?,
            carts: sum(self.carts, more.carts)?,
            waiting: sum(self.waiting, more.waiting)?,
            exited: sum(self.exited, more.exited)?,
        })
    }
}

impl Amount for Uses {
    ghost zero = { no_uses };

    ghost sum = { plus_uses };

    fn none() -> Self {
        Uses {
            used: 0,
            held: 0,
            spent: 0,
        }
    }

    fn with(self, more: Self) -> Result<Self, AllocError> {
        Ok(Uses {
            used: sum(self.used, more.used)?,
            held: sum(self.held, more.held)?,
            spent: sum(self.spent, more.spent)?,
        })
    }
}

// Both numbers together.
fn sum(a: u64, b: u64) -> Result<u64, AllocError>
    ensures { IfOk result (λ new. new ≡ a + b) }
{
    a.checked_add(b).ok_or(AllocError)
}
