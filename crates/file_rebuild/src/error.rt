//! Why rows aren't arranged.

ghost use Rattle.std.specs.Prelude.{◌≡◌};
ghost use Rattle.file_rebuild.specs.declared.error.ArrangeError.TheVariants.{Memory};

use std::alloc::AllocError;

/// Why rows aren't arranged.
#[derive(Clone, Copy, PartialEq, Eq, Drop)]
pub enum ArrangeError {
    /// 6: out of memory.
    Memory,
    /// 63: the store didn't show rows in the order that was asked for.
    Order,
}

impl From<AllocError> for ArrangeError {
    ghost from_gives = { λ _ e. e ≡ Memory };

    fn from(_error: AllocError) -> ArrangeError {
        ArrangeError::Memory
    }
}
