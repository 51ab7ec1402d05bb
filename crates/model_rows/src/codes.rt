//! The codes of orders by their numbers.

ghost use Rattle.std.specs.Prelude.{◌≡◌, IfOk};
ghost use Rattle.base_values.specs.Codes.{order_code};

use base_values::codes::LAST_ORDER;
use base_values::{Text, order_code};
use std::alloc::{AllocError, Global};

// How many texts of five places in base 28 there are.
const CODES: u64 = LAST_ORDER as u64 + 1;

/// The code of the order with this number; of a number beyond that of the last code, its last five places in base 28.
pub fn code_of(alloc: Global, number: u64) -> Result<Text, AllocError>
    ensures { IfOk result (λ code. code ≡ order_code number) }
{
    order_code(alloc, (number % CODES) as u32)
}
