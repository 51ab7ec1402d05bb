//! The secrets of order positions.

ghost use Rattle.std.specs.Prelude.{◌≡◌, IfOk, string_bytes};
ghost use Rattle.base_values.specs.Secrets.{secret};

use crate::draw::Draw;
use crate::text::Text;
use std::alloc::{AllocError, Global};

/// The secret of an order position, of a draw, the order's number and the position's number in its order, as
/// `00000000000000000000000000000004z1z1`. Nothing is promised of its being hard to guess.
pub fn secret(alloc: Global, draw: Draw, order: u64, position: u32) -> Result<Text, AllocError>
    ensures { IfOk result (λ text. text ≡ secret draw order position) }
{
    draw.recall_invariant();
    Ok(Text::new(secret_chars(alloc, draw, order, position)?))
}

#[tactic(auto, unfolding(crate::specs::Secrets::secret))]
fn secret_chars(alloc: Global, draw: Draw, order: u64, position: u32) -> Result<String, AllocError>
    ensures { IfOk result (λ chars. string_bytes chars ≡ secret draw order position) }
{
    let digits = hex::encode(alloc, draw.bytes)?;
    let chars = format!(in alloc; "{digits}z{order}z{position}")?;
    Ok(chars)
}
