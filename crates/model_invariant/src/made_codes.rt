//! The codes that the shop makes.

ghost use Rattle.std.specs.Prelude.{◌≡◌, IfOk, string_bytes};
ghost use Rattle.model_invariant.specs.MadeCodes.{made_code};

use base_values::{Draw, Text};
use std::alloc::{AllocError, Global};

/// `W`, the draw in 32 lower case hex digits, `z` and the id.
pub fn made_code(alloc: Global, draw: Draw, id: u64) -> Result<Text, AllocError>
    ensures { IfOk result (λ text. text ≡ made_code draw id) }
{
    draw.recall_invariant();
    Ok(Text::new(code_chars(alloc, draw, id)?))
}

#[tactic(auto, unfolding(crate::specs::MadeCodes::made_code))]
fn code_chars(alloc: Global, draw: Draw, id: u64) -> Result<String, AllocError>
    ensures { IfOk result (λ chars. string_bytes chars ≡ made_code draw id) }
{
    let digits = hex::encode(alloc, draw.bytes)?;
    let chars = format!(in alloc; "W{digits}z{id}")?;
    Ok(chars)
}
