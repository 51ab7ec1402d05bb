//! The ids of carts.

ghost use Rattle.std.specs.Prelude.{◌≡◌, IfOk, string_bytes};
ghost use Rattle.decide_orders.specs.CartId.{is_cart_id, cart_id_test, made_cart_id, cart_id_of};

use base_values::{Draw, Text};
use model_commands::{NewCart, OrderRefusal};
use std::alloc::{AllocError, Global};

// Whether a text ends as a cart id does.
fn is_cart_id(text: &Text) -> bool
    ensures { result ≡ is_cart_id text.now }
{
    text.as_str().as_bytes().ends_with(b"@api")
}

/// Whether the cart id can be used, where one is given. Refusal: 45 `BadCart`.
pub fn test_cart_id(new: &NewCart) -> Result<(), OrderRefusal>
    ensures { result ≡ cart_id_test new.now.cart_id }
{
    match &new.cart_id {
        Some(given) if !is_cart_id(given) => Err(OrderRefusal::BadCart),
        _ => Ok(()),
    }
}

/// The cart id that is given, or else one that is made of the draw and the new position's id.
pub fn cart_id(alloc: Global, new: &NewCart, draw: Draw, id: u64) -> Result<Text, AllocError>
    ensures { IfOk result (λ text. text ≡ cart_id_of new.now.cart_id draw id) }
{
    match &new.cart_id {
        Some(given) => given.copy(alloc),
        None => made_cart_id(alloc, draw, id),
    }
}

fn made_cart_id(alloc: Global, draw: Draw, id: u64) -> Result<Text, AllocError>
    ensures { IfOk result (λ text. text ≡ made_cart_id draw id) }
{
    draw.recall_invariant();
    Ok(Text::new(cart_id_chars(alloc, draw, id)?))
}

#[tactic(auto, unfolding(crate::specs::CartId::made_cart_id))]
fn cart_id_chars(alloc: Global, draw: Draw, id: u64) -> Result<String, AllocError>
    ensures { IfOk result (λ chars. string_bytes chars ≡ made_cart_id draw id) }
{
    let digits = hex::encode(alloc, draw.bytes)?;
    let chars = format!(in alloc; "{digits}z{id}@api")?;
    Ok(chars)
}
