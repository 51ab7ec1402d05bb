//! The body of a cart position, field by field. Only the first fault is answered.

ghost use Rattle.web_fields.specs.Reading.{Reads};
ghost use Rattle.web_bodies.specs.CartBodies.{cart_of};
ghost use Rattle.serde_json.specs.View.{view};

use crate::copies::copied;
use model_commands::{Asked, NewCart};
use model_faults::Field;
use serde_json::Value;
use std::alloc::Global;
use web_fields::{
    ReadError, id, optional_id, optional_loose_text, optional_moment, optional_money,
    optional_text, required_value,
};

/// A new cart position.
#[tactic(auto, unfolding(crate::specs::CartBodies::cart_of))]
pub fn cart_of(alloc: Global, body: &Value) -> Result<NewCart, ReadError>
    ensures { Reads result (cart_of (view body.now)) }
{
    let item = id(Field::Item, required_value(Field::Item, body)?)?;
    let variation = optional_id(Field::Variation, body)?;
    let price = optional_money(Field::Price, body)?;
    let cart_id = optional_text(Field::CartId, body)?;
    let expires = optional_moment(Field::Expires, body)?;
    let voucher = optional_loose_text(Field::Voucher, body)?;
    Ok(NewCart {
        cart_id: copied(alloc, cart_id)?,
        expires,
        asked: Asked {
            item,
            variation,
            price,
            voucher: copied(alloc, voucher)?,
        },
    })
}
