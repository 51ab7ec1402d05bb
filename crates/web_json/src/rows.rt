//! The rows of answers as JSON.

ghost use Rattle.std.specs.Prelude.{codes};
ghost use Rattle.serde_json.specs.Data.{object, member, no_members};
ghost use Rattle.web_json.specs.Values.{count};
ghost use Rattle.web_json.specs.Rows.{sold_body, variation_body, priced_body, item_members, item_body, quota_members, quota_body, cart_body, voucher_body, shown_body, availability_body};
ghost use Rattle.web_json.specs.Made.{AppendsJson, MakesJson};

use crate::doors::{append_checkin_list, append_ticket};
use crate::members::{with, with_moment, with_money, with_money_or_null, with_text};
use crate::orders::append_order;
use crate::pieces::{
    WriteRow, append_list_member, append_members, append_opened, append_text, append_value,
};
use crate::values::{CountWriter, count_or_null, size_or_null};
use crate::vouchers::voucher_value;
use crate::waiting::append_waiting;
use base_values::Cents;
use model_catalogue::{Item, PricedVariation, Quota, Variation};
use model_commands::Shown;
use model_rows::{Availability, CartPos, Voucher};
use serde_json::{Map, Value, json};
use std::alloc::{AllocError, Global};

/// A variation that is sold at a price.
fn sold_value(alloc: Global, variation: &Variation, price: Cents) -> Result<Value, AllocError>
    ensures { MakesJson result (sold_body variation.now price) }
{
    let members = Map::new(alloc);
    let members = with(alloc, members, "active", Value::Bool(variation.active))?;
    let members = with_money_or_null(alloc, members, "default_price", variation.default_price)?;
    let members = with(alloc, members, "id", Value::from(variation.id))?;
    let members = with_money(alloc, members, "price", price)?;
    let members = with_text(alloc, members, "value", variation.name.as_str())?;
    Ok(Value::Object(members))
}

/// A variation of an item that costs that price.
fn variation_value(alloc: Global, price: Cents, variation: &Variation) -> Result<Value, AllocError>
    ensures { MakesJson result (variation_body price variation.now) }
{
    sold_value(alloc, variation, variation.default_price.unwrap_or(price))
}

/// A variation, with the price that it costs.
fn priced_value(alloc: Global, priced: &PricedVariation) -> Result<Value, AllocError>
    ensures { MakesJson result (priced_body priced.now) }
{
    sold_value(alloc, &priced.row, priced.price)
}

/// Writes the variations of an item that costs this price.
#[derive(Drop)]
struct VariationWriter {
    price: Cents,
}

impl WriteRow<Variation> for VariationWriter {
    ghost body = { λ writer variation. variation_body writer.price variation };

    fn append(&self, alloc: Global, out: &mut Vec<u8>, row: &Variation) -> Result<(), AllocError> {
        let value = variation_value(alloc, self.price, row)?;
        append_value(alloc, out, &value)
    }
}

/// An item without its variations.
fn item_value(alloc: Global, item: &Item) -> Result<Value, AllocError>
    ensures { MakesJson result (object (item_members item.now no_members)) }
{
    let members = Map::new(alloc);
    let members = with(alloc, members, "active", Value::Bool(item.active))?;
    let members = with_money(alloc, members, "default_price", item.default_price)?;
    let members = with(alloc, members, "has_variations", Value::Bool(item.varied))?;
    let members = with(alloc, members, "id", Value::from(item.id))?;
    let members = with_text(alloc, members, "name", item.name.as_str())?;
    Ok(Value::Object(members))
}

/// Appends an item with its variations.
fn append_item(
    alloc: Global,
    out: &mut Vec<u8>,
    item: &Item,
    variations: &[Variation],
) -> Result<(), AllocError>
    ensures { AppendsJson result out.old out.new (item_body item.now variations.now) }
{
    let value = item_value(alloc, item)?;
    let writer = VariationWriter {
        price: item.default_price,
    };
    append_opened(alloc, out, &value)?;
    append_list_member(alloc, out, "variations", &writer, variations)?;
    append_text(out, "}")
}

/// A quota's id.
fn quota_id_value(alloc: Global, quota: &Quota) -> Result<Value, AllocError>
    ensures { MakesJson result (object (member (codes "id") (count quota.now.id) no_members)) }
{
    json!(in alloc; {"id": quota.id})
}

/// A quota's name, whether it releases places, and its size.
fn quota_value(alloc: Global, quota: &Quota) -> Result<Value, AllocError>
    ensures { MakesJson result (object (quota_members quota.now no_members)) }
{
    let size = size_or_null(quota.size);
    json!(in alloc; {
        "name": quota.name.as_str(),
        "release_after_exit": quota.release_after_exit,
        "size": size
    })
}

/// Appends a quota.
fn append_quota(alloc: Global, out: &mut Vec<u8>, quota: &Quota) -> Result<(), AllocError>
    ensures { AppendsJson result out.old out.new (quota_body quota.now) }
{
    let id = quota_id_value(alloc, quota)?;
    let value = quota_value(alloc, quota)?;
    let items = quota.items.as_slice();
    let variations = quota.variations.as_slice();
    append_opened(alloc, out, &id)?;
    append_list_member(alloc, out, "items", &CountWriter, items)?;
    append_members(alloc, out, &value)?;
    append_list_member(alloc, out, "variations", &CountWriter, variations)?;
    append_text(out, "}")
}

/// A cart position.
pub fn cart_value(alloc: Global, cart: &CartPos) -> Result<Value, AllocError>
    ensures { MakesJson result (cart_body cart.now) }
{
    let variation = count_or_null(cart.product.variation);
    let members = Map::new(alloc);
    let members = with_text(alloc, members, "cart_id", cart.cart_id.as_str())?;
    let members = with_moment(alloc, members, "datetime", cart.made_at)?;
    let members = with_moment(alloc, members, "expires", cart.expires)?;
    let members = with(alloc, members, "id", Value::from(cart.id))?;
    let members = with(alloc, members, "item", Value::from(cart.product.item))?;
    let members = with_money(alloc, members, "price", cart.price)?;
    let members = with(alloc, members, "variation", variation)?;
    let members = with(alloc, members, "voucher", count_or_null(cart.voucher))?;
    Ok(Value::Object(members))
}

/// Appends a variation with its price.
fn append_priced(
    alloc: Global,
    out: &mut Vec<u8>,
    priced: &PricedVariation,
) -> Result<(), AllocError>
    ensures { AppendsJson result out.old out.new (priced_body priced.now) }
{
    let value = priced_value(alloc, priced)?;
    append_value(alloc, out, &value)
}

/// Appends a cart position.
fn append_cart(alloc: Global, out: &mut Vec<u8>, cart: &CartPos) -> Result<(), AllocError>
    ensures { AppendsJson result out.old out.new (cart_body cart.now) }
{
    let value = cart_value(alloc, cart)?;
    append_value(alloc, out, &value)
}

/// Appends a voucher, and the number of its uses in orders.
fn append_voucher(
    alloc: Global,
    out: &mut Vec<u8>,
    voucher: &Voucher,
    redeemed: u64,
) -> Result<(), AllocError>
    ensures { AppendsJson result out.old out.new (voucher_body voucher.now redeemed) }
{
    let value = voucher_value(alloc, voucher, redeemed)?;
    append_value(alloc, out, &value)
}

/// Appends a row as it is shown.
pub fn append_shown(alloc: Global, out: &mut Vec<u8>, shown: &Shown) -> Result<(), AllocError>
    ensures { AppendsJson result out.old out.new (shown_body shown.now) }
{
    match shown {
        Shown::Item(rows) => append_item(alloc, out, &rows.item, rows.variations.as_slice()),
        Shown::Variation(priced) => append_priced(alloc, out, priced),
        Shown::Quota(quota) => append_quota(alloc, out, quota),
        Shown::Voucher(voucher, redeemed) => append_voucher(alloc, out, voucher, *redeemed),
        Shown::Cart(cart) => append_cart(alloc, out, cart),
        Shown::Order(rows) => append_order(alloc, out, &rows.order, rows.positions.as_slice()),
        Shown::Waiting(entry) => append_waiting(alloc, out, entry),
        Shown::CheckinList(list) => append_checkin_list(alloc, out, list),
        Shown::Ticket(ticket) => {
            append_ticket(alloc, out, &ticket.position, ticket.checkins.as_slice())
        }
    }
}

/// What is left of a quota, and what uses it.
pub fn availability_value(alloc: Global, left: &Availability) -> Result<Value, AllocError>
    ensures { MakesJson result (availability_body left.now) }
{
    let usage = left.usage;
    let number = count_or_null(left.available_number);
    let members = Map::new(alloc);
    let members = with(alloc, members, "available", Value::Bool(left.available))?;
    let members = with(alloc, members, "available_number", number)?;
    let members = with(
        alloc,
        members,
        "blocking_vouchers",
        Value::from(usage.blocked),
    )?;
    let members = with(alloc, members, "cart_positions", Value::from(usage.carts))?;
    let members = with(alloc, members, "exited_orders", Value::from(usage.exited))?;
    let members = with(alloc, members, "paid_orders", Value::from(usage.paid))?;
    let members = with(alloc, members, "pending_orders", Value::from(usage.pending))?;
    let members = with(alloc, members, "total_size", size_or_null(left.size))?;
    let members = with(alloc, members, "waiting_list", Value::from(usage.waiting))?;
    Ok(Value::Object(members))
}
