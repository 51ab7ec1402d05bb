//! The bodies of orders and of bulk calls, field by field. Only the first fault is answered.

ghost use Rattle.std.specs.Prelude.{◌≡◌, Ok};
ghost use Rattle.web_fields.specs.Reading.{Gives, Reads};
ghost use Rattle.web_bodies.specs.CartBodies.{cart_of};
ghost use Rattle.web_bodies.specs.OrderBodies.{asked_of, position_entry, positions_of, start_named, start, start_of, order_of, end_of, entry_from, bulk_entry, entries_of};
ghost use Rattle.serde_json.specs.View.{view, items_view};

use crate::cart_bodies::cart_of;
use crate::choices::is;
use crate::copies::copied;
use base_values::{List, Moment};
use model_commands::{Asked, Entry, NewOrder, Start};
use model_faults::{EntryFault, Fault, Field, Problem};
use serde_json::Value;
use std::alloc::Global;
use web_fields::{
    BodyFault, ReadError, Reading, end, entries, entry_object, first_entries, id, list,
    optional_id, optional_loose_text, optional_moment, optional_money, optional_text, present,
    required_value, texts_or_none,
};

// How many positions of an order, and entries of a bulk call, are handed on: one more than there may be, which is
// enough to tell that there are too many.
const ENOUGH: usize = 501;

/// What is asked for one position.
#[tactic(auto, unfolding(crate::specs::OrderBodies::asked_of))]
pub fn asked_of(alloc: Global, body: &Value) -> Result<Asked, ReadError>
    ensures { Reads result (asked_of (view body.now)) }
{
    let item = id(Field::Item, required_value(Field::Item, body)?)?;
    let variation = optional_id(Field::Variation, body)?;
    let price = optional_money(Field::Price, body)?;
    let voucher = optional_loose_text(Field::Voucher, body)?;
    Ok(Asked {
        item,
        variation,
        price,
        voucher: copied(alloc, voucher)?,
    })
}

// Entries that are positions of an order. All their faults are faults of the list.
#[derive(Drop)]
struct ArePositions;

impl Reading<Asked> for ArePositions {
    ghost reading = { λ r d. position_entry d };

    fn read(&self, alloc: Global, entry: &Value) -> Result<Asked, ReadError> {
        let body = entry_object(Field::Positions, entry)?;
        match asked_of(alloc, body) {
            Ok(asked) => Ok(asked),
            Err(ReadError::Memory) => Err(ReadError::Memory),
            Err(ReadError::Body(fault)) => Err(ReadError::Body(fault.of(Field::Positions))),
        }
    }
}

/// The first positions of a new order, which have to be there. Those behind them are read for their faults, and not kept.
fn positions_of(alloc: Global, body: &Value) -> Result<List<Asked>, ReadError>
    ensures { Reads result (positions_of (view body.now)) }
{
    let value = required_value(Field::Positions, body)?;
    let asked = list(Field::Positions, value)?;
    let found = first_entries(alloc, &ArePositions, ENOUGH, asked)?;
    Ok(List::new(found))
}

/// What an order starts as, by its word.
fn start_named(word: &str) -> Option<Start>
    ensures { result ≡ start_named word.now }
{
    if is(word, "n") {
        Some(Start::Pending)
    } else if is(word, "p") {
        Some(Start::Paid)
    } else {
        None
    }
}

/// What an order starts as: `n` or `p`.
fn start(value: &Value) -> Result<Start, BodyFault>
    ensures { result ≡ start (view value.now) }
{
    match value.as_str().and_then(start_named) {
        None => Err(BodyFault::Field(Fault {
            field: Field::Status,
            problem: Problem::Invalid,
        })),
        Some(start) => Ok(start),
    }
}

/// What a new order starts as: pending, where it isn't said.
fn start_of(body: &Value) -> Result<Start, BodyFault>
    ensures { result ≡ start_of (view body.now) }
{
    match present(Field::Status, body)? {
        None => Ok(Start::Pending),
        Some(value) => start(value),
    }
}

/// A new order.
#[tactic(auto, unfolding(crate::specs::OrderBodies::order_of))]
pub fn order_of(alloc: Global, body: &Value) -> Result<NewOrder, ReadError>
    ensures { Reads result (order_of (view body.now)) }
{
    let email = optional_text(Field::Email, body)?;
    let start = start_of(body)?;
    let expires = optional_moment(Field::Expires, body)?;
    let consume_carts = texts_or_none(alloc, Field::ConsumeCarts, body)?;
    let positions = positions_of(alloc, body)?;
    Ok(NewOrder {
        email: copied(alloc, email)?,
        start,
        expires,
        consume_carts,
        positions,
    })
}

/// The end to which an order is extended: an instant, or a day, which stands for its last second in UTC.
pub fn end_of(body: &Value) -> Result<Moment, BodyFault>
    ensures { result ≡ end_of (view body.now) }
{
    end(Field::Expires, required_value(Field::Expires, body)?)
}

/// The cart position that an object asks for, or the first of its fields that is wrong.
fn read_entry(alloc: Global, entry: &Value) -> Result<Entry, ReadError>
    ensures { Reads result (Ok (entry_from (cart_of (view entry.now)))) }
{
    match cart_of(alloc, entry) {
        Ok(new) => Ok(Entry::New(new)),
        Err(ReadError::Memory) => Err(ReadError::Memory),
        Err(ReadError::Body(BodyFault::Field(fault))) => {
            Ok(Entry::Faulty(EntryFault::Field(fault)))
        }
        Err(ReadError::Body(_)) => Ok(Entry::Faulty(EntryFault::InvalidData)),
    }
}

// Entries of a bulk call: each is a cart position that is asked for, or what is wrong with it.
#[derive(Drop)]
struct AreCarts;

impl Reading<Entry> for AreCarts {
    ghost reading = { λ r d. bulk_entry d };

    fn read(&self, alloc: Global, entry: &Value) -> Result<Entry, ReadError> {
        if entry.is_object() {
            read_entry(alloc, entry)
        } else {
            Ok(Entry::Faulty(EntryFault::InvalidData))
        }
    }
}

/// What the first entries of a bulk call say; those behind them aren't looked at.
fn front_entries(alloc: Global, list: &[Value]) -> Result<Vec<Entry>, ReadError>
    ensures { Gives (λ all. all.items) result (entries_of (items_view list.now)) }
{
    entries(alloc, &AreCarts, &list[..ENOUGH.min(list.len())])
}

/// The first entries of a bulk call. What is wrong with one is told of it alone: `Memory` is the only error.
pub fn entries_of(alloc: Global, list: &[Value]) -> Result<List<Entry>, ReadError>
    ensures { Reads result (entries_of (items_view list.now)) }
{
    Ok(List::new(front_entries(alloc, list)?))
}
