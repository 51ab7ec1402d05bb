//! Positions by their numbers in their order.

ghost use Rattle.std.specs.Prelude.{◌≡◌, ◌≤◌, ◌↔◌, IsTrue, IfOk, OnOk, length};
ghost use Rattle.model_invariant.specs.Positions.{CountFrom, by_positionid, place_in, position_placed};

use base_values::List;
use model_rows::OrderPos;
use std::alloc::{AllocError, Global};

/// Whether the positions' numbers in their order count on from 1.
pub fn are_counted(rows: &[OrderPos]) -> bool
    ensures { IsTrue result ↔ CountFrom 1 rows.now }
{
    for at in 0..rows.len() {
        if rows[at].positionid as usize != at + 1 {
            return false;
        }
    }
    true
}

// How many positions stand before a number: those before the first that isn't below it.
fn place_of(rows: &[OrderPos], number: u32) -> usize
    ensures value { result ≡ place_in number rows.now }
    ensures within { result ≤ length rows.now }
{
    for at in 0..rows.len() {
        if number <= rows[at].positionid {
            return at;
        }
    }
    rows.len()
}

// Puts a position among others that are by their numbers.
#[tactic(auto, using(crate::proofs::ByNumber::placed_at))]
fn place(rows: &mut Vec<OrderPos>, row: OrderPos) -> Result<(), AllocError>
    ensures { OnOk result (rows.new.items ≡ position_placed row rows.old.items) }
{
    let at = place_of(rows, row.positionid);
    match rows.insert(at, row) {
        Ok(()) => Ok(()),
        Err(_) => Err(AllocError),
    }
}

// Copies of these positions, by their numbers.
fn sorted(alloc: Global, positions: &[OrderPos]) -> Result<Vec<OrderPos>, AllocError>
    ensures { IfOk result (λ rows. rows.items ≡ by_positionid positions.now) }
{
    let mut rows = Vec::new(alloc);
    let mut left = positions.len();
    while left > 0 {
        left -= 1;
        place(&mut rows, positions[left].copy(alloc)?)?;
    }
    Ok(rows)
}

/// The positions by their numbers in their order. An office numbers them in order of their ids, so they stay as they are, but for those of a
/// file that another program made. `Err` where there is no memory for another order.
pub fn by_positionid(alloc: Global, positions: List<OrderPos>) -> Result<List<OrderPos>, AllocError>
    ensures { IfOk result (λ rows. rows ≡ by_positionid positions) }
{
    if are_counted(positions.as_slice()) {
        return Ok(positions);
    }
    let rows = sorted(alloc, positions.as_slice())?;
    Ok(List::new(rows))
}
