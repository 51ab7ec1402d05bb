//! The test of the nonces of check-ins.

ghost use Rattle.std.specs.Prelude.{◌≡◌, IfOk, find, true};
ghost use Rattle.std.specs.List.{AllByRecursion};
ghost use Rattle.std.specs.Option.{option_copied};
ghost use Rattle.model_invariant.specs.Checkins.{same_nonce, repeats, AreOnce};
ghost use Rattle.file_check.specs.Tested.{is_new};
ghost use Rattle.model_damage.specs.Tests.{TellsWhether};

use crate::keys::have_own_keys;
use base_values::Text;
use book_usage::Book;
use model_rows::Checkin;
use std::alloc::{AllocError, Global};

// Whether two nonces were given, and are one.
fn same_nonce(nonce: &Option<Text>, other: &Option<Text>) -> bool
    ensures { result ≡ same_nonce nonce.now other.now }
{
    match (nonce, other) {
        (Some(nonce), Some(other)) => nonce.same(other.as_str()),
        _ => false,
    }
}

// Whether two check-ins are of one position by one list, with one nonce.
fn repeats(a: &Checkin, b: &Checkin) -> bool
    ensures { result ≡ repeats a.now b.now }
{
    a.list == b.list && a.position == b.position && same_nonce(&a.nonce, &b.nonce)
}

// The first of these that repeats a check-in.
fn first_like<'r>(rows: &'r [Checkin], row: &Checkin) -> Option<&'r Checkin>
    ensures { option_copied result ≡ find (λ c. repeats c row.now) rows.now }
{
    rows.iter().find(|other| repeats(other, row))
}

// Whether none of these before a check-in repeats it.
fn is_new_among(rows: &[Checkin], row: &Checkin) -> bool
    ensures { result ≡ is_new rows.now row.now }
{
    match first_like(rows, row) {
        None => true,
        Some(first) => first.id == row.id,
    }
}

// Whether no check-in before it repeats it.
fn is_new<B: Book>(alloc: Global, book: &B, row: &Checkin) -> Result<bool, AllocError>
    ensures { IfOk result (λ new. new ≡ is_new (B.state book.now).lists.checkins row.now) }
{
    let rows = book.checkins_of(alloc, row.list, row.position)?;
    let new = is_new_among(rows.as_slice(), row);
    Ok(new)
}

// Whether it is so of each check-in.
fn all_are_new<B: Book>(alloc: Global, book: &B) -> Result<bool, AllocError>
    ensures { let checkins = (B.state book.now).lists.checkins in
        TellsWhether result (AllByRecursion (λ c. is_new checkins c ≡ true) checkins) }
{
    let checkins = book.checkins();
    for row in checkins {
        if !is_new(alloc, book, row)? {
            return Ok(false);
        }
    }
    Ok(true)
}

/// Whether no list has a nonce twice for a position. Where no two digests of list, position and nonce are one, that is
/// known at once; else each check-in is looked for among those of its position by its list.
pub fn are_once<B: Book>(alloc: Global, book: &B) -> Result<bool, AllocError>
    ensures { TellsWhether result (AreOnce (B.state book.now).lists.checkins) }
{
    if have_own_keys(alloc, book.checkins())? {
        return Ok(true);
    }
    book.recall_invariant();
    let new = all_are_new(alloc, book)?;
    Ok(new)
}
