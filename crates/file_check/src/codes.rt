//! The tests of the codes of vouchers and of the secrets of order positions.

ghost use Rattle.std.specs.Prelude.{◌≡◌, ◌↔◌, IsTrue, IfOk, true, nat_eq};
ghost use Rattle.std.specs.List.{ends_with, AllByRecursion};
ghost use Rattle.model_rows.specs.Named.{AreUnlike};
ghost use Rattle.model_invariant.specs.OwnCodes.{code_ending, has_own_code, HaveCodes};
ghost use Rattle.model_invariant.specs.Secrets.{has_own_secret, AllHaveOwnSecrets};
ghost use Rattle.file_check.specs.Tested.{has_new_code};
ghost use Rattle.model_damage.specs.Tests.{TellsWhether};

use base_values::Text;
use book_usage::Book;
use model_invariant::reserved::is_reserved;
use model_rows::{OrderPos, Voucher};
use std::alloc::{AllocError, Global};

// Whether a text ends in `z` and a number.
fn ends_in(alloc: Global, text: &Text, number: u64) -> Result<bool, AllocError>
    ensures { IfOk result (λ ends. ends ≡ ends_with nat_eq text.now (code_ending number)) }
{
    let ending = format!(in alloc; "z{number}")?;
    Ok(text.as_str().as_bytes().ends_with(ending.as_bytes()))
}

// Whether a code, where it has the form of those that the shop makes, ends in its own voucher's id.
fn has_own_code(alloc: Global, row: &Voucher) -> Result<bool, AllocError>
    ensures { IfOk result (λ own. own ≡ has_own_code row.now) }
{
    if !is_reserved(&row.code) {
        return Ok(true);
    }
    ends_in(alloc, &row.code, row.id)
}

// Whether it is so of the code of each voucher.
fn all_have_own_codes(alloc: Global, rows: &[Voucher]) -> Result<bool, AllocError>
    ensures { TellsWhether result (AllByRecursion (λ v. has_own_code v ≡ true) rows.now) }
{
    for row in rows {
        if !has_own_code(alloc, row)? {
            return Ok(false);
        }
    }
    Ok(true)
}

// Whether no voucher before it has its code.
fn has_new_code<B: Book>(book: &B, row: &Voucher) -> bool
    ensures { result ≡ has_new_code (B.state book.now).lists.vouchers row.now }
{
    match book.voucher_of(row.code.as_str()) {
        None => true,
        Some(first) => first.id == row.id,
    }
}

// Whether it is so of each voucher.
fn all_have_new_codes<B: Book>(book: &B) -> bool
    ensures { let vouchers = (B.state book.now).lists.vouchers in
        IsTrue result ↔ AllByRecursion (λ v. has_new_code vouchers v ≡ true) vouchers }
{
    book.vouchers().iter().all(|row| has_new_code(book, row))
}

// Whether no two vouchers have one code.
fn are_unlike<B: Book>(book: &B) -> bool
    ensures { IsTrue result ↔ AreUnlike (B.state book.now).lists.vouchers }
{
    book.recall_invariant();
    all_have_new_codes(book)
}

/// Whether no two vouchers have one code, and each code of the form that the shop makes ends in its voucher's id.
pub fn have_codes<B: Book>(alloc: Global, book: &B) -> Result<bool, AllocError>
    ensures { TellsWhether result (HaveCodes (B.state book.now).lists.vouchers) }
{
    let own = all_have_own_codes(alloc, book.vouchers())?;
    Ok(are_unlike(book) && own)
}

// Whether a secret ends in its order's number and its position's there.
fn has_own_secret(alloc: Global, row: &OrderPos) -> Result<bool, AllocError>
    ensures { IfOk result (λ own. own ≡ has_own_secret row.now) }
{
    let order = row.order;
    let number = row.positionid;
    let ending = format!(in alloc; "z{order}z{number}")?;
    Ok(row.secret.as_str().as_bytes().ends_with(ending.as_bytes()))
}

/// Whether the secret of each order position ends in its order's number and its own there.
pub fn all_have_own_secrets(alloc: Global, rows: &[OrderPos]) -> Result<bool, AllocError>
    ensures { TellsWhether result (AllHaveOwnSecrets rows.now) }
{
    for row in rows {
        if !has_own_secret(alloc, row)? {
            return Ok(false);
        }
    }
    Ok(true)
}
