//! The least rule that rows break, of those that are tested over a book.

ghost use Rattle.std.specs.Prelude.{IfNone, IfSome, IfOk};
ghost use Rattle.file_check.specs.Last.{file_with, KeepsAll, IsLeastOf};

use crate::budgets::keeps_budgets;
use crate::counters::keeps_counters;
use crate::headroom::keeps_headroom;
use crate::names::keeps_names;
use crate::orders::keeps_positions;
use book_usage::Book;
use model_damage::Rule;
use model_rows::{QuotaCount, VoucherCount};
use std::alloc::{AllocError, Global};

/// The least rule that a file breaks of which the first three are kept: 4 names, 5 positions, 6 headroom, 7 counters, 8 budgets. The
/// book is built of its rows at its moment; its counters stand beside it, by id. None where all eight are kept.
pub fn last_broken<B: Book>(
    alloc: Global,
    book: &B,
    used: &[QuotaCount],
    redeemed: &[VoucherCount],
) -> Result<Option<Rule>, AllocError>
    ensures kept { IfOk result (λ told. IfNone told
        (KeepsAll (file_with (B.state book.now) used.now redeemed.now))) }
    ensures broken { IfOk result (λ told. IfSome told
        (IsLeastOf (file_with (B.state book.now) used.now redeemed.now))) }
{
    if !keeps_names(alloc, book)? {
        return Ok(Some(Rule::Names));
    }
    if !keeps_positions(alloc, book)? {
        return Ok(Some(Rule::Positions));
    }
    if !keeps_headroom(book) {
        return Ok(Some(Rule::Headroom));
    }
    if !keeps_counters(book, used, redeemed) {
        return Ok(Some(Rule::Counters));
    }
    if !keeps_budgets(book) {
        return Ok(Some(Rule::Budgets));
    }
    Ok(None)
}
