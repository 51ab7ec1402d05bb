//! Adding the vouchers of a file.

ghost use Rattle.std.specs.Prelude.{◌≡◌, [], ◌∷◌, IfOk, OnErr};
ghost use Rattle.std.specs.Option.{option_copied};
ghost use Rattle.draft_changes.specs.Decides.{Logs};
ghost use Rattle.draft_changes.specs.DraftState.{now, Extends};
ghost use Rattle.model_rows.specs.Conditions.{same_id};
ghost use Rattle.decide_vouchers.specs.Imported.{has_target, has_terms, import_changes, is_as_given, namesake, new_imported, row_imported, rows_imported, same_flag, same_mode, verdict_on};

use crate::decide_voucher::make;
use base_values::{Cents, Draw, List, Moment, PriceMode, Text};
use book_usage::Book;
use book_usage::rules::same_id;
use draft_changes::Draft;
use model_commands::{NewVoucher, Verdict, VoucherRefusal};
use model_rows::Voucher;
use std::alloc::{AllocError, Global};

// The voucher that has this code, if there is one.
fn namesake<'d, B: Book>(draft: &'d Draft<'_, B>, code: &Option<Text>) -> Option<&'d Voucher>
    ensures { option_copied result ≡ namesake code.now (now draft.now).lists }
{
    match code {
        None => None,
        Some(code) => draft.rows().voucher_of(code.as_str()),
    }
}

fn same_flag(a: bool, b: bool) -> bool
    ensures { result ≡ same_flag a b }
{
    match (a, b) {
        (true, true) | (false, false) => true,
        _ => false,
    }
}

fn same_mode(a: PriceMode, b: PriceMode) -> bool
    ensures { result ≡ same_mode a b }
{
    match (a, b) {
        (PriceMode::None, PriceMode::None)
        | (PriceMode::Set, PriceMode::Set)
        | (PriceMode::Subtract, PriceMode::Subtract)
        | (PriceMode::Percent, PriceMode::Percent) => true,
        _ => false,
    }
}

fn same_moment(a: Option<Moment>, b: Option<Moment>) -> bool
    ensures { result ≡ same_id a b }
{
    match (a, b) {
        (None, None) => true,
        (Some(a), Some(b)) => a.get() == b.get(),
        _ => false,
    }
}

fn same_value(a: Option<Cents>, b: Option<Cents>) -> bool
    ensures { result ≡ same_id a b }
{
    match (a, b) {
        (None, None) => true,
        (Some(a), Some(b)) => a.get() == b.get(),
        _ => false,
    }
}

// Whether it may be used as often and as long, and does the same to quotas and to a price.
fn has_terms(new: &NewVoucher, row: &Voucher) -> bool
    ensures { result ≡ has_terms new.now row.now }
{
    (new.max_usages.get() == row.max_usages.get() && same_moment(new.valid_until, row.valid_until))
        && (same_flag(new.block_quota, row.block_quota)
            && same_flag(new.allow_ignore_quota, row.allow_ignore_quota))
        && (same_mode(new.price_mode, row.price_mode) && same_value(new.value, row.value))
}

// Whether it is for the same, and the same is noted of it.
fn has_target(new: &NewVoucher, row: &Voucher) -> bool
    ensures { result ≡ has_target new.now row.now }
{
    (same_id(new.item, row.item)
        && same_id(new.variation, row.variation)
        && same_id(new.quota, row.quota))
        && (new.tag.same(row.tag.as_str()) && new.comment.same(row.comment.as_str()))
}

// What becomes of a row whose code a voucher has.
fn verdict_on(new: &NewVoucher, row: &Voucher) -> Verdict
    ensures { result ≡ verdict_on new.now row.now }
{
    if has_terms(new, row) && has_target(new, row) {
        Verdict::Same
    } else {
        Verdict::Other
    }
}

// Makes the voucher of a row, or answers why it isn't made.
fn add_new<B: Book>(
    draft: &mut Draft<'_, B>,
    alloc: Global,
    draw: Draw,
    new: &NewVoucher,
) -> Result<Verdict, AllocError>
    ensures done { IfOk result (λ verdict.
        new_imported new.now draw (now draft.old) ≡ (now draft.new, verdict)) }
    ensures changes { IfOk result (λ v. Logs (import_changes (v ∷ [])) draft.old draft.new) }
    ensures extends { Extends draft.old draft.new }
{
    match make(draft, alloc, draw, new) {
        Ok(row) => Ok(Verdict::Added(row)),
        Err(VoucherRefusal::Memory) => Err(AllocError),
        Err(refusal) => Ok(Verdict::Refused(refusal)),
    }
}

// Adds one row, or answers why nothing is added.
fn import_row<B: Book>(
    draft: &mut Draft<'_, B>,
    alloc: Global,
    draw: Draw,
    new: &NewVoucher,
) -> Result<Verdict, AllocError>
    ensures done { IfOk result (λ verdict.
        row_imported new.now draw (now draft.old) ≡ (now draft.new, verdict)) }
    ensures changes { IfOk result (λ v. Logs (import_changes (v ∷ [])) draft.old draft.new) }
    ensures extends { Extends draft.old draft.new }
{
    if let Some(row) = namesake(draft, &new.code) {
        return Ok(verdict_on(new, row));
    }
    add_new(draft, alloc, draw, new)
}

// Adds each row after those before it. Without memory some of them are added.
fn import_rows<B: Book>(
    draft: &mut Draft<'_, B>,
    alloc: Global,
    draw: Draw,
    rows: &[NewVoucher],
) -> Result<Vec<Verdict>, AllocError>
    ensures done { IfOk result (λ verdicts.
        rows_imported rows.now draw (now draft.old) ≡ (now draft.new, verdicts.items)) }
    ensures changes { IfOk result (λ v. Logs (import_changes v.items) draft.old draft.new) }
    ensures extends { Extends draft.old draft.new }
{
    let mut verdicts = Vec::new(alloc);
    for row in rows {
        verdicts.push(import_row(draft, alloc, draw, row)?)?;
    }
    Ok(verdicts)
}

/// Adds the vouchers of a file whose codes no voucher has. Each row is decided by itself, after those before it: where a voucher has its
/// code it is the same or another, and stays; and else it is made as a request of its own would, or refused. The error is want of
/// memory, and leaves the draft as it was.
pub fn import<B: Book>(
    draft: &mut Draft<'_, B>,
    alloc: Global,
    draw: Draw,
    rows: &[NewVoucher],
) -> Result<List<Verdict>, AllocError>
    ensures done { IfOk result (λ verdicts.
        rows_imported rows.now draw (now draft.old) ≡ (now draft.new, verdicts)) }
    ensures changes { IfOk result (λ v. Logs (import_changes v) draft.old draft.new) }
    ensures extends { Extends draft.old draft.new }
    ensures same { OnErr result (draft.new ≡ draft.old) }
{
    let mark = draft.mark();
    let imported = import_rows(draft, alloc, draw, rows);
    let verdicts = draft.end_attempt(mark, imported)?;
    Ok(List::new(verdicts))
}
