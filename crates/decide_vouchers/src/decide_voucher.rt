//! Making, changing and deleting vouchers.

ghost use Rattle.std.specs.Prelude.{◌≡◌, [], ◌∷◌};
ghost use Rattle.base_values.specs.Deciding.{check};
ghost use Rattle.model_catalogue.specs.declared.refusal.CatalogueRefusal.TheVariants.{Full};
ghost use Rattle.model_commands.specs.declared.vouchers.VoucherRefusal.TheVariants.{Catalogue, Memory};
ghost use Rattle.draft_changes.specs.Decides.{AnswersBy, DecidesBy, DeletesBy};
ghost use Rattle.draft_changes.specs.DraftState.{now};
ghost use Rattle.model_rows.specs.Lists.{voucher_at};
ghost use Rattle.model_rows.specs.declared.changes.Change.TheVariants.{PutVoucher, DropVoucher};
ghost use Rattle.decide_vouchers.specs.Made.{voucher_made};
ghost use Rattle.decide_vouchers.specs.Changed.{names_the_same, may_change, changed_row, voucher_changed};
ghost use Rattle.decide_vouchers.specs.Deleted.{voucher_deleted};

use crate::codes::new_code;
use crate::place::place;
use crate::row_checks::test_row;
use crate::rows::{new_row, patched_row};
use base_values::Draw;
use book_usage::rules::same_id;
use book_usage::{Book, LookUps};
use draft_changes::Draft;
use model_catalogue::CatalogueRefusal;
use model_commands::{NewVoucher, VoucherPatch, VoucherRefusal};
use model_rows::Voucher;
use std::alloc::Global;

/// Makes a voucher, and answers a copy of it. A code that isn't given is made of the draw and the new id; nothing is
/// promised of its being hard to guess. A refusal leaves the draft as it was.
/// Refusals, in this order: 2 `TooLarge`; 33 `ReservedCode`; 20 `CodeTaken`; 10 `NoItem`, 11 `NoVariation`,
/// 13 `NoQuota`; 21 `BadTarget`; 22 `CannotBlock`; 25 `NoHeadroom`; 28 `SoldOut` with the least quota of which it
/// takes too much, unless it ignores quotas; 16 `Full`.
#[tactic(auto, unfolding(crate::specs::Made::voucher_made))]
pub fn make<B: Book>(
    draft: &mut Draft<'_, B>,
    alloc: Global,
    draw: Draw,
    new: &NewVoucher,
) -> Result<Voucher, VoucherRefusal>
    ensures { DecidesBy Memory (voucher_made new.now draw) (λ row. PutVoucher row ∷ [])
        draft.old draft.new result }
{
    let row = new_row(alloc, new, draw, draft.next_voucher())?;
    test_row(draft, new.code.as_ref(), &row)?;
    let takes_voucher = draft.takes_voucher();
    let copy = row.copy(alloc)?;
    let mark = draft.mark();
    place(draft, alloc, row, 0)?;
    let tested = test_table(takes_voucher);
    draft.end_attempt(mark, tested)?;
    draft.use_voucher_id();
    Ok(copy)
}

// The table has to take the row.
fn test_table(takes: bool) -> Result<(), VoucherRefusal>
    ensures { result ≡ check takes (Catalogue Full) }
{
    match takes {
        true => Ok(()),
        false => Err(VoucherRefusal::Catalogue(CatalogueRefusal::Full)),
    }
}

/// Changes the voucher of an id, and answers a copy of it. What isn't given stays. A refusal leaves the draft as it was.
/// Refusals, in this order: 23 `NoVoucher`; 2 `TooLarge`; 33 `ReservedCode` of another code than its own;
/// 20 `CodeTaken`; 10 `NoItem`, 11 `NoVariation`, 13 `NoQuota`; 21 `BadTarget`; 22 `CannotBlock`; 27 `InUse` where its
/// code, item, variation or quota would change and a row names it; 25 `NoHeadroom`; 34 `OverBudget` where it took more
/// off than the new budget; 28 `SoldOut` with the least quota of which it takes too much, unless it then ignores quotas.
#[tactic(auto, unfolding(crate::specs::Changed::voucher_changed))]
pub fn patch<B: Book>(
    draft: &mut Draft<'_, B>,
    alloc: Global,
    id: u64,
    patch: &VoucherPatch,
) -> Result<Voucher, VoucherRefusal>
    ensures { DecidesBy Memory (voucher_changed id patch.now) (λ row. PutVoucher row ∷ [])
        draft.old draft.new result }
{
    let row = match draft.rows().voucher(id) {
        None => return Err(VoucherRefusal::NoVoucher),
        Some(old) => changed_row(draft, alloc, patch, old)?,
    };
    let taken_off = draft.spent(row.id);
    let copy = row.copy(alloc)?;
    place(draft, alloc, row, taken_off)?;
    Ok(copy)
}

// The row that is asked for, where it may be.
#[tactic(auto, unfolding(crate::specs::Changed::changed_row))]
fn changed_row<B: Book>(
    draft: &Draft<'_, B>,
    alloc: Global,
    patch: &VoucherPatch,
    old: &Voucher,
) -> Result<Voucher, VoucherRefusal>
    ensures { AnswersBy Memory (changed_row patch.now (now draft.now).lists old.now) result }
{
    let row = patched_row(alloc, patch, old)?;
    test_row(draft, new_code(&patch.code, &old.code), &row)?;
    if !may_change(draft, old, &row) {
        return Err(VoucherRefusal::InUse);
    }
    Ok(row)
}

// Whether it may be changed so: one in use keeps its code and what it names.
fn may_change<B: Book>(draft: &Draft<'_, B>, old: &Voucher, row: &Voucher) -> bool
    ensures { result ≡ may_change old.now row.now (now draft.now).lists }
{
    names_the_same(old, row) || !draft.rows().is_used(old.id)
}

// Whether code, item, variation and quota are as they were.
fn names_the_same(old: &Voucher, row: &Voucher) -> bool
    ensures { result ≡ names_the_same old.now row.now }
{
    old.code.same(row.code.as_str())
        && same_id(old.item, row.item)
        && same_id(old.variation, row.variation)
        && same_id(old.quota, row.quota)
}

/// Deletes the voucher of an id. A refusal leaves the draft as it was.
/// Refusals, in this order: 23 `NoVoucher`; 27 `InUse` where a row names it.
#[tactic(auto, unfolding(crate::specs::Deleted::voucher_deleted))]
pub fn delete<B: Book>(
    draft: &mut Draft<'_, B>,
    alloc: Global,
    id: u64,
) -> Result<(), VoucherRefusal>
    ensures { DeletesBy Memory (voucher_deleted id) (DropVoucher id ∷ [])
        draft.old draft.new result }
{
    if draft.rows().voucher(id).is_none() {
        return Err(VoucherRefusal::NoVoucher);
    }
    if draft.rows().is_used(id) {
        return Err(VoucherRefusal::InUse);
    }
    draft.drop_voucher(alloc, id)?;
    Ok(())
}
