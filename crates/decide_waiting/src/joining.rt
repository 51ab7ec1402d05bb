//! Joining the waiting list.

ghost use Rattle.std.specs.Prelude.{◌≡◌, ◌<◌, ◌∷◌, [], IfOk, OnOk, OnErr};
ghost use Rattle.model_commands.specs.declared.waiting.WaitingRefusal.TheVariants.{Memory};
ghost use Rattle.draft_changes.specs.Decides.{Logs, DecidesBy};
ghost use Rattle.draft_changes.specs.DraftState.{now, Extends};
ghost use Rattle.model_rows.specs.declared.changes.Change.TheVariants.{PutWaiting};
ghost use Rattle.model_rows.specs.Numbered.{with_waiting};
ghost use Rattle.decide_waiting.specs.Joined.{waiting_row, entry_joined};

use crate::places::is_open;
use book_usage::Book;
use draft_changes::Draft;
use model_catalogue::{CatalogueRefusal, Product};
use model_commands::{NewWaiting, WaitingRefusal};
use model_rows::Waiting;
use std::alloc::{AllocError, Global};

// The new entry.
fn new_row<B: Book>(
    draft: &Draft<'_, B>,
    alloc: Global,
    new: &NewWaiting,
    product: Product,
) -> Result<Waiting, AllocError>
    ensures { IfOk result (λ row. row ≡ waiting_row new.now (now draft.now) product) }
{
    Ok(Waiting {
        id: draft.next_waiting(),
        email: new.email.copy(alloc)?,
        product,
        priority: new.priority,
        created: draft.moment(),
        voucher: None,
    })
}

/// Adds an entry to the waiting list, in a draft that has changed none of it, and answers a copy of it.
/// Whoever waits for what is in no quota waits until it is put into one.
/// A refusal leaves the draft as it was.
/// Refusals, in this order: 10 `NoItem`, 11 `NoVariation`, 12 `NeedsVariation`, 15 `Inactive`; 30 `AlreadyWaiting`
/// where an entry of the same email waits for the same product without a voucher; 29 `StillAvailable` where the product
/// is in a quota and each of its quotas has a place left but for those who wait; 16 `Full`.
/// 6 `Memory` may come anywhere.
#[tactic(auto, unfolding(crate::specs::Joined::entry_joined))]
pub fn join<B: Book>(
    draft: &mut Draft<'_, B>,
    alloc: Global,
    new: &NewWaiting,
) -> Result<Waiting, WaitingRefusal>
    requires { (now draft.old).lists.waiting ≡ draft.old.log.base.waiting }
    ensures { DecidesBy Memory (entry_joined new.now) (λ row. PutWaiting row ∷ [])
        draft.old draft.new result }
{
    let product = draft.rows().catalogue().product(new.item, new.variation)?;
    if !draft.rows().catalogue().is_active(product) {
        return Err(WaitingRefusal::Catalogue(CatalogueRefusal::Inactive));
    }
    if draft.book().is_waiting(new.email.as_str(), product) {
        return Err(WaitingRefusal::AlreadyWaiting);
    }
    if is_open(draft, product) {
        return Err(WaitingRefusal::StillAvailable);
    }
    if !draft.takes_waiting() {
        return Err(WaitingRefusal::Catalogue(CatalogueRefusal::Full));
    }
    let row = new_row(draft, alloc, new, product)?;
    Ok(put_new(draft, alloc, row)?)
}

// Puts the row, and counts its id as used.
fn put_new<B: Book>(
    draft: &mut Draft<'_, B>,
    alloc: Global,
    row: Waiting,
) -> Result<Waiting, AllocError>
    requires { (now draft.old).next.waiting < 9007199254740992 }
    ensures after { OnOk result (now draft.new ≡ with_waiting row (now draft.old)) }
    ensures copy { IfOk result (λ copy. copy ≡ row) }
    ensures extends { Extends draft.old draft.new }
    ensures same { OnErr result (draft.new ≡ draft.old) }
    ensures changes { OnOk result (Logs (PutWaiting row ∷ []) draft.old draft.new) }
{
    let copy = row.copy(alloc)?;
    draft.put_waiting(alloc, row)?;
    draft.use_waiting_id();
    Ok(copy)
}
