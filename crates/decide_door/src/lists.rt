//! Adding check-in lists.

ghost use Rattle.std.specs.Prelude.{◌≡◌, [], ◌∷◌, IfOk};
ghost use Rattle.model_commands.specs.declared.doors.DoorRefusal.TheVariants.{Memory};
ghost use Rattle.draft_changes.specs.Decides.{DecidesBy};
ghost use Rattle.draft_changes.specs.DraftState.{now};
ghost use Rattle.model_rows.specs.declared.changes.Change.TheVariants.{PutCheckinList};
ghost use Rattle.decide_door.specs.ListAdded.{list_row, items_stand, list_added};

use base_tables::Ids;
use book_usage::{Book, Catalogue};
use draft_changes::Draft;
use model_catalogue::CatalogueRefusal;
use model_commands::{DoorRefusal, NewCheckinList};
use model_rows::CheckinList;
use std::alloc::{AllocError, Global};

/// Adds a check-in list, in a draft that has changed none of them, and answers a copy of it. Item ids that are given
/// twice count once. A refusal leaves the draft as it was.
/// Refusals, in this order: 10 `NoItem` where an item that it names is unknown, also where it is for all products;
/// 16 `Full`. 6 `Memory` may come anywhere.
#[tactic(auto, unfolding(crate::specs::ListAdded::list_added))]
pub fn add_list<B: Book>(
    draft: &mut Draft<'_, B>,
    alloc: Global,
    new: &NewCheckinList,
) -> Result<CheckinList, DoorRefusal>
    requires { (now draft.old).lists.checkin_lists ≡ draft.old.log.base.checkin_lists }
    ensures { DecidesBy Memory (list_added new.now) (λ row. PutCheckinList row ∷ [])
        draft.old draft.new result }
{
    let row = new_row(alloc, new, draft.next_checkin_list())?;
    if !items_stand(draft.rows().catalogue(), row.limit_products.as_slice()) {
        return Err(DoorRefusal::Catalogue(CatalogueRefusal::NoItem));
    }
    if !draft.takes_checkin_list() {
        return Err(DoorRefusal::Catalogue(CatalogueRefusal::Full));
    }
    let copy = row.copy(alloc)?;
    draft.put_checkin_list(alloc, row)?;
    draft.use_checkin_list_id();
    Ok(copy)
}

// The row that is asked for.
fn new_row(alloc: Global, new: &NewCheckinList, id: u64) -> Result<CheckinList, AllocError>
    ensures { IfOk result (λ row. row ≡ list_row new.now id) }
{
    Ok(CheckinList {
        id,
        name: new.name.copy(alloc)?,
        all_products: new.all_products,
        limit_products: Ids::rising(alloc, new.limit_products.as_slice())?,
        include_pending: new.include_pending,
        allow_multiple_entries: new.allow_multiple_entries,
        allow_entry_after_exit: new.allow_entry_after_exit,
    })
}

// Whether an item of each of these ids stands.
#[tactic(auto, unfolding(crate::specs::ListAdded::items_stand))]
fn items_stand(catalogue: &Catalogue, ids: &[u64]) -> bool
    ensures { result ≡ items_stand ids.now catalogue.now.lists }
{
    ids.iter().all(|id| catalogue.item(*id).is_some())
}
