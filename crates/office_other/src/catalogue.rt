//! Commands on the catalogue. None of them depends on its moment or its draw. A refusal is a reply, with the number that its
//! decision in decide_catalogue gives it; the error is want of memory alone.

ghost use Rattle.std.specs.Prelude.{◌≡◌, IfOk};
ghost use Rattle.model_rows.specs.Numbered.{puts_of};
ghost use Rattle.office_step.specs.IsStep.{IsTimelessStep};
ghost use Rattle.model_commands.specs.declared.requests.Command.{Command};

use model_catalogue::{
    CatalogueRefusal, ItemPatch, ItemRows, NewItem, NewQuota, NewVariation, QuotaPatch,
};
use model_commands::{Kind, Refusal, Reply, Shown};
use model_rows::{Change, Changes, NextIds};
use office_step::{Book, Drafted, offered, refused};
use std::alloc::{AllocError, Global};

/// Adds an item with its variations.
pub fn add_item<B: Book>(
    book: &B,
    alloc: Global,
    new: &NewItem,
) -> Result<(Drafted, Reply), AllocError>
    ensures { IfOk result (IsTimelessStep (Command.AddItem new.now) (B.state book.now)) }
{
    let next = book.next_ids();
    let catalogue = book.catalogue();
    match decide_catalogue::add_item(catalogue, alloc, new, next.item, next.variation) {
        Ok(rows) => {
            let list = puts_of(alloc, &rows)?;
            let next = NextIds {
                item: next.item + 1,
                variation: next.variation + rows.variations.as_slice().len() as u64,
                ..next
            };
            Ok(offered(
                alloc,
                Changes::new(list, next),
                Reply::Made(Shown::Item(rows)),
            ))
        }
        Err(CatalogueRefusal::Memory) => Err(AllocError),
        Err(refusal) => Ok(refused(book, alloc, Kind::AddItem, Refusal::Catalogue(refusal))),
    }
}

/// Changes an item.
pub fn change_item<B: Book>(
    book: &B,
    alloc: Global,
    id: u64,
    patch: &ItemPatch,
) -> Result<(Drafted, Reply), AllocError>
    ensures { IfOk result (IsTimelessStep (Command.ChangeItem id patch.now) (B.state book.now)) }
{
    let catalogue = book.catalogue();
    match decide_catalogue::change_item(catalogue, alloc, id, patch) {
        Ok(row) => {
            let rows = catalogue.with_variations(alloc, &row)?;
            let list = vec![in alloc; Change::PutItem(row)]?;
            let changes = Changes::new(list, book.next_ids());
            Ok(offered(alloc, changes, Reply::Found(Shown::Item(rows))))
        }
        Err(CatalogueRefusal::Memory) => Err(AllocError),
        Err(refusal) => Ok(refused(book, alloc, Kind::ChangeItem, Refusal::Catalogue(refusal))),
    }
}

/// Adds a variation to an item.
pub fn add_variation<B: Book>(
    book: &B,
    alloc: Global,
    item: u64,
    new: &NewVariation,
) -> Result<(Drafted, Reply), AllocError>
    ensures { IfOk result (IsTimelessStep (Command.AddVariation item new.now) (B.state book.now)) }
{
    let next = book.next_ids();
    let catalogue = book.catalogue();
    match decide_catalogue::add_variation(catalogue, alloc, item, new, next.variation) {
        Ok(made) => {
            let put = Change::PutVariation(made.row.copy(alloc)?);
            let next = NextIds {
                variation: next.variation + 1,
                ..next
            };
            let list = vec![in alloc; put]?;
            let reply = Reply::Made(Shown::Variation(made));
            Ok(offered(alloc, Changes::new(list, next), reply))
        }
        Err(CatalogueRefusal::Memory) => Err(AllocError),
        Err(refusal) => {
            Ok(refused(book, alloc, Kind::AddVariation, Refusal::Catalogue(refusal)))
        }
    }
}

/// Adds a quota.
pub fn add_quota<B: Book>(
    book: &B,
    alloc: Global,
    new: &NewQuota,
) -> Result<(Drafted, Reply), AllocError>
    ensures { IfOk result (IsTimelessStep (Command.AddQuota new.now) (B.state book.now)) }
{
    let next = book.next_ids();
    match decide_catalogue::add_quota(book.catalogue(), alloc, new, next.quota) {
        Ok(row) => {
            let copy = row.copy(alloc)?;
            let next = NextIds {
                quota: next.quota + 1,
                ..next
            };
            let list = vec![in alloc; Change::PutQuota(row)]?;
            Ok(offered(
                alloc,
                Changes::new(list, next),
                Reply::Made(Shown::Quota(copy)),
            ))
        }
        Err(CatalogueRefusal::Memory) => Err(AllocError),
        Err(refusal) => Ok(refused(book, alloc, Kind::AddQuota, Refusal::Catalogue(refusal))),
    }
}

/// Gives a quota another size.
pub fn resize_quota<B: Book>(
    book: &B,
    alloc: Global,
    id: u64,
    patch: QuotaPatch,
) -> Result<(Drafted, Reply), AllocError>
    ensures { IfOk result (IsTimelessStep (Command.ResizeQuota id patch) (B.state book.now)) }
{
    match decide_catalogue::resize(book.catalogue(), alloc, id, patch) {
        Ok(row) => {
            let copy = row.copy(alloc)?;
            let list = vec![in alloc; Change::PutQuota(row)]?;
            let changes = Changes::new(list, book.next_ids());
            Ok(offered(alloc, changes, Reply::Found(Shown::Quota(copy))))
        }
        Err(CatalogueRefusal::Memory) => Err(AllocError),
        Err(refusal) => Ok(refused(book, alloc, Kind::ResizeQuota, Refusal::Catalogue(refusal))),
    }
}

// The changes that put an item and its variations.
fn puts_of(alloc: Global, rows: &ItemRows) -> Result<Vec<Change>, AllocError>
    ensures { IfOk result (λ list. list.items ≡ puts_of rows.now) }
{
    let mut list = vec![in alloc; Change::PutItem(rows.item.copy(alloc)?)]?;
    for variation in rows.variations.as_slice() {
        list.push(Change::PutVariation(variation.copy(alloc)?))?;
    }
    Ok(list)
}
