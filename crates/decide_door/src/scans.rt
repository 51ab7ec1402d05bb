//! Scanning tickets at a door.

ghost use Rattle.std.specs.Prelude.{◌≡◌, [], ◌∷◌, None, IfOk};
ghost use Rattle.model_commands.specs.declared.doors.DoorRefusal.TheVariants.{Memory};
ghost use Rattle.draft_changes.specs.Decides.{DecidesBy};
ghost use Rattle.draft_changes.specs.DraftState.{now};
ghost use Rattle.model_rows.specs.declared.changes.Change.TheVariants.{PutCheckin};
ghost use Rattle.model_rows.specs.Lists.{checkin_at};
ghost use Rattle.decide_door.specs.Scanned.{checkin_row, checkin_stored, ticket_scanned, scan_puts};

use crate::verdict::{Admission, judge};
use book_usage::Book;
use draft_changes::Draft;
use model_catalogue::CatalogueRefusal;
use model_commands::{DoorRefusal, Scan, Ticket};
use model_rows::{Checkin, OrderPos};
use std::alloc::{AllocError, Global};

/// Scans a ticket by the list of an id, in a draft that has changed no position and no check-in and whose next check-in's
/// id is new, and answers a copy of the ticket's position where it is let through. A scan with a nonce that is stored for
/// its list and position adds nothing. A refusal leaves the draft as it was.
/// Refusals, in this order: 50 `NoList`; 51 `Invalid`, no such position; 52 `Canceled`, its order is expired or
/// cancelled; 53 `Product`, the list isn't for its item; 54 `Unpaid`, its order is pending, which takes `force`, or
/// `ignore_unpaid` and a list that includes pending orders; 55 `AlreadyRedeemed`, an entry after another one, which
/// takes `force`, or a list that allows several or one after an exit; 16 `Full`. 6 `Memory` may come anywhere.
#[tactic(auto, unfolding(crate::specs::Scanned::ticket_scanned, crate::specs::Scanned::scan_puts))]
pub fn redeem<B: Book>(
    draft: &mut Draft<'_, B>,
    alloc: Global,
    list: u64,
    ticket: &Ticket,
    scan: &Scan,
) -> Result<OrderPos, DoorRefusal>
    requires positions { (now draft.old).lists.positions ≡ draft.old.log.base.positions }
    requires checkins { (now draft.old).lists.checkins ≡ draft.old.log.base.checkins }
    requires new { checkin_at (now draft.old).next.checkin (now draft.old).lists ≡ None }
    ensures { DecidesBy Memory (ticket_scanned list ticket.now scan.now)
        (λ _. scan_puts list ticket.now scan.now (now draft.old))
        draft.old draft.new result }
{
    match judge(draft, alloc, list, ticket, scan)? {
        Admission::Again(position) => Ok(position),
        Admission::New(position) => {
            let row = new_row(draft, alloc, list, &position, scan)?;
            store(draft, alloc, row, position)
        }
    }
}

// The check-in of a position that is let through.
fn new_row<B: Book>(
    draft: &Draft<'_, B>,
    alloc: Global,
    list: u64,
    position: &OrderPos,
    scan: &Scan,
) -> Result<Checkin, AllocError>
    ensures { IfOk result (λ row. row ≡ checkin_row list position.now scan.now (now draft.now)) }
{
    let nonce = match &scan.nonce {
        None => None,
        Some(nonce) => Some(nonce.copy(alloc)?),
    };
    Ok(Checkin {
        id: draft.next_checkin(),
        list,
        position: position.id,
        kind: scan.kind,
        datetime: scan.datetime.unwrap_or(draft.moment()),
        nonce,
    })
}

// Puts the check-in, if the table takes it, and counts its id as used.
fn store<B: Book>(
    draft: &mut Draft<'_, B>,
    alloc: Global,
    row: Checkin,
    position: OrderPos,
) -> Result<OrderPos, DoorRefusal>
    requires checkins { (now draft.old).lists.checkins ≡ draft.old.log.base.checkins }
    requires new { checkin_at row.id (now draft.old).lists ≡ None }
    ensures { DecidesBy Memory (checkin_stored row position) (λ _. PutCheckin row ∷ [])
        draft.old draft.new result }
{
    if !draft.takes_checkin() {
        return Err(DoorRefusal::Catalogue(CatalogueRefusal::Full));
    }
    draft.put_checkin(alloc, row)?;
    draft.use_checkin_id();
    Ok(position)
}
