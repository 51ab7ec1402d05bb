//! Serving the waiting list.

ghost use Rattle.std.specs.Prelude.{◌≡◌, IfOk, OnOk, OnErr};
ghost use Rattle.draft_changes.specs.Decides.{Logs};
ghost use Rattle.draft_changes.specs.DraftState.{now, Extends};
ghost use Rattle.model_invariant.specs.Sound.{IsSound};
ghost use Rattle.decide_waiting.specs.Sending.{voucher_sent};
ghost use Rattle.decide_waiting.specs.Steps.{CanSend};
ghost use Rattle.decide_waiting.specs.Serving.{all_served, served_changes};
ghost use Rattle.decide_waiting.specs.Steps.{ids_noted, changes_logged, run_from, run_so_far, state_after};
ghost use Rattle.decide_waiting.specs.Steps.{all_places_left};

use crate::places::{all_after_one, first_without_place, places_left};
use crate::sending::send_to;
use crate::turns::ids_in_turn;
use base_values::Draw;
use book_usage::{Book, LookUps};
use draft_changes::Draft;
use model_commands::WaitingRefusal;
use std::alloc::{AllocError, Global};

/// Sends a voucher to each waiting entry that can be sent one in its turn, in a draft that has changed no waiting entry,
/// and answers the ids of these entries in their turn: a higher priority goes first, then who came first.
/// It ends where the table of vouchers is full. `Err` where there is no memory; the draft is then as it was.
pub fn send_all<B: Book>(
    draft: &mut Draft<'_, B>,
    alloc: Global,
    draw: Draw,
) -> Result<Vec<u64>, AllocError>
    requires sound { IsSound (now draft.old) }
    requires waiting { (now draft.old).lists.waiting ≡ draft.old.log.base.waiting }
    ensures done { IfOk result (λ ids.
        all_served draw (now draft.old) ≡ (now draft.new, ids.items)) }
    ensures extends { Extends draft.old draft.new }
    ensures same { OnErr result (draft.new ≡ draft.old) }
    ensures changes { OnOk result (
        Logs (served_changes draw (now draft.old)) draft.old draft.new) }
{
    let queue = ids_in_turn(draft, alloc)?;
    if queue.is_empty() {
        return Ok(queue);
    }
    let mut left = places_left(draft, alloc)?;
    let mark = draft.mark();
    let served = send_each(draft, alloc, draw, &queue, &mut left);
    draft.end_attempt(mark, served)
}

// Sends to each of these entries in turn, or skips it, until the table of vouchers is full.
// Without memory some of them are sent.
fn send_each<B: Book>(
    draft: &mut Draft<'_, B>,
    alloc: Global,
    draw: Draw,
    queue: &[u64],
    left: &mut Vec<Option<u128>>,
) -> Result<Vec<u64>, AllocError>
    requires can { CanSend (now draft.old) }
    requires left { left.old.items ≡ all_places_left (now draft.old) }
    ensures done { IfOk result (λ ids.
        run_from draw queue.now draft.old ≡ run_so_far ids.items draft.new) }
    ensures extends { Extends draft.old draft.new }
{
    let mut ids = Vec::new(alloc);
    for id in queue {
        if !draft.takes_voucher() {
            return Ok(ids);
        }
        send_one(draft, alloc, draw, *id, left, &mut ids)?;
    }
    Ok(ids)
}

// Sends to one entry, notes its id and takes its places, or skips it where it can't be sent.
#[tactic(auto, unfolding(crate::specs::Sending::voucher_sent))]
fn send_one<B: Book>(
    draft: &mut Draft<'_, B>,
    alloc: Global,
    draw: Draw,
    id: u64,
    left: &mut Vec<Option<u128>>,
    ids: &mut Vec<u64>,
) -> Result<(), AllocError>
    requires can { CanSend (now draft.old) }
    requires left { left.old.items ≡ all_places_left (now draft.old) }
    ensures done { OnOk result (now draft.new
        ≡ state_after (now draft.old) (voucher_sent id draw (now draft.old))) }
    ensures noted { OnOk result (ids.new.items
        ≡ ids_noted (voucher_sent id draw (now draft.old)) ids.old.items) }
    ensures logged { OnOk result (draft.new.log.changes ≡ changes_logged draw
        (now draft.old) (voucher_sent id draw (now draft.old)) draft.old.log.changes) }
    ensures left { OnOk result (left.new.items ≡ all_places_left (now draft.new)) }
    ensures extends { Extends draft.old draft.new }
{
    let entry = match draft.rows().entry(id) {
        None => return Ok(()),
        Some(entry) => entry.copy(alloc)?,
    };
    let product = entry.product;
    let closed = first_without_place(draft.rows().catalogue().quotas(), left, product);
    match send_to(draft, alloc, draw, entry, closed) {
        Ok(row) => {
            *left = all_after_one(alloc, draft.rows().catalogue().quotas(), left, product)?;
            Ok(ids.push(row.id)?)
        }
        Err(WaitingRefusal::Memory) => Err(AllocError),
        Err(_) => Ok(()),
    }
}
