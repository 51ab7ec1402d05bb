//! The order of those who wait.

ghost use Rattle.std.specs.Prelude.{◌≡◌, IfOk, map};
ghost use Rattle.draft_changes.specs.DraftState.{now};
ghost use Rattle.model_rows.specs.Waits.{waiters};
ghost use Rattle.decide_waiting.specs.Serving.{queue};
ghost use Rattle.decide_waiting.specs.Turns.{turn_of};

use book_usage::{Book, LookUps};
use draft_changes::Draft;
use model_rows::Waiting;
use std::alloc::{AllocError, Global};
use std::cmp::Reverse;

/// Where an entry stands in the queue: by priority downward, then by the moment it was made, then by id.
#[derive(Clone, Copy, PartialEq, Eq, PartialOrd, Ord)]
pub struct Turn {
    pub priority: Reverse<i32>,
    pub created: u64,
    pub id: u64,
}

/// The ids of the entries without voucher, in their turn, in a draft that has changed no waiting entry.
/// `Err` where there is no memory for them.
#[tactic(auto, unfolding(crate::specs::Serving::queue))]
pub fn ids_in_turn<B: Book>(draft: &Draft<'_, B>, alloc: Global) -> Result<Vec<u64>, AllocError>
    requires { (now draft.now).lists.waiting ≡ draft.now.log.base.waiting }
    ensures { IfOk result (λ ids. ids.items ≡ map (λ e. e.id) (queue (now draft.now).lists)) }
{
    let waiters = draft.book().waiters(alloc)?;
    let mut turns = turns_of(draft, alloc, &waiters)?;
    turns.sort_unstable();
    ids_of(alloc, &turns)
}

// Where each entry without voucher stands, of which these are the ids.
fn turns_of<B: Book>(
    draft: &Draft<'_, B>,
    alloc: Global,
    ids: &[u64],
) -> Result<Vec<Turn>, AllocError>
    requires { ids.now ≡ map (λ e. e.id) (waiters (now draft.now).lists) }
    ensures { IfOk result (λ turns. turns.items ≡ map turn_of (waiters (now draft.now).lists)) }
{
    draft.recall_invariant();
    let mut turns = Vec::new(alloc);
    for id in ids {
        if let Some(entry) = draft.rows().entry(*id) {
            turns.push(turn_of(entry))?;
        }
    }
    Ok(turns)
}

// Where an entry stands.
fn turn_of(entry: &Waiting) -> Turn
    ensures { result ≡ turn_of entry.now }
{
    Turn {
        priority: Reverse(entry.priority.get()),
        created: entry.created.get(),
        id: entry.id,
    }
}

// The ids, in their order.
fn ids_of(alloc: Global, turns: &[Turn]) -> Result<Vec<u64>, AllocError>
    ensures { IfOk result (λ ids. ids.items ≡ map (λ t. t.id) turns.now) }
{
    turns.iter().map(|turn| turn.id).collect(alloc)
}
