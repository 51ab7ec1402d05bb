//! Changing and leaving: what may become of an entry that waits.

ghost use Rattle.std.specs.Prelude.{◌∷◌, []};
ghost use Rattle.model_commands.specs.declared.waiting.WaitingRefusal.TheVariants.{Memory};
ghost use Rattle.draft_changes.specs.Decides.{DecidesBy, DeletesBy};
ghost use Rattle.model_rows.specs.Lists.{waiting_at};
ghost use Rattle.model_rows.specs.declared.changes.Change.TheVariants.{PutWaiting, DropWaiting};
ghost use Rattle.decide_waiting.specs.Changed.{changed_entry, entry_changed};
ghost use Rattle.decide_waiting.specs.Left.{entry_left};

use crate::rows::patched;
use book_usage::{Book, LookUps};
use draft_changes::Draft;
use model_commands::{WaitingPatch, WaitingRefusal};
use model_rows::Waiting;
use std::alloc::Global;

/// Gives the waiting entry of an id the priority that is given, if one is, and answers a copy of it.
/// A refusal leaves the draft as it was.
/// Refusals, in this order: 32 `NoEntry`; 31 `AlreadySent`. 6 `Memory` may come anywhere.
#[tactic(auto, unfolding(crate::specs::Changed::entry_changed))]
pub fn change<B: Book>(
    draft: &mut Draft<'_, B>,
    alloc: Global,
    id: u64,
    patch: WaitingPatch,
) -> Result<Waiting, WaitingRefusal>
    ensures { DecidesBy Memory (entry_changed id patch) (λ row. PutWaiting row ∷ [])
        draft.old draft.new result }
{
    let entry = match draft.rows().entry(id) {
        None => return Err(WaitingRefusal::NoEntry),
        Some(entry) => entry.copy(alloc)?,
    };
    if entry.voucher.is_some() {
        return Err(WaitingRefusal::AlreadySent);
    }
    let row = patched(entry, patch);
    let answer = row.copy(alloc)?;
    draft.put_waiting(alloc, row)?;
    Ok(answer)
}

/// Removes the waiting entry of an id. A refusal leaves the draft as it was.
/// Refusals, in this order: 32 `NoEntry`; 31 `AlreadySent`. 6 `Memory` may come after them.
#[tactic(auto, unfolding(crate::specs::Left::entry_left))]
pub fn leave<B: Book>(
    draft: &mut Draft<'_, B>,
    alloc: Global,
    id: u64,
) -> Result<(), WaitingRefusal>
    ensures { DeletesBy Memory (entry_left id) (DropWaiting id ∷ []) draft.old draft.new result }
{
    let is_sent = match draft.rows().entry(id) {
        None => return Err(WaitingRefusal::NoEntry),
        Some(entry) => entry.voucher.is_some(),
    };
    if is_sent {
        return Err(WaitingRefusal::AlreadySent);
    }
    draft.drop_waiting(alloc, id)?;
    Ok(())
}
