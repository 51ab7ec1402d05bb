//! Adding many cart positions in one call.

ghost use Rattle.std.specs.Prelude.{◌≡◌, [], ◌∷◌, IfOk};
ghost use Rattle.model_commands.specs.declared.orders.OrderRefusal.TheVariants.{Memory};
ghost use Rattle.draft_changes.specs.Decides.{Logs, DecidesBy};
ghost use Rattle.draft_changes.specs.DraftState.{now, Extends};
ghost use Rattle.decide_orders.specs.Bulk.{bulk_changes, entry_added, all_added, many_added};

use crate::carts::add_position;
use base_values::{Draw, List};
use book_usage::Book;
use draft_changes::Draft;
use model_commands::{Entry, OrderRefusal, Outcome};
use model_faults::EntryFault;
use model_rows::CartPos;
use std::alloc::{AllocError, Global};

// How many entries one call may have.
const MOST_ENTRIES: usize = 500;

/// Adds a cart position for each entry. Each entry is answered by itself, as a request of its own after those before it,
/// and a refused one changes nothing.
/// Refusals of the whole call, which leave the draft as it was: 44 `TooMany` of more than 500 entries, 6 `Memory`.
#[tactic(auto, unfolding(crate::specs::Bulk::many_added))]
pub fn add_many<B: Book>(
    draft: &mut Draft<'_, B>,
    alloc: Global,
    draw: Draw,
    entries: &[Entry],
) -> Result<List<Outcome>, OrderRefusal>
    ensures { DecidesBy Memory (many_added entries.now draw) bulk_changes
        draft.old draft.new result }
{
    if MOST_ENTRIES < entries.len() {
        return Err(OrderRefusal::TooMany);
    }
    let mark = draft.mark();
    let added = add_all(draft, alloc, draw, entries);
    let outcomes = draft.end_attempt(mark, added)?;
    Ok(List::new(outcomes))
}

// Adds each entry after those before it. Without memory some of them are added.
fn add_all<B: Book>(
    draft: &mut Draft<'_, B>,
    alloc: Global,
    draw: Draw,
    entries: &[Entry],
) -> Result<Vec<Outcome>, AllocError>
    ensures done { IfOk result (λ outcomes.
        all_added entries.now draw (now draft.old) ≡ (now draft.new, outcomes.items)) }
    ensures changes { IfOk result (λ o. Logs (bulk_changes o.items) draft.old draft.new) }
    ensures extends { Extends draft.old draft.new }
{
    let mut outcomes = Vec::new(alloc);
    for entry in entries {
        outcomes.push(add_entry(draft, alloc, draw, entry)?)?;
    }
    Ok(outcomes)
}

// Adds one entry, or answers why it isn't added.
fn add_entry<B: Book>(
    draft: &mut Draft<'_, B>,
    alloc: Global,
    draw: Draw,
    entry: &Entry,
) -> Result<Outcome, AllocError>
    ensures done { IfOk result (λ outcome.
        entry_added entry.now draw (now draft.old) ≡ (now draft.new, outcome)) }
    ensures changes { IfOk result (λ o. Logs (bulk_changes (o ∷ [])) draft.old draft.new) }
    ensures extends { Extends draft.old draft.new }
{
    match entry {
        Entry::Faulty(fault) => Ok(Outcome::Faulty(*fault)),
        Entry::New(new) => match add_position(draft, alloc, draw, new) {
            Ok(row) => Ok(Outcome::Added(row)),
            Err(OrderRefusal::Memory) => Err(AllocError),
            Err(refusal) => Ok(Outcome::Refused(refusal)),
        },
    }
}
