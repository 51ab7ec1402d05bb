//! The answer that is kept, and those that are past.

ghost use Rattle.std.specs.Prelude.{filter};
ghost use Rattle.model_answers.specs.KeptAnswers.{lasts};
ghost use Rattle.model_answers.specs.ShopView.{kept_listed};
ghost use Rattle.file_rows.specs.Changes.{Changes, ChangesFit};
ghost use Rattle.file_rows.specs.Written.{WritesInside};
ghost use Rattle.file_meaning.specs.Free.{IsFree};
ghost use Rattle.file_meaning.specs.Made.{without_past, with_listed};

use base_values::Moment;
use file_schema::RowError;
use file_writes::{forget, keep};
use model_answers::Kept;
use sqlite::{Alter, Transaction};

// Keeps the answer, unless it is past already.
fn keep_lasting<S: Alter>(
    tx: &mut Transaction<'_, S>,
    number: u64,
    kept: Option<&Kept>,
    at: Moment,
) -> Result<(), RowError>
    ensures { WritesInside S.Store tx.old tx.new
        (Changes (with_listed number (filter (λ k. lasts at k.at) (kept_listed kept.entry))))
        result }
{
    match kept {
        Some(answer) if answer.lasts(at) => keep(tx, number, answer),
        _ => Ok(()),
    }
}

/// Removes the answers that are past at a moment, and then keeps this one: its own key may be that of one that is past.
pub(crate) fn write_answer<S: Alter>(
    tx: &mut Transaction<'_, S>,
    number: u64,
    kept: Option<&Kept>,
    at: Moment,
) -> Result<(), RowError>
    ensures { WritesInside S.Store tx.old tx.new
        (ChangesFit (IsFree number) (λ t. without_past at
        (with_listed number (kept_listed kept.entry) (without_past at t)))) result }
{
    forget(tx, at)?;
    keep_lasting(tx, number, kept, at)
}
