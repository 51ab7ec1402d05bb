//! What one commit writes, all of it.

ghost use Rattle.std.specs.Prelude.{◌+◌};
ghost use Rattle.model_answers.specs.ShopView.{kept_listed};
ghost use Rattle.file_schema.specs.Tables.{schema};
ghost use Rattle.file_meaning.specs.Made.{commit_made, next_after};
ghost use Rattle.file_tables.specs.Committed.{Commits};
ghost use Rattle.file_tables.specs.Numbered.{NumbersOn};

use crate::writes::answers::write_answer;
use crate::writes::counts::write_counts;
use crate::writes::writable::write_each;
use base_values::Moment;
use file_rows::ShopRow;
use file_schema::{RowError, Writing};
use model_answers::Kept;
use model_rows::{Change, CountRows};
use sqlite::{Alter, Transaction};
use std::alloc::Global;

/// What one commit writes: the shop's row, changes and the counts that they change, and at a moment an answer to keep. Rows
/// without an id of their own are numbered on from a number that is free.
#[derive(Drop)]
pub(crate) struct Commit<'a> {
    pub(crate) alloc: Global,
    pub(crate) shop: &'a ShopRow,
    pub(crate) changes: &'a [Change],
    pub(crate) counts: &'a CountRows,
    pub(crate) from: u64,
    pub(crate) kept: Option<&'a Kept>,
    pub(crate) at: Moment,
}

impl Writing<u64> for Commit<'_> {
    ghost over = { λ _. schema };

    ghost turns = { λ what. Commits what.shop.now what.changes.now what.counts.now what.from
        (kept_listed what.kept) what.at };

    fn write<S: Alter>(&self, tx: &mut Transaction<'_, S>) -> Result<u64, RowError> {
        write_all(tx, self)
    }
}

// Writes all that a commit writes, inside a transaction; the answers that are past then go. Gives the number that is free
// afterwards. Refusals: 6, 60 where the file has no such table, 63.
fn write_all<S: Alter>(tx: &mut Transaction<'_, S>, commit: &Commit<'_>) -> Result<u64, RowError>
    ensures { NumbersOn S.Store tx.old tx.new commit.now.from
        (commit_made commit.now.shop.now commit.now.changes.now commit.now.counts.now
        commit.now.from (kept_listed commit.now.kept) commit.now.at)
        (next_after commit.now.changes.now commit.now.from + 1) result }
{
    file_writes::put(tx, commit.shop)?;
    let number = write_each(commit.alloc, tx, commit.changes, commit.from)?;
    write_counts(commit.alloc, tx, commit.counts, number)?;
    write_answer(tx, number, commit.kept, commit.at)?;
    match number.checked_add(1) {
        Some(free) => Ok(free),
        None => Err(RowError::Store),
    }
}
