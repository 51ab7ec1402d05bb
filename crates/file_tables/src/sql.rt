//! The tables of a shop in an SQLite file.

ghost use Rattle.std.specs.Prelude.{◌≡◌};
ghost use Rattle.std.specs.List.{AllByRecursion};
ghost use Rattle.sqlite.specs.Held.{state};
ghost use Rattle.sqlite.specs.State.{HasCleanDisk};
ghost use Rattle.model_answers.specs.ShopView.{kept_listed};
ghost use Rattle.file_meaning.specs.Typed.{IsTypedChange, IsTypedKept};
ghost use Rattle.file_tables.specs.Refusals.{refusal_of};
ghost use Rattle.file_tables.specs.Shops.{HoldsWhileOpen, IsOfHouse, Leaves, holds_reordered};

use crate::answers::find_answer;
use crate::tokens::find_number;
use crate::writes::{Commit, takes};
use base_values::{Moment, Response};
use file_meaning::{answer_known, changes_known};
use file_rows::ShopRow;
use file_schema::{RowError, write_whole};
use model_answers::{Kept, Tables, TablesError};
use model_rows::{Changes, CountRows};
use sqlite::{Alter, Connection};
use std::alloc::Global;

/// The tables of a shop in an SQLite file: the connection to it, the shop's row as it was last read or written, and the number
/// from which rows without an id of their own are numbered on.
#[derive(Drop)]
pub struct SqlTables<S: Alter> {
    pub alloc: Global,
    pub connection: Connection<S>,
    pub head: ShopRow,
    pub next_row: u64,
}

impl<S: Alter> SqlTables<S> {
    /// The tables of a connection to a shop's file, whose shop's row was read, and the number that its next row may have.
    pub fn over(alloc: Global, connection: Connection<S>, head: ShopRow, next_row: u64) -> Self
        ensures connection { result.connection ≡ connection }
        ensures head { result.head ≡ head }
        ensures next_row { result.next_row ≡ next_row }
    {
        SqlTables {
            alloc,
            connection,
            head,
            next_row,
        }
    }

    /// The connection.
    pub fn into_connection(self) -> Connection<S>
        ensures { result ≡ self.connection }
    {
        self.connection
    }
}

// Why the tables refuse.
fn refused(error: RowError) -> TablesError
    ensures { result ≡ refusal_of error }
{
    match error {
        RowError::Memory => TablesError::Memory,
        RowError::Foreign | RowError::Damaged | RowError::Store => TablesError::Store,
    }
}

// What types promise of what is committed.
fn types_known(changes: &Changes, kept: Option<&Kept>)
    ensures changes { AllByRecursion IsTypedChange changes.now.list }
    ensures kept { AllByRecursion IsTypedKept (kept_listed kept.entry) }
{
    changes_known(changes.as_slice());
    answer_known(kept);
}

impl<S: Alter> Tables for SqlTables<S> {
    ghost sure = { λ t. HasCleanDisk (state S.Store t.connection) };

    ghost holds = { λ t s ks. HoldsWhileOpen t.head t.next_row (state S.Store t.connection) s ks };

    ghost knows = { λ t house. IsOfHouse t.head t.next_row (state S.Store t.connection) house };

    ghost may_leave = { λ t left. Leaves (state S.Store t.connection) left };

    ghost reorders = { λ t s ks js held more. holds_reordered _ _ _ s ks js held more };

    fn token_of(&mut self, digest: &[u8; 32]) -> Result<Option<u64>, TablesError> {
        match find_number(self.alloc, &mut self.connection, digest) {
            Ok(number) => Ok(number),
            Err(error) => Err(refused(error)),
        }
    }

    fn find_kept(
        &mut self,
        alloc: Global,
        token: u64,
        key: &[u8],
        at: Moment,
    ) -> Result<Option<Response>, TablesError> {
        match find_answer(alloc, &mut self.connection, token, key, at) {
            Ok(told) => Ok(told),
            Err(error) => Err(refused(error)),
        }
    }

    fn commit(
        &mut self,
        changes: &Changes,
        counts: &CountRows,
        at: Moment,
        kept: Option<&Kept>,
    ) -> Result<(), TablesError> {
        if !takes(changes.as_slice()) {
            return Err(TablesError::Store);
        }
        types_known(changes, kept);
        let moment = self.head.moment;
        let next = self.head.next;
        self.head.moment = at;
        self.head.next = changes.next();
        let what = Commit {
            alloc: self.alloc,
            shop: &self.head,
            changes: changes.as_slice(),
            counts,
            from: self.next_row,
            kept,
            at,
        };
        match write_whole(&mut self.connection, &what) {
            Ok(free) => {
                self.next_row = free;
                Ok(())
            }
            Err(error) => {
                self.head.moment = moment;
                self.head.next = next;
                Err(refused(error))
            }
        }
    }
}
