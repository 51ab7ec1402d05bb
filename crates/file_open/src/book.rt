//! A book of the rows of a file.

ghost use Rattle.std.specs.Prelude.{◌≡◌, ◌≤◌, ◌⊎◌, ℕ, Some, None, IfOk, IfErr, IfSome, IfNone, OnOk, IsTrue};
ghost use Rattle.model_rows.specs.Lists.{empty};
ghost use Rattle.model_invariant.specs.Sound.{IsSound};
ghost use Rattle.file_rows.specs.Tables.{Tables};
ghost use Rattle.file_meaning.specs.Free.{IsFree};
ghost use Rattle.file_meaning.specs.Stands.{Stand};
ghost use Rattle.model_damage.specs.declared.rule.Rule.{Rule};
ghost use Rattle.model_damage.specs.declared.rule.Rule.TheVariants.{Counters, Budgets};
ghost use Rattle.model_damage.specs.Rules.{Keeps};
ghost use Rattle.model_damage.specs.Told.{state_of, file_of};
ghost use Rattle.file_check.specs.Last.{KeepsFirst};
ghost use Rattle.file_scan.specs.Read.{IsFileOf};
ghost use Rattle.file_meaning.specs.Typed.{AreBelowNext};
ghost use Rattle.file_open.specs.Opened.{answers_in, AreNamesOf};
ghost use Rattle.file_open.specs.Why.{IsBroken, IsWhy};

use crate::rows::{first_kept, free_number};
use base_values::Slug;
use book_usage::Book;
use file_check::last_broken;
use file_rebuild::fill;
use file_rows::ShopRow;
use file_scan::{FileTables, OpenError};
use model_damage::{FileRows, Rule};
use std::alloc::Global;

/// What a shop's file holds: the shop's row, whose shop it is, the number from which rows without an id of their own are numbered
/// on, and a book with the rows of the box office.
#[derive(Drop)]
pub struct Reopened<B: Book + Drop> {
    pub head: ShopRow,
    pub organizer: Slug,
    pub event: Slug,
    pub next_row: u64,
    pub book: B,
}

// The least rule that is broken, where that of counters is too if they aren't paired. That of budgets comes behind it.
fn with_pairs(broken: Option<Rule>, paired: bool) -> Option<Rule>
    ensures kept { IfNone result ((broken ≡ None) × IsTrue paired) }
    ensures told { IfSome result (λ rule. ((broken ≡ Some rule) × (rule ≡ Budgets → IsTrue paired))
        ⊎ ((rule ≡ Counters) × (¬ IsTrue paired) × ((broken ≡ None) ⊎ (broken ≡ Some Budgets)))) }
{
    if paired {
        return broken;
    }
    match broken {
        None | Some(Rule::Budgets) => Some(Rule::Counters),
        Some(rule) => Some(rule),
    }
}

// An empty book, filled with rows that keep the first rules, where they keep the others too; and whose shop it is.
// The counts have to be paired with their exits, and the vouchers with what is spent of them.
// Refusals: 6, and 62 by rules 4 to 8.
fn book_of<B: Book + Drop>(
    alloc: Global,
    book: B,
    rows: FileRows,
    paired: bool,
) -> Result<(B, (Slug, Slug)), OpenError>
    requires empty { B.state book ≡ empty }
    requires first { KeepsFirst (file_of rows) }
    ensures state { IfOk result (λ it. B.state it.0 ≡ state_of rows) }
    ensures names { IfOk result (λ it. (it.1.0 ≡ rows.organizer) × (it.1.1 ≡ rows.event)) }
    ensures kept { OnOk result ((rule : Rule) → Keeps rule (file_of rows)) }
    ensures paired { OnOk result (IsTrue paired) }
    ensures refused { IfErr result (IsBroken paired (file_of rows)) }
{
    let mut book = book;
    match fill(alloc, &mut book, rows) {
        Ok(aside) => {
            match last_broken(
                alloc,
                &book,
                aside.used.as_slice(),
                aside.redeemed.as_slice(),
            ) {
                Ok(broken) => match with_pairs(broken, paired) {
                    None => Ok((book, (aside.organizer, aside.event))),
                    Some(rule) => Err(OpenError::Damaged(rule)),
                },
                Err(_) => Err(OpenError::Memory),
            }
        }
        Err(_) => Err(OpenError::Memory),
    }
}

/// What a file holds, with an empty book that gets its rows. Refusals: 6; 62 by the least rule that is broken; 63 where the store
/// didn't show rows in order.
pub(crate) fn open_rows<B: Book + Drop>(
    alloc: Global,
    book: B,
    file: FileTables,
) -> Result<Reopened<B>, OpenError>
    requires { B.state book ≡ empty }
    ensures head { IfOk result (λ it. it.head ≡ file.shop) }
    ensures names { IfOk result (λ it. AreNamesOf it.head it.organizer it.event) }
    ensures sound { IfOk result (λ it. IsSound (B.state it.book)) }
    ensures numbered { OnOk result (AreBelowNext file.shop file.tables.others.tokens.items) }
    ensures held { IfOk result (λ it. (t : Tables) → IsFileOf t file
        → Stand it.head t (B.state it.book) (answers_in t) × IsFree it.next_row t
        × ((number : ℕ) → IsFree number t → it.next_row ≤ number)) }
    ensures refused { IfErr result (IsWhy file) }
{
    let FileTables { shop, tables } = file;
    let Some(next_row) = free_number(&tables) else {
        return Err(OpenError::Store);
    };
    match first_kept(alloc, &shop, tables) {
        Ok((rows, paired)) => match book_of(alloc, book, rows, paired) {
            Ok((book, (organizer, event))) => Ok(Reopened {
                head: shop,
                organizer,
                event,
                next_row,
                book,
            }),
            Err(error) => Err(error),
        },
        Err(error) => Err(error),
    }
}
