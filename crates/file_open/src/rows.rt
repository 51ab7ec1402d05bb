//! The rows of a file, as those of a box office.

ghost use Rattle.std.specs.Prelude.{◌≡◌, ◌⊎◌, ◌↔◌, ◌≤◌, ℕ, List, IfOk, IfErr, IfSome, IfNone, OnOk, IsTrue};
ghost use Rattle.file_rows.specs.declared.rows.ShopRow.{ShopRow as Head};
ghost use Rattle.file_rows.specs.declared.rows.Token.{Token as TokenRow};
ghost use Rattle.file_rows.specs.declared.table_rows.TableRows.{TableRows};
ghost use Rattle.file_rows.specs.Tables.{Tables};
ghost use Rattle.file_meaning.specs.Free.{IsFree};
ghost use Rattle.file_meaning.specs.Rows.{OfficeRows};
ghost use Rattle.file_meaning.specs.Stands.{AreRowsOf};
ghost use Rattle.model_damage.specs.declared.rule.Rule.TheVariants.{Ids, Names};
ghost use Rattle.model_damage.specs.Told.{file_of};
ghost use Rattle.file_check.specs.Last.{KeepsFirst};
ghost use Rattle.file_scan.specs.declared.file.FileTables.{FileTables};
ghost use Rattle.file_scan.specs.Read.{AreTableRows};
ghost use Rattle.file_rebuild.specs.declared.error.ArrangeError.TheVariants.{Order};
ghost use Rattle.file_rebuild.specs.Arranged.{file_arranged, rows_in, told_by, ArePaired, AreReadInOrder};
ghost use Rattle.file_meaning.specs.Typed.{AreBelowNext};
ghost use Rattle.file_open.specs.Opened.{IsLeastIn, RowsRise};
ghost use Rattle.file_open.specs.Why.{IsWhy};

use file_check::first_broken;
use file_rebuild::{ArrangeError, Arranged, arrange};
use file_rows::{ShopRow, TableRows, Token};
use file_scan::OpenError;
use file_scan::numbers::next_number;
use model_damage::{FileRows, Rule};
use std::alloc::Global;

/// The number from which rows without an id of their own are numbered on, the least that is free. None where those that stand weren't shown in order.
pub(crate) fn free_number(tables: &TableRows) -> Option<u64>
    ensures next { IfSome result
        (λ next. (t : Tables) → AreTableRows t tables.now → IsFree next t) }
    ensures least { IfSome result (λ next. (t : Tables) → AreTableRows t tables.now → (number : ℕ)
        → IsFree number t → next ≤ number) }
    ensures none { IfNone result (¬ RowsRise tables.now) }
{
    let items = next_number(tables.catalogue.quota_items.as_slice())?;
    let variations = next_number(tables.catalogue.quota_variations.as_slice())?;
    let limits = next_number(tables.doors.list_items.as_slice())?;
    let kept = next_number(tables.others.kept.as_slice())?;
    Some(items.max(variations).max(limits).max(kept))
}

// Whether each token's number is below the next one.
fn are_below(shop: &ShopRow, tokens: &[Token]) -> bool
    ensures { IsTrue result ↔ AreBelowNext shop.now tokens.now }
{
    tokens.iter().all(|token| token.id < shop.next_token)
}

// The rule that is broken beside the office: that of ids, where a token's number isn't below the next one, or that of names, where links
// aren't whole.
fn broken_beside(numbered: bool, whole: bool) -> Option<Rule>
    ensures kept { IfNone result (IsTrue numbered × IsTrue whole) }
    ensures broken { IfSome result (λ rule. ((rule ≡ Ids) × (¬ IsTrue numbered))
        ⊎ ((rule ≡ Names) × IsTrue numbered × (¬ IsTrue whole))) }
{
    if !numbered {
        return Some(Rule::Ids);
    }
    if whole { None } else { Some(Rule::Names) }
}

// The least rule that rows break of the first three; or what is broken beside the office.
fn broken_in(rows: &FileRows, numbered: bool, whole: bool) -> Option<Rule>
    ensures whole { IfNone result (IsTrue numbered × IsTrue whole) }
    ensures kept { IfNone result (KeepsFirst (file_of rows.now)) }
    ensures broken { IfSome result (λ rule. (shop : Head) (tokens : List TokenRow)
        (links : OfficeRows) (tables : TableRows) → (IsTrue numbered ↔ AreBelowNext shop tokens)
        → (AreRowsOf (file_of rows.now).state.lists links → IsTrue whole)
        → IsLeastIn shop tokens links (ArePaired tables) (file_of rows.now) rule) }
{
    match first_broken(rows) {
        Some(rule) => Some(rule),
        None => broken_beside(numbered, whole),
    }
}

// What a refusal to arrange rows means.
fn unarranged(error: ArrangeError) -> OpenError
    ensures { (read : FileTables) → (error ≡ Order → ¬ AreReadInOrder read.shop read.tables)
        → IsWhy read result }
{
    match error {
        ArrangeError::Memory => OpenError::Memory,
        ArrangeError::Order => OpenError::Store,
    }
}

/// The rows as those of a box office, where they keep the first rules, each link names a member, and each budget, discount and
/// release is of a row.
/// Refusals: 6; 62 by rules 1 to 4, of these by ids where a token's number isn't below the next one, and by names where a link names
/// no member, or one of the others is of no row; 63.
pub(crate) fn first_kept(
    alloc: Global,
    shop: &ShopRow,
    tables: TableRows,
) -> Result<(FileRows, bool), OpenError>
    ensures told { IfOk result (λ it. file_of it.0 ≡ file_arranged shop.now tables) }
    ensures paired { IfOk result (λ it. IsTrue it.1 ↔ ArePaired tables) }
    ensures order { OnOk result (AreReadInOrder shop.now tables) }
    ensures numbered { OnOk result (AreBelowNext shop.now tables.others.tokens.items) }
    ensures whole { OnOk result (AreRowsOf (told_by (rows_in tables)) (rows_in tables)) }
    ensures kept { IfOk result (λ it. KeepsFirst (file_of it.0)) }
    ensures refused { IfErr result (IsWhy (record { shop = shop.now; tables = tables })) }
{
    let numbered = are_below(shop, tables.others.tokens.as_slice());
    match arrange(alloc, shop, tables) {
        Ok(
            Arranged {
                rows,
                whole,
                paired,
            },
        ) => match broken_in(&rows, numbered, whole) {
            Some(rule) => Err(OpenError::Damaged(rule)),
            None => Ok((rows, paired)),
        },
        Err(error) => Err(unarranged(error)),
    }
}
