//! The shop's own row.

ghost use Rattle.std.specs.Prelude.{◌≡◌, ◌≢◌, ◌≤◌, ℤ, false, [], ◌∷◌, IfOk, IfErr, OnOk};
ghost use Rattle.sqlite_value.specs.declared.value.Value.TheVariants.{Int};
ghost use Rattle.sqlite_value.specs.Order.{column};
ghost use Rattle.sqlite.specs.Effect.{Database};
ghost use Rattle.file_schema.specs.Tables.{this_version};
ghost use Rattle.file_rows.specs.Rows.{shop_row};
ghost use Rattle.file_rows.specs.Fit.{IsFitShop};
ghost use Rattle.file_rows.specs.Unread.{IsUnread};
ghost use Rattle.file_reads.specs.Damage.{HasNoMeaning, IsFor};
ghost use Rattle.file_reads.specs.Texts.{shop_text};
ghost use Rattle.file_scan.specs.Rests.{OnlyReads};
ghost use Rattle.file_scan.specs.Stopped.{WhereClosed, WhereStopped};
ghost use Rattle.file_scan.specs.Causes.{HasNextIds, ShowsBy, HasNoOtherVersion, IsCauseAs};
ghost use Rattle.file_scan.specs.Reading.{OfOpen, IsUnchangedWhere, StopsAs, TellsCause, OfShop};

use crate::error::OpenError;
use crate::ids::has_next_ids;
use file_reads::Loaded;
use file_rows::ShopRow;
use file_schema::RowError;
use model_damage::Rule;
use sqlite::{Alter, Connection, Row};
use std::alloc::Global;

/// The rows of the table `shop`, as they are shown, whatever their version and their values are. The connection stays as it is.
/// Refusals: 6, 60 where the file has no such table with these columns, 63.
pub(crate) fn shop_rows<S: Alter>(conn: &mut Connection<S>) -> Result<Vec<Row>, RowError>
    requires { conn.old.in_transaction ≡ false }
    ensures shown { OfOpen S.Store conn.old conn.new
        (λ db. IfOk result (λ rows. ShowsBy shop_text db rows.items)) }
    ensures refused { TellsCause (λ db. IsFor (HasNoMeaning db.schema shop_text) ⊥)
        S.Store conn.old conn.new result }
    ensures store { StopsAs WhereStopped 1 S.Store conn.old conn.new result }
    ensures same { IsUnchangedWhere (OnOk result) S.Store conn.old conn.new }
    ensures only { OnlyReads S.Store conn.old conn.new }
{
    match conn.query_all(ShopRow::statement(), &[]) {
        Ok(rows) => Ok(rows),
        Err(error) => Err(RowError::of(error)),
    }
}

// The column of the version, which is told before any other value is. Refusals: 6, and 62 where it holds no number.
fn version_in(row: &Row) -> Result<i64, RowError>
    ensures value { IfOk result (λ version. column row.now 1 ≡ Int version) }
    ensures refused { IfErr result (IsUnread ((version : ℤ) → column row.now 1 ≢ Int version)) }
{
    match row.get(1) {
        Ok(version) => Ok(version),
        Err(error) => Err(RowError::of(error)),
    }
}

/// That the shop's row, where there is one, has this version. Refusals: 6, and 61 where it has another.
/// A row whose version is no number passes, since it has a value of another kind.
pub(crate) fn test_version(rows: &[Row], own: u64) -> Result<(), OpenError>
    requires { own ≤ this_version }
    ensures passed { OnOk result (HasNoOtherVersion own rows.now) }
    ensures cause { (db : Database) → ShowsBy shop_text db rows.now
        → IfErr result (IsCauseAs own db) }
    ensures never { IfErr result (WhereClosed ⊥) }
{
    let [row] = rows else {
        return Ok(());
    };
    match version_in(row) {
        Ok(version) if version == own as i64 => Ok(()),
        Ok(version) => Err(OpenError::Version(version)),
        Err(RowError::Memory) => Err(OpenError::Memory),
        Err(_) => Ok(()),
    }
}

/// The shop's row, which has to have this version. Refusals: 6, and 62 where there isn't one row, or a value or a next id of it is out
/// of range.
pub(crate) fn read_shop(alloc: Global, rows: &[Row], own: u64) -> Result<ShopRow, OpenError>
    ensures row { IfOk result (λ shop. rows.now ≡ shop_row shop ∷ []) }
    ensures version { IfOk result (λ shop. shop.version ≡ own) }
    ensures limits { IfOk result IsFitShop }
    ensures ids { IfOk result HasNextIds }
    ensures cause { OfShop own rows.now (λ db. IfErr result (IsCauseAs own db)) }
    ensures never { IfErr result (WhereClosed ⊥) }
{
    let [row] = rows else {
        return Err(OpenError::Damaged(Rule::Shop));
    };
    match ShopRow::read(alloc, row) {
        Ok(shop) if shop.version == own && has_next_ids(&shop) => Ok(shop),
        Ok(_) => Err(OpenError::Damaged(Rule::Shop)),
        Err(RowError::Memory) => Err(OpenError::Memory),
        Err(_) => Err(OpenError::Damaged(Rule::Shop)),
    }
}
