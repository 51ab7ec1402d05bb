//! The tables of a file, read in the order in which it is told what is wrong.

ghost use Rattle.std.specs.Prelude.{◌≡◌, ◌≤◌, ℕ, false, [], ◌∷◌, IfOk, IfErr, IfSome, OnOk, Ok, Err, Some, None};
ghost use Rattle.sqlite.specs.Effect.{Database};
ghost use Rattle.sqlite.specs.Held.{state};
ghost use Rattle.file_schema.specs.declared.error.RowError.TheVariants.{Damaged, Store};
ghost use Rattle.file_schema.specs.Tables.{schema, this_version};
ghost use Rattle.file_rows.specs.Rows.{shop_row};
ghost use Rattle.file_rows.specs.Tables.{Holds, HoldsAt};
ghost use Rattle.file_reads.specs.Damage.{HasNoMeaning, IsFor};
ghost use Rattle.file_reads.specs.Texts.{shop_text};
ghost use Rattle.file_scan.specs.Rests.{OnlyReads};
ghost use Rattle.file_scan.specs.Stopped.{IsStopped, WhereClosed};
ghost use Rattle.file_scan.specs.Read.{HoldsRows, tables_of};
ghost use Rattle.file_scan.specs.Causes.{LacksTable, HasTables, IsReadable, IsReadableAs, ShowsBy, OfTheShop, HasNoOtherVersion, IsCause, IsCauseAs};
ghost use Rattle.file_scan.specs.Fits.{AreFitTables, IsFitFile};
ghost use Rattle.file_scan.specs.Reading.{OfOpen, OfVersion, OfThisVersion, IsUnchangedWhere, StopsAs, TellsCause, FindsFile, OfShop, HasDamageSince};

use crate::error::OpenError;
use crate::head::{read_shop, shop_rows, test_version};
use crate::progress::Progress;
use crate::read::read_tables;
use file_rows::{ShopRow, TableRows};
use file_schema::{RowError, VERSION};
use model_damage::Rule;
use sqlite::{Alter, Connection, Row};
use std::alloc::Global;

/// All that the tables of a file hold.
#[derive(Drop)]
pub struct FileTables {
    pub shop: ShopRow,
    pub tables: TableRows,
}

// What a refusal means where the shop's rows are read, which aren't damaged before they are looked at.
fn refusal(error: RowError) -> OpenError
    ensures cause { (own : ℕ) (db : Database) → IsFor (HasNoMeaning db.schema shop_text) ⊥ error
        → IsCauseAs own db result }
    ensures store { WhereClosed (error ≡ Store) result }
{
    match error {
        RowError::Memory => OpenError::Memory,
        RowError::Foreign => OpenError::NotAShop,
        RowError::Damaged => OpenError::Damaged(Rule::Shop),
        RowError::Store => OpenError::Store,
    }
}

// The rows of the other tables, or none where a value can't be read.
fn readable(read: Result<TableRows, RowError>) -> Result<Option<TableRows>, OpenError>
    ensures read { IfOk result (λ found. IfSome found (λ rows. read ≡ Ok rows)) }
    ensures unread { IfOk result (λ found. found ≡ None → read ≡ Err Damaged) }
    ensures store { IfErr result (WhereClosed (read ≡ Err Store)) }
    ensures cause { (own : ℕ) (db : Database) → OfTheShop db (HasNoOtherVersion own)
        → IfErr read (IsFor (LacksTable own db.schema) (HasDamageSince own db))
        → IfErr result (IsCauseAs own db) }
{
    match read {
        Ok(rows) => Ok(Some(rows)),
        Err(RowError::Memory) => Err(OpenError::Memory),
        Err(RowError::Foreign) => Err(OpenError::NotAShop),
        Err(RowError::Damaged) => Ok(None),
        Err(RowError::Store) => Err(OpenError::Store),
    }
}

// The rows, if they have this version.
fn tested(rows: Vec<Row>, own: u64) -> Result<Vec<Row>, OpenError>
    requires { own ≤ this_version }
    ensures same { IfOk result (λ same. same ≡ rows) }
    ensures passed { OnOk result (HasNoOtherVersion own rows.items) }
    ensures cause { (db : Database) → ShowsBy shop_text db rows.items
        → IfErr result (IsCauseAs own db) }
    ensures never { IfErr result (WhereClosed ⊥) }
{
    match test_version(rows.as_slice(), own) {
        Ok(()) => Ok(rows),
        Err(error) => Err(error),
    }
}

// The rows of the table `shop`, and that they have this version. Refusals: 6, 60, 61, 63.
fn read_head<S: Alter>(conn: &mut Connection<S>, own: u64) -> Result<Vec<Row>, OpenError>
    requires outside { conn.old.in_transaction ≡ false }
    requires version { own ≤ this_version }
    ensures found { OfOpen S.Store conn.old conn.new
        (λ db. IfOk result
        (λ rows. ShowsBy shop_text db rows.items × HasNoOtherVersion own rows.items)) }
    ensures cause { TellsCause (IsCauseAs own) S.Store conn.old conn.new result }
    ensures store { StopsAs WhereClosed 1 S.Store conn.old conn.new result }
    ensures same { IsUnchangedWhere (OnOk result) S.Store conn.old conn.new }
    ensures only { OnlyReads S.Store conn.old conn.new }
{
    match shop_rows(conn) {
        Ok(rows) => tested(rows, own),
        Err(error) => Err(refusal(error)),
    }
}

// The rows of the table `shop`, and those of the other tables where their values can be read. Refusals: 6, 60, 61, 63.
fn read_all<S: Alter, P: Progress>(
    alloc: Global,
    conn: &mut Connection<S>,
    own: u64,
    progress: &mut P,
) -> Result<(Vec<Row>, Option<TableRows>), OpenError>
    requires outside { conn.old.in_transaction ≡ false }
    requires first { 1 ≤ own }
    requires version { own ≤ this_version }
    ensures loaded { OfVersion own S.Store conn.old conn.new
        (λ db. IfOk result (λ read. IfSome read.1 (HoldsRows own db.trees))) }
    ensures limits { IfOk result (λ read. IfSome read.1 AreFitTables) }
    ensures found { OfOpen S.Store conn.old conn.new (λ db. IfOk result
        (λ read. ShowsBy shop_text db read.0.items × HasNoOtherVersion own read.0.items
        × HasTables own db.schema × (read.1 ≡ None → HasDamageSince own db))) }
    ensures cause { TellsCause (IsCauseAs own) S.Store conn.old conn.new result }
    ensures store { StopsAs WhereClosed own S.Store conn.old conn.new result }
    ensures same { IsUnchangedWhere (OnOk result) S.Store conn.old conn.new }
    ensures only { OnlyReads S.Store conn.old conn.new }
{
    match read_head(conn, own) {
        Ok(rows) => match readable(read_tables(alloc, conn, own, progress)) {
            Ok(tables) => Ok((rows, tables)),
            Err(error) => Err(error),
        },
        Err(error) => Err(error),
    }
}

// The shop's row with the rows of the other tables. Refusals: 6, 62 by rules 1 and 2, in this order.
fn whole_file(
    alloc: Global,
    rows: &[Row],
    tables: Option<TableRows>,
    own: u64,
) -> Result<FileTables, OpenError>
    ensures shop { IfOk result (λ file. rows.now ≡ shop_row file.shop ∷ []) }
    ensures version { IfOk result (λ file. file.shop.version ≡ own) }
    ensures tables { IfOk result (λ file. tables ≡ Some file.tables) }
    ensures limits { IfSome tables AreFitTables → IfOk result IsFitFile }
    ensures cause { OfShop own rows.now (λ db. (tables ≡ None → HasDamageSince own db)
        → IfErr result (IsCauseAs own db)) }
    ensures never { IfErr result (WhereClosed ⊥) }
{
    match (read_shop(alloc, rows, own), tables) {
        (Ok(shop), Some(tables)) => Ok(FileTables { shop, tables }),
        (Ok(_), None) => Err(OpenError::Damaged(Rule::Limits)),
        (Err(error), _) => Err(error),
    }
}

/// All that the tables of a file of this version hold, which is an earlier one or this program's. The connection stays as it is.
/// Refusals: 6; 60 where the table `shop` isn't there with its columns; 61 where its row has another version; 60 where another table
/// isn't there; 62 by rule 1 where there isn't one row of the shop, or a value or a next id of it is out of range; 62 by rule 2 where
/// a value of another table is; 63. They are told in this order.
pub fn read_file_of<S: Alter, P: Progress>(
    alloc: Global,
    conn: &mut Connection<S>,
    own: u64,
    progress: &mut P,
) -> Result<FileTables, OpenError>
    requires outside { conn.old.in_transaction ≡ false }
    requires first { 1 ≤ own }
    requires version { own ≤ this_version }
    ensures held { OfVersion own S.Store conn.old conn.new
        (λ db. IfOk result (λ file. HoldsAt own db.trees (tables_of file))) }
    ensures version { IfOk result (λ file. file.shop.version ≡ own) }
    ensures limits { IfOk result IsFitFile }
    ensures found { FindsFile (IsReadableAs own) S.Store conn.old conn.new result }
    ensures cause { TellsCause (IsCauseAs own) S.Store conn.old conn.new result }
    ensures store { StopsAs WhereClosed own S.Store conn.old conn.new result }
    ensures same { IsUnchangedWhere (OnOk result) S.Store conn.old conn.new }
    ensures only { OnlyReads S.Store conn.old conn.new }
{
    match read_all(alloc, conn, own, progress) {
        Ok((rows, tables)) => whole_file(alloc, rows.as_slice(), tables, own),
        Err(error) => Err(error),
    }
}

/// All that the tables of a file of this program's version hold. The connection stays as it is.
/// Refusals: 6; 60 where the table `shop` isn't there with its columns; 61 where its row has another version; 60 where another table
/// isn't there; 62 by rule 1 where there isn't one row of the shop, or a value or a next id of it is out of range; 62 by rule 2 where
/// a value of another table is; 63. They are told in this order.
pub fn read_file<S: Alter, P: Progress>(
    alloc: Global,
    conn: &mut Connection<S>,
    progress: &mut P,
) -> Result<FileTables, OpenError>
    requires { conn.old.in_transaction ≡ false }
    ensures held { OfThisVersion S.Store conn.old conn.new
        (λ db. IfOk result (λ file. Holds db.trees (tables_of file))) }
    ensures version { IfOk result (λ file. file.shop.version ≡ this_version) }
    ensures limits { IfOk result IsFitFile }
    ensures found { FindsFile IsReadable S.Store conn.old conn.new result }
    ensures cause { TellsCause IsCause S.Store conn.old conn.new result }
    ensures store { OfThisVersion S.Store conn.old conn.new (λ _. IfErr result
        (WhereClosed (IsStopped (state S.Store conn.old) (state S.Store conn.new)))) }
    ensures same { IsUnchangedWhere (OnOk result) S.Store conn.old conn.new }
    ensures only { OnlyReads S.Store conn.old conn.new }
{
    read_file_of(alloc, conn, VERSION, progress)
}
