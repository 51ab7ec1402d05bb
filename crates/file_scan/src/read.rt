//! All that the tables of a file hold, as it is read.

ghost use Rattle.std.specs.Prelude.{◌≡◌, ◌≤◌, ⊤, [], false, All, IfOk};
ghost use Rattle.sqlite_trees.specs.Tree.{Trees};
ghost use Rattle.file_rows.specs.Fit.{IsFitBudget, IsFitDiscount};
ghost use Rattle.file_scan.specs.Causes.{HasCatalogue, LacksCatalogue, IsDamagedCatalogue, HasSales, LacksSales, AreDamagedSales, HasDoors, LacksDoors, AreDamagedDoors, HasOthers, LacksOthers, AreDamagedOthers, HasVersion1, LacksVersion1, HasVersion1Damage, HasVersion2, LacksVersion2, AreVersion2Damaged, HasVersion3, LacksVersion3, AreVersion3Damaged, HasTables, LacksTable, HasDamage};
ghost use Rattle.file_scan.specs.Fits.{IsFitCatalogue, AreFitSales, AreFitDoors, AreFitOthers, AreFitTables};
ghost use Rattle.file_scan.specs.Read.{HoldsCatalogue, HoldsSales, HoldsDoors, HoldsOthers, HoldsVersion1, HoldsVersion2, HoldsVersion3, HoldsRows, HasNoVersion2, HasNoVersion3};
ghost use Rattle.file_scan.specs.Reading.{ReadsTables, Both, Either, HoldsTwo, HoldsThree};

use crate::progress::Progress;
use crate::whole::{Whole, read_both};
use file_rows::{
    BudgetRow, CatalogueRows, DiscountRow, DoorRows, ExitRow, OtherRows, ReleaseRow, SaleRows,
    SpentRow, TableRows,
};
use file_schema::RowError;
use sqlite::{Alter, Connection};
use std::alloc::Global;

impl Whole for CatalogueRows {
    ghost is_in = { HoldsCatalogue };

    ghost fits = { IsFitCatalogue };

    ghost since = { 1 };

    ghost stands = { HasCatalogue };

    ghost lacks = { LacksCatalogue };

    ghost is_damaged = { IsDamagedCatalogue };

    fn read<S: Alter, P: Progress>(
        alloc: Global,
        conn: &mut Connection<S>,
        progress: &mut P,
    ) -> Result<CatalogueRows, RowError> {
        match Whole::read(alloc, conn, progress) {
            Ok((items, (variations, (quotas, (quota_items, quota_variations))))) => Ok(
                CatalogueRows {
                    items,
                    variations,
                    quotas,
                    quota_items,
                    quota_variations,
                    releases: Vec::new(alloc),
                },
            ),
            Err(error) => Err(error),
        }
    }
}

impl Whole for SaleRows {
    ghost is_in = { HoldsSales };

    ghost fits = { AreFitSales };

    ghost since = { 1 };

    ghost stands = { HasSales };

    ghost lacks = { LacksSales };

    ghost is_damaged = { AreDamagedSales };

    fn read<S: Alter, P: Progress>(
        alloc: Global,
        conn: &mut Connection<S>,
        progress: &mut P,
    ) -> Result<SaleRows, RowError> {
        match Whole::read(alloc, conn, progress) {
            Ok((vouchers, (carts, (orders, (positions, waiting))))) => Ok(SaleRows {
                vouchers,
                carts,
                orders,
                positions,
                waiting,
                budgets: Vec::new(alloc),
                discounts: Vec::new(alloc),
            }),
            Err(error) => Err(error),
        }
    }
}

impl Whole for DoorRows {
    ghost is_in = { HoldsDoors };

    ghost fits = { AreFitDoors };

    ghost since = { 1 };

    ghost stands = { HasDoors };

    ghost lacks = { LacksDoors };

    ghost is_damaged = { AreDamagedDoors };

    fn read<S: Alter, P: Progress>(
        alloc: Global,
        conn: &mut Connection<S>,
        progress: &mut P,
    ) -> Result<DoorRows, RowError> {
        match Whole::read(alloc, conn, progress) {
            Ok((checkin_lists, (list_items, checkins))) => Ok(DoorRows {
                checkin_lists,
                list_items,
                checkins,
            }),
            Err(error) => Err(error),
        }
    }
}

impl Whole for OtherRows {
    ghost is_in = { HoldsOthers };

    ghost fits = { AreFitOthers };

    ghost since = { 1 };

    ghost stands = { HasOthers };

    ghost lacks = { LacksOthers };

    ghost is_damaged = { AreDamagedOthers };

    fn read<S: Alter, P: Progress>(
        alloc: Global,
        conn: &mut Connection<S>,
        progress: &mut P,
    ) -> Result<OtherRows, RowError> {
        match Whole::read(alloc, conn, progress) {
            Ok((counts, (tokens, kept))) => Ok(OtherRows {
                counts,
                tokens,
                kept,
                exits: Vec::new(alloc),
                spents: Vec::new(alloc),
            }),
            Err(error) => Err(error),
        }
    }
}

// The tables of the first version; those of a later one have no rows.
impl Whole for TableRows {
    ghost is_in = { HoldsVersion1 };

    ghost fits = { AreFitTables };

    ghost since = { 1 };

    ghost stands = { HasVersion1 };

    ghost lacks = { LacksVersion1 };

    ghost is_damaged = { HasVersion1Damage };

    fn read<S: Alter, P: Progress>(
        alloc: Global,
        conn: &mut Connection<S>,
        progress: &mut P,
    ) -> Result<TableRows, RowError> {
        match Whole::read(alloc, conn, progress) {
            Ok((catalogue, (sales, (doors, others)))) => Ok(TableRows {
                catalogue,
                sales,
                doors,
                others,
            }),
            Err(error) => Err(error),
        }
    }
}

// The rows of the tables of the second version: the quotas that release places, and how many tickets of each are out.
#[derive(Drop)]
struct Version2Rows {
    releases: Vec<ReleaseRow>,
    exits: Vec<ExitRow>,
}

impl Version2Rows {
    fn none(alloc: Global) -> Version2Rows
        ensures releases { result.releases.items ≡ [] }
        ensures exits { result.exits.items ≡ [] }
    {
        Version2Rows {
            releases: Vec::new(alloc),
            exits: Vec::new(alloc),
        }
    }
}

impl Whole for Version2Rows {
    ghost is_in = { λ db rows. HoldsVersion2 db rows.releases.items rows.exits.items };

    ghost fits = { λ rows. ⊤ };

    ghost since = { 2 };

    ghost stands = { HasVersion2 };

    ghost lacks = { LacksVersion2 };

    ghost is_damaged = { AreVersion2Damaged };

    fn read<S: Alter, P: Progress>(
        alloc: Global,
        conn: &mut Connection<S>,
        progress: &mut P,
    ) -> Result<Version2Rows, RowError> {
        match Whole::read(alloc, conn, progress) {
            Ok((releases, exits)) => Ok(Version2Rows { releases, exits }),
            Err(error) => Err(error),
        }
    }
}

// The rows of the tables of the third version, which are sums of money: budgets, what is spent of vouchers, discounts.
#[derive(Drop)]
struct Version3Rows {
    budgets: Vec<BudgetRow>,
    spents: Vec<SpentRow>,
    discounts: Vec<DiscountRow>,
}

impl Version3Rows {
    fn none(alloc: Global) -> Version3Rows
        ensures budgets { result.budgets.items ≡ [] }
        ensures spents { result.spents.items ≡ [] }
        ensures discounts { result.discounts.items ≡ [] }
    {
        Version3Rows {
            budgets: Vec::new(alloc),
            spents: Vec::new(alloc),
            discounts: Vec::new(alloc),
        }
    }
}

impl Whole for Version3Rows {
    ghost is_in = { λ db rows. HoldsVersion3 db rows.budgets.items rows.spents.items
        rows.discounts.items };

    ghost fits = { λ rows. All IsFitBudget rows.budgets.items
        × All IsFitDiscount rows.discounts.items };

    ghost since = { 3 };

    ghost stands = { HasVersion3 };

    ghost lacks = { LacksVersion3 };

    ghost is_damaged = { AreVersion3Damaged };

    fn read<S: Alter, P: Progress>(
        alloc: Global,
        conn: &mut Connection<S>,
        progress: &mut P,
    ) -> Result<Version3Rows, RowError> {
        match Whole::read(alloc, conn, progress) {
            Ok((budgets, (spents, discounts))) => Ok(Version3Rows {
                budgets,
                spents,
                discounts,
            }),
            Err(error) => Err(error),
        }
    }
}

// The rows of the tables of the first version, with those of the later ones.
fn with_later(tables: TableRows, version2: Version2Rows, version3: Version3Rows) -> TableRows
    ensures held { (db : Trees) → HoldsVersion1 db tables → HoldsVersion1 db result }
    ensures limits { AreFitTables tables → All IsFitBudget version3.budgets.items
        → All IsFitDiscount version3.discounts.items → AreFitTables result }
    ensures releases { result.catalogue.releases ≡ version2.releases }
    ensures exits { result.others.exits ≡ version2.exits }
    ensures budgets { result.sales.budgets ≡ version3.budgets }
    ensures spents { result.others.spents ≡ version3.spents }
    ensures discounts { result.sales.discounts ≡ version3.discounts }
{
    let mut tables = tables;
    tables.catalogue.releases = version2.releases;
    tables.others.exits = version2.exits;
    tables.sales.budgets = version3.budgets;
    tables.others.spents = version3.spents;
    tables.sales.discounts = version3.discounts;
    tables
}

// All rows of the tables of the first version but the shop's own; those of the later ones have none.
fn read_first<S: Alter, P: Progress>(
    alloc: Global,
    conn: &mut Connection<S>,
    progress: &mut P,
) -> Result<TableRows, RowError>
    requires { conn.old.in_transaction ≡ false }
    ensures reads { ReadsTables 1 HoldsVersion1 AreFitTables HasVersion1 LacksVersion1
        HasVersion1Damage S.Store conn.old conn.new result }
    ensures none { IfOk result (λ rows. HasNoVersion2 rows × HasNoVersion3 rows) }
{
    match TableRows::read(alloc, conn, progress) {
        Ok(tables) => Ok(with_later(tables, Version2Rows::none(alloc), Version3Rows::none(alloc))),
        Err(error) => Err(error),
    }
}

// All rows of the tables of the first and the second version but the shop's own; those of the third have none.
fn read_second<S: Alter, P: Progress>(
    alloc: Global,
    conn: &mut Connection<S>,
    progress: &mut P,
) -> Result<TableRows, RowError>
    requires { conn.old.in_transaction ≡ false }
    ensures reads { ReadsTables 2 HoldsTwo AreFitTables (Both HasVersion1 HasVersion2)
        (Either LacksVersion1 LacksVersion2) (Either HasVersion1Damage AreVersion2Damaged)
        S.Store conn.old conn.new result }
    ensures none { IfOk result HasNoVersion3 }
{
    let read: Result<(TableRows, Version2Rows), RowError> = read_both(alloc, conn, progress);
    match read {
        Ok((tables, version2)) => Ok(with_later(tables, version2, Version3Rows::none(alloc))),
        Err(error) => Err(error),
    }
}

// All rows of the tables of all three versions but the shop's own.
fn read_third<S: Alter, P: Progress>(
    alloc: Global,
    conn: &mut Connection<S>,
    progress: &mut P,
) -> Result<TableRows, RowError>
    requires { conn.old.in_transaction ≡ false }
    ensures { ReadsTables 3 HoldsThree AreFitTables
        (Both HasVersion1 (Both HasVersion2 HasVersion3))
        (Either LacksVersion1 (Either LacksVersion2 LacksVersion3))
        (Either HasVersion1Damage (Either AreVersion2Damaged AreVersion3Damaged)) S.Store conn.old
        conn.new result }
{
    let read: Result<(TableRows, (Version2Rows, Version3Rows)), RowError> = read_both(
        alloc, conn, progress,
    );
    match read {
        Ok((tables, (version2, version3))) => Ok(with_later(tables, version2, version3)),
        Err(error) => Err(error),
    }
}

/// All rows of all tables that this version has but the shop's own; the tables that it hasn't have none. The connection stays as it is.
/// Refusals: 6, 60 where the file lacks one of the tables with its columns, 62 where a value can't be read, 63. That a table is
/// lacking is told though a value of another one can't be read.
pub fn read_tables<S: Alter, P: Progress>(
    alloc: Global,
    conn: &mut Connection<S>,
    own: u64,
    progress: &mut P,
) -> Result<TableRows, RowError>
    requires outside { conn.old.in_transaction ≡ false }
    requires first { 1 ≤ own }
    ensures { ReadsTables own (HoldsRows own) AreFitTables (HasTables own) (LacksTable own)
        (HasDamage own) S.Store conn.old conn.new result }
{
    if own < 2 {
        return read_first(alloc, conn, progress);
    }
    if own < 3 {
        return read_second(alloc, conn, progress);
    }
    read_third(alloc, conn, progress)
}
