//! What the tables of an earlier version don't tell is supplied.

ghost use Rattle.std.specs.Prelude.{◌≡◌, ◌++◌, map, IfOk};
ghost use Rattle.file_scan.specs.Fits.{IsFitFile};
ghost use Rattle.file_scan.specs.Read.{tables_of};
ghost use Rattle.file_open.specs.Supplied.{none_out, none_spent, lacking_exits, lacking_spents, tables_supplied, AreLacking};

use file_rows::{CountRow, ExitRow, SpentRow, VoucherRow};
use file_scan::FileTables;
use std::alloc::{AllocError, Global};

/// The rows that the tables of an earlier version lack.
#[derive(Drop)]
pub(crate) struct Lacking {
    pub exits: Vec<ExitRow>,
    pub spents: Vec<SpentRow>,
}

// For each count a row of exits of 0. Refusal: 6.
fn none_out(alloc: Global, counts: &[CountRow]) -> Result<Vec<ExitRow>, AllocError>
    ensures { IfOk result (λ exits. exits.items ≡ map none_out counts.now) }
{
    counts
        .iter()
        .map(|count| ExitRow {
            quota: count.quota,
            exited: 0,
        })
        .collect(alloc)
}

// For each voucher a row that tells that 0 cents are spent. Refusal: 6.
fn none_spent(alloc: Global, vouchers: &[VoucherRow]) -> Result<Vec<SpentRow>, AllocError>
    ensures { IfOk result (λ spents. spents.items ≡ map none_spent vouchers.now) }
{
    vouchers
        .iter()
        .map(|row| SpentRow {
            voucher_id: row.voucher.id,
            spent: 0,
        })
        .collect(alloc)
}

// The rows of exits that the tables of a version haven't. Refusal: 6.
fn lacking_exits(alloc: Global, own: u64, counts: &[CountRow]) -> Result<Vec<ExitRow>, AllocError>
    ensures { IfOk result (λ exits. exits.items ≡ lacking_exits own counts.now) }
{
    if own < 2 {
        return none_out(alloc, counts);
    }
    Ok(Vec::new(alloc))
}

// The rows of what is spent that the tables of a version haven't. Refusal: 6.
fn lacking_spents(
    alloc: Global,
    own: u64,
    vouchers: &[VoucherRow],
) -> Result<Vec<SpentRow>, AllocError>
    ensures { IfOk result (λ spents. spents.items ≡ lacking_spents own vouchers.now) }
{
    if own < 3 {
        return none_spent(alloc, vouchers);
    }
    Ok(Vec::new(alloc))
}

// Rows of exits, and those that were read behind them. Refusal: 6.
fn exits_with(
    alloc: Global,
    lacking: &[ExitRow],
    read: &[ExitRow],
) -> Result<Vec<ExitRow>, AllocError>
    ensures { IfOk result (λ all. all.items ≡ lacking.now ++ read.now) }
{
    let mut all = Vec::from_slice(alloc, lacking)?;
    all.extend_from_slice(read)?;
    Ok(all)
}

// Rows of what is spent, and those that were read behind them. Refusal: 6.
fn spents_with(
    alloc: Global,
    lacking: &[SpentRow],
    read: &[SpentRow],
) -> Result<Vec<SpentRow>, AllocError>
    ensures { IfOk result (λ all. all.items ≡ lacking.now ++ read.now) }
{
    let mut all = Vec::from_slice(alloc, lacking)?;
    all.extend_from_slice(read)?;
    Ok(all)
}

/// What was read of a file of a version, with the rows that it lacks; and those rows. Refusal: 6.
pub(crate) fn supply(
    alloc: Global,
    own: u64,
    file: FileTables,
) -> Result<(FileTables, Lacking), AllocError>
    ensures shop { IfOk result (λ it. it.0.shop ≡ file.shop) }
    ensures limits { IsFitFile file → IfOk result (λ it. IsFitFile it.0) }
    ensures tables { IfOk result (λ it. tables_of it.0 ≡ tables_supplied own (tables_of file)) }
    ensures lacking { IfOk result
        (λ it. AreLacking own (tables_of file) it.1.exits.items it.1.spents.items) }
{
    let exits = lacking_exits(alloc, own, file.tables.others.counts.as_slice())?;
    let spents = lacking_spents(alloc, own, file.tables.sales.vouchers.as_slice())?;
    let all_exits = exits_with(alloc, exits.as_slice(), file.tables.others.exits.as_slice())?;
    let all_spents = spents_with(
        alloc,
        spents.as_slice(),
        file.tables.others.spents.as_slice(),
    )?;
    let mut file = file;
    file.tables.others.exits = all_exits;
    file.tables.others.spents = all_spents;
    Ok((file, Lacking { exits, spents }))
}
