//! Quotas with their members.

ghost use Rattle.std.specs.Prelude.{◌≡◌, ◌↔◌, IfOk, IfErr, OnOk, IsTrue, map};
ghost use Rattle.std.specs.List.{zip};
ghost use Rattle.base_tables.specs.Tables.{AreInOrder};
ghost use Rattle.file_rebuild.specs.Arranged.{is_any, quota_having, quotas_arranged, AreLinksOfQuotas};
ghost use Rattle.file_rebuild.specs.declared.error.ArrangeError.TheVariants.{Order};

use crate::error::ArrangeError;
use crate::members::{both, members_in};
use base_tables::{Ids, rises};
use file_rows::{CatalogueRows, QuotaRow};
use model_catalogue::{Item, Quota, Variation};
use std::alloc::{AllocError, Global};

/// What is for sale, and whether each link of a quota tells one of its members.
#[derive(Drop)]
pub(crate) struct CatalogueParts {
    pub(crate) items: Vec<Item>,
    pub(crate) variations: Vec<Variation>,
    pub(crate) quotas: Vec<Quota>,
    pub(crate) whole: bool,
}

// The ids of the rows.
fn ids_of(alloc: Global, rows: &[QuotaRow]) -> Result<Vec<u64>, AllocError>
    ensures { IfOk result (λ ids. ids.items ≡ map (λ r. r.id) rows.now) }
{
    rows.iter().map(|row| row.id).collect(alloc)
}

// Whether there are any.
fn is_any(ids: &[u64]) -> bool
    ensures { result ≡ is_any ids.now }
{
    !ids.is_empty()
}

// A quota of its row, its items, its variations, and its links of releases.
fn quota_with(parts: (((QuotaRow, Ids), Ids), Ids)) -> Quota
    ensures { result ≡ quota_having parts.0.0.0 parts.0.0.1 parts.0.1 parts.1 }
{
    let (((row, items), variations), releases) = parts;
    Quota {
        id: row.id,
        name: row.name,
        release_after_exit: is_any(releases.as_slice()),
        size: row.size,
        items,
        variations,
    }
}

// Each row with its items, its variations, and whether it releases places.
fn joined(
    alloc: Global,
    rows: Vec<QuotaRow>,
    items: Vec<Ids>,
    variations: Vec<Ids>,
    releases: Vec<Ids>,
) -> Result<Vec<Quota>, AllocError>
    ensures { IfOk result (λ all. all.items ≡ map (λ p. quota_having p.0.0.0 p.0.0.1 p.0.1 p.1)
        (zip (zip (zip rows.items items.items) variations.items) releases.items)) }
{
    rows.into_iter()
        .zip(items.into_iter())
        .zip(variations.into_iter())
        .zip(releases.into_iter())
        .map(quota_with)
        .collect(alloc)
}

/// What is for sale, with what links tell of quotas: their members, and whether they release places. Refusals: 6, and 63 where the quotas' ids don't rise.
pub(crate) fn catalogue_in(
    alloc: Global,
    rows: CatalogueRows,
) -> Result<CatalogueParts, ArrangeError>
    ensures items { IfOk result (λ c. c.items ≡ rows.items) }
    ensures variations { IfOk result (λ c. c.variations ≡ rows.variations) }
    ensures quotas { IfOk result (λ c. c.quotas.items ≡ quotas_arranged rows) }
    ensures order { OnOk result (AreInOrder (λ r. r.id) rows.quotas.items) }
    ensures refused { IfErr result (λ e. e ≡ Order → ¬ AreInOrder (λ r. r.id) rows.quotas.items) }
    ensures whole { IfOk result (λ c. IsTrue c.whole ↔ AreLinksOfQuotas rows c.quotas.items) }
{
    let ids = ids_of(alloc, rows.quotas.as_slice())?;
    if !rises(ids.as_slice()) {
        return Err(ArrangeError::Order);
    }
    let in_items = members_in(alloc, ids.as_slice(), rows.quota_items.as_slice())?;
    let in_variations = members_in(alloc, ids.as_slice(), rows.quota_variations.as_slice())?;
    let in_releases = members_in(alloc, ids.as_slice(), rows.releases.as_slice())?;
    let members = both(in_items.whole, in_variations.whole);
    let whole = both(members, in_releases.whole);
    let quotas = joined(
        alloc,
        rows.quotas,
        in_items.each,
        in_variations.each,
        in_releases.each,
    )?;
    Ok(CatalogueParts {
        items: rows.items,
        variations: rows.variations,
        quotas,
        whole,
    })
}
