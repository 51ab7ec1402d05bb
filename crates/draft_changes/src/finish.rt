//! What a draft hands on with its changes: what they shift of the counts, as it counted them.

ghost use Rattle.std.specs.Prelude.{◌≡◌, ◌++◌, IfOk, OnOk, OnErr, map, flat_map};
ghost use Rattle.base_tables.specs.Rising.{rising};
ghost use Rattle.draft_counts.specs.Logs.{rows_of};
ghost use Rattle.book_tally.specs.CountDeltas.{AreCountDeltas};
ghost use Rattle.draft_changes.specs.DraftState.{IsCounted, AreKept};
ghost use Rattle.draft_changes.specs.Handed.{vouchers_by, AreNoted, quota_shift, voucher_shift};

use base_tables::Ids;
use base_values::Moment;
use book_tally::{Amount, CountDeltas, QuotaDelta, Tally, Uses, VoucherDelta};
use book_usage::{Book, LookUps};
use draft_counts::{Overlay, Tallies};
use model_catalogue::Quota;
use model_rows::{Change, Usage};
use std::alloc::{AllocError, Global};

/// Notes the voucher that a change puts or drops.
pub fn note_voucher(noted: &mut Vec<u64>, change: &Change) -> Result<(), AllocError>
    ensures ok { OnOk result (noted.new.items ≡ noted.old.items ++ vouchers_by change.now) }
    ensures err { OnErr result (noted.new.items ≡ noted.old.items) }
{
    match change {
        Change::PutVoucher(row) => Ok(noted.push(row.id)?),
        Change::DropVoucher(id) => Ok(noted.push(*id)?),
        _ => Ok(()),
    }
}

/// What the changes of a draft shift, by what it counted, and by the vouchers that they put or dropped.
pub fn shifts_of<B: Book>(
    book: &B,
    overlay: &Overlay<'_, B>,
    alloc: Global,
    at: Moment,
    tallies: &Tallies,
    noted: &[u64],
) -> Result<CountDeltas, AllocError>
    requires base { overlay.now.base ≡ (B.state book.now).lists }
    requires counted { IsCounted at overlay.now tallies.now.counts }
    requires kept { AreKept at overlay.now tallies.now.uses }
    requires noted { AreNoted overlay.now.changes noted.now }
    ensures { IfOk result
        (λ deltas. AreCountDeltas overlay.now.base (rows_of overlay.now) at deltas) }
{
    let _ = at;
    overlay.recall_invariant();
    let catalogue = book.catalogue();
    catalogue.recall_invariant();
    let counts = tallies.counts();
    let places = touched_places(alloc, counts)?;
    let quotas = quota_shifts(alloc, catalogue.quotas(), counts, places.as_slice())?;
    let uses = tallies.uses();
    let ids = touched_vouchers(alloc, uses, noted)?;
    let vouchers = voucher_shifts(alloc, overlay, uses, ids.as_slice())?;
    Ok(CountDeltas { quotas, vouchers })
}

// The places of the quotas that were touched.
fn touched_places(alloc: Global, counts: &Tally<Usage>) -> Result<Ids, AllocError>
    ensures { IfOk result (λ ids. ids ≡ rising (map (λ c. c.id) counts.now)) }
{
    let mut keys = Vec::new(alloc);
    add_keys(counts, &mut keys)?;
    Ok(Ids::sorted(keys))
}

// The vouchers whose uses were touched, and those that are noted.
fn touched_vouchers(alloc: Global, uses: &Tally<Uses>, noted: &[u64]) -> Result<Ids, AllocError>
    ensures { IfOk result (λ ids. ids ≡ rising (noted.now ++ map (λ c. c.id) uses.now)) }
{
    let mut keys = noted.to_vec(alloc)?;
    add_keys(uses, &mut keys)?;
    Ok(Ids::sorted(keys))
}

// Adds the keys of all additions.
fn add_keys<A: Amount>(tally: &Tally<A>, keys: &mut Vec<u64>) -> Result<(), AllocError>
    ensures { OnOk result (keys.new.items ≡ keys.old.items ++ map (λ c. c.id) tally.now) }
{
    for i in 0..tally.len() {
        keys.push(tally.key(i))?;
    }
    Ok(())
}

// What is shifted of the quotas at these places.
fn quota_shifts(
    alloc: Global,
    quotas: &[Quota],
    counts: &Tally<Usage>,
    places: &[u64],
) -> Result<Vec<QuotaDelta>, AllocError>
    ensures { IfOk result (λ rows. rows.items
        ≡ flat_map (quota_shift quotas.now counts.now) places.now) }
{
    let mut rows = Vec::new(alloc);
    for place in places {
        add_quota(quotas, counts, *place, &mut rows)?;
    }
    Ok(rows)
}

// Adds what is shifted of the quota at a place, if there is one.
fn add_quota(
    quotas: &[Quota],
    counts: &Tally<Usage>,
    place: u64,
    rows: &mut Vec<QuotaDelta>,
) -> Result<(), AllocError>
    ensures { OnOk result (rows.new.items
        ≡ rows.old.items ++ quota_shift quotas.now counts.now place) }
{
    let index = place as usize;
    if quotas.len() <= index {
        return Ok(());
    }
    let count = counts.of(place);
    Ok(rows.push(QuotaDelta {
        quota: quotas[index].id,
        come: count.come,
        gone: count.gone,
    })?)
}

// What is shifted of these vouchers.
fn voucher_shifts<B: Book>(
    alloc: Global,
    overlay: &Overlay<'_, B>,
    uses: &Tally<Uses>,
    ids: &[u64],
) -> Result<Vec<VoucherDelta>, AllocError>
    ensures { IfOk result (λ rows. rows.items
        ≡ flat_map (voucher_shift (rows_of overlay.now) uses.now) ids.now) }
{
    let mut rows = Vec::new(alloc);
    for id in ids {
        add_voucher(overlay, uses, *id, &mut rows)?;
    }
    Ok(rows)
}

// Adds what is shifted of a voucher.
fn add_voucher<B: Book>(
    overlay: &Overlay<'_, B>,
    uses: &Tally<Uses>,
    id: u64,
    rows: &mut Vec<VoucherDelta>,
) -> Result<(), AllocError>
    ensures { OnOk result (rows.new.items
        ≡ rows.old.items ++ voucher_shift (rows_of overlay.now) uses.now id) }
{
    let count = uses.of(id);
    Ok(rows.push(VoucherDelta {
        voucher: id,
        come: count.come.used,
        gone: count.gone.used,
        spent_come: count.come.spent,
        spent_gone: count.gone.spent,
        stands: overlay.voucher(id).is_some(),
    })?)
}
