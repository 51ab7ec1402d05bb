//! A walk over what changes shift: which counts differ after them.

ghost use Rattle.std.specs.Prelude.{◌≡◌, ◌≤◌, ◌++◌, IfOk, true, map, flat_map, option_map, Some};
ghost use Rattle.std.specs.Bool.{Decides};
ghost use Rattle.std.specs.Option.{option_copied};
ghost use Rattle.base_tables.specs.Rising.{rising};
ghost use Rattle.base_tables.specs.Tables.{AreInOrder};
ghost use Rattle.model_catalogue.specs.CatalogueLists.{quota_at};
ghost use Rattle.model_rows.specs.Change.{after_all};
ghost use Rattle.model_rows.specs.Usage.{usage_of};
ghost use Rattle.book_tally.specs.CountDeltas.{quota_delta_at};
ghost use Rattle.book_counts_to_write.specs.Due.{due_quotas};
ghost use Rattle.book_counts_to_write.specs.Told.{Adds, AreOrdered};
ghost use Rattle.book_counts_to_write.specs.Walked.{quotas_by, quota_with, quota_after, told_by_shift, told_at, voucher_told_by, gone_told_by, used_now, in_order_prop};

use crate::recounts::recount;
use crate::told::{add_unless, has_voucher, moved, moved_cents, same_as, usage_shifted};
use base_tables::{Ids, place_of};
use base_values::Moment;
use book_tally::{CountDeltas, QuotaDelta, VoucherDelta};
use book_usage::{Book, usage_of};
use model_catalogue::Quota;
use model_rows::{Change, QuotaCount, Usage, VoucherCount};
use std::alloc::{AllocError, Global};

/// A book, and changes of it at a later moment, with what these shift of its counts, the quotas that they put, and those that
/// what came due until then reaches.
#[derive(Drop)]
pub struct Walk<'w, B: Book> {
    pub book: &'w B,
    pub changes: &'w [Change],
    pub deltas: &'w CountDeltas,
    pub at: Moment,
    pub put: &'w Ids,
    pub due: &'w Ids,
    ghost past: { (B.state book.now).moment ≤ at },
    ghost order: { AreInOrder (λ s. s.quota) deltas.now.quotas.items } by { in_order_prop (λ s. s.quota) 0 deltas.now.quotas.items },
    ghost puts: { put.now ≡ rising (flat_map quotas_by changes.now) },
    ghost dues: { due.now
        ≡ rising (due_quotas (B.state book.now).moment at (B.state book.now).lists) },
}

// What uses a quota at a moment by the rows before changes, and what used it by the same rows at the book's moment, if it stood.
#[derive(Clone, Copy)]
struct Known {
    base: Usage,
    had: Option<Usage>,
}

impl<'w, B: Book> Walk<'w, B> {
    /// The quotas whose counts may differ: those of the shifts, those that changes put, and those that what came due reaches.
    pub fn asked(&self, alloc: Global) -> Result<Ids, AllocError>
        ensures { IfOk result (λ ids. ids
            ≡ rising (map (λ s. s.quota) self.now.deltas.now.quotas.items
            ++ self.now.put.now ++ self.now.due.now)) }
    {
        let mut ids = ids_of(alloc, &self.deltas.quotas)?;
        ids.extend_from_slice(self.put.as_slice())?;
        ids.extend_from_slice(self.due.as_slice())?;
        Ok(Ids::sorted(ids))
    }

    /// The counts of the quotas of these ids that differ.
    pub fn quotas(&self, alloc: Global, ids: &[u64]) -> Result<Vec<QuotaCount>, AllocError>
        ensures { IfOk result (λ rows. rows.items ≡ flat_map
            (told_at (B.state self.now.book.now) self.now.changes.now self.now.at
            self.now.deltas.now.quotas.items)
            ids.now) }
    {
        let mut rows = Vec::new(alloc);
        for id in ids {
            self.add_quota(*id, &mut rows)?;
        }
        Ok(rows)
    }

    // Adds the count of the quota of an id, if it stands and its count differs.
    fn add_quota(&self, id: u64, rows: &mut Vec<QuotaCount>) -> Result<(), AllocError>
        ensures { Adds result rows.old rows.new (told_at (B.state self.now.book.now)
            self.now.changes.now self.now.at self.now.deltas.now.quotas.items id) }
    {
        match self.quota(id) {
            None => Ok(()),
            Some(quota) => self.add_count(quota, rows),
        }
    }

    // Adds the count of a quota, if it differs.
    fn add_count(&self, quota: &Quota, rows: &mut Vec<QuotaCount>) -> Result<(), AllocError>
        ensures { Adds result rows.old rows.new (told_by_shift
            (B.state self.now.book.now) self.now.at self.now.deltas.now.quotas.items quota.now) }
    {
        ids_rise(self.book);
        let known = self.known(quota);
        let usage = usage_shifted(known.base, shift_of(&self.deltas.quotas, quota.id))?;
        let count = QuotaCount {
            quota: quota.id,
            usage,
        };
        Ok(add_unless(same_as(usage, known.had), count, rows)?)
    }

    // The quota of an id after the changes.
    fn quota(&self, id: u64) -> Option<&Quota>
        ensures { option_copied result
            ≡ quota_at id
            (after_all self.now.changes.now (B.state self.now.book.now).lists).catalogue }
    {
        let before = self.book.catalogue().quota(id);
        if self.put.has(id) {
            quota_after(self.changes, id, before)
        } else {
            before
        }
    }

    // What uses a quota by the rows before the changes.
    fn known(&self, quota: &Quota) -> Known
        ensures base { result.base
            ≡ usage_of (B.state self.now.book.now).lists self.now.at quota.now }
        ensures had { result.had ≡ option_map (used_now (B.state self.now.book.now))
            (quota_at quota.now.id (B.state self.now.book.now).lists.catalogue) }
    {
        match self.book.catalogue().quota(quota.id) {
            None => Known {
                base: recount(self.book, quota, self.at),
                had: None,
            },
            Some(old) => self.known_by(old, quota),
        }
    }

    // What is known of a quota that stood before. Unless its products change, or whether it releases places, the book knows its usage.
    fn known_by(&self, old: &Quota, quota: &Quota) -> Known
        requires { quota_at quota.now.id (B.state self.now.book.now).lists.catalogue
            ≡ Some old.now }
        ensures base { result.base
            ≡ usage_of (B.state self.now.book.now).lists self.now.at quota.now }
        ensures had { result.had ≡ Some (used_now (B.state self.now.book.now) old.now) }
    {
        if has_same_members(old, quota) {
            self.known_as(old)
        } else {
            Known {
                base: recount(self.book, quota, self.at),
                had: Some(usage_of(self.book, old, self.book.moment())),
            }
        }
    }

    // What is known of a quota as it stood. Where nothing that came due reaches it, it is used as before.
    fn known_as(&self, quota: &Quota) -> Known
        requires { quota_at quota.now.id (B.state self.now.book.now).lists.catalogue
            ≡ Some quota.now }
        ensures base { result.base
            ≡ usage_of (B.state self.now.book.now).lists self.now.at quota.now }
        ensures had { result.had ≡ Some (used_now (B.state self.now.book.now) quota.now) }
    {
        ids_rise(self.book);
        let base = usage_of(self.book, quota, self.at);
        if self.due.has(quota.id) {
            let had = usage_of(self.book, quota, self.book.moment());
            Known {
                base,
                had: Some(had),
            }
        } else {
            Known {
                base,
                had: Some(base),
            }
        }
    }

    /// The counts of the vouchers that are new or whose counts differ.
    pub fn vouchers(&self, alloc: Global) -> Result<Vec<VoucherCount>, AllocError>
        ensures { IfOk result (λ rows. rows.items ≡ flat_map
            (voucher_told_by (B.state self.now.book.now)) self.now.deltas.now.vouchers.items) }
    {
        let mut rows = Vec::new(alloc);
        for shift in self.deltas.vouchers.as_slice() {
            add_voucher(self.book, shift, &mut rows)?;
        }
        Ok(rows)
    }

    /// The ids of the vouchers that are gone.
    pub fn gone(&self, alloc: Global) -> Result<Vec<u64>, AllocError>
        ensures { IfOk result (λ ids. ids.items ≡ flat_map
            (gone_told_by (B.state self.now.book.now)) self.now.deltas.now.vouchers.items) }
    {
        let mut ids = Vec::new(alloc);
        for shift in self.deltas.vouchers.as_slice() {
            add_gone(self.book, shift, &mut ids)?;
        }
        Ok(ids)
    }
}

/// In a book's tables of quotas, vouchers and cart positions ids rise.
pub fn ids_rise<B: Book>(book: &B)
    ensures { AreOrdered (B.state book.now).lists }
{
    book.recall_invariant();
    book.catalogue().recall_invariant();
}

// The ids of the quotas of these shifts.
fn ids_of(alloc: Global, deltas: &[QuotaDelta]) -> Result<Vec<u64>, AllocError>
    ensures { IfOk result (λ ids. ids.items ≡ map (λ s. s.quota) deltas.now) }
{
    deltas.iter().map(|shift| shift.quota).collect(alloc)
}

/// The quotas that changes put.
pub fn put_quotas(alloc: Global, changes: &[Change]) -> Result<Ids, AllocError>
    ensures { IfOk result (λ ids. ids ≡ rising (flat_map quotas_by changes.now)) }
{
    let mut ids = Vec::new(alloc);
    for change in changes {
        add_put(change, &mut ids)?;
    }
    Ok(Ids::sorted(ids))
}

// Adds that of one change.
fn add_put(change: &Change, ids: &mut Vec<u64>) -> Result<(), AllocError>
    ensures { Adds result ids.old ids.new (quotas_by change.now) }
{
    match change {
        Change::PutQuota(row) => Ok(ids.push(row.id)?),
        _ => Ok(()),
    }
}

// The quota of an id after changes, by the one before them.
fn quota_after<'c>(changes: &'c [Change], id: u64, before: Option<&'c Quota>) -> Option<&'c Quota>
    ensures { option_copied result ≡ quota_after id (option_copied before.entry) changes.now }
{
    let mut found = before;
    for change in changes {
        found = quota_with(change, id, found);
    }
    found
}

// The quota of an id after a single change, by the one before it.
fn quota_with<'c>(change: &'c Change, id: u64, before: Option<&'c Quota>) -> Option<&'c Quota>
    ensures { option_copied result ≡ quota_with id change.now (option_copied before.entry) }
{
    match change {
        Change::PutQuota(row) if row.id == id => Some(row),
        _ => before,
    }
}

// What is shifted of a quota, if anything is.
fn shift_of(deltas: &[QuotaDelta], quota: u64) -> Option<&QuotaDelta>
    requires { AreInOrder (λ s. s.quota) deltas.now }
    ensures { option_copied result ≡ quota_delta_at quota deltas.now }
{
    match place_of(deltas, quota) {
        Ok(place) => Some(&deltas[place]),
        Err(_) => None,
    }
}

// Whether two quotas have the same products, and both release places or neither does.
fn has_same_members(a: &Quota, b: &Quota) -> bool
    ensures items { result ≡ true → a.now.items ≡ b.now.items }
    ensures variations { result ≡ true → a.now.variations ≡ b.now.variations }
    ensures release { result ≡ true → a.now.release_after_exit ≡ b.now.release_after_exit }
{
    same(a.items.as_slice(), b.items.as_slice())
        && same(a.variations.as_slice(), b.variations.as_slice())
        && a.release_after_exit == b.release_after_exit
}

// Whether these are the same ids.
fn same(a: &[u64], b: &[u64]) -> bool
    ensures { Decides result (a.now ≡ b.now) }
{
    a == b
}

// Adds the count of a voucher, if it stands and its count differs.
fn add_voucher<B: Book>(
    book: &B,
    shift: &VoucherDelta,
    rows: &mut Vec<VoucherCount>,
) -> Result<(), AllocError>
    ensures { Adds result rows.old rows.new (voucher_told_by (B.state book.now) shift.now) }
{
    if !shift.stands {
        return Ok(());
    }
    let spent = book.spent(shift.voucher);
    let count = VoucherCount {
        voucher: shift.voucher,
        redeemed: moved(book.redeemed(shift.voucher), shift.come, shift.gone)?,
        spent: moved_cents(spent, shift.spent_come, shift.spent_gone)?,
    };
    add_unless(has_voucher(book, count), count, rows)
}

// Adds the id of a voucher that stood, if it doesn't stand any more.
fn add_gone<B: Book>(book: &B, shift: &VoucherDelta, ids: &mut Vec<u64>) -> Result<(), AllocError>
    ensures { Adds result ids.old ids.new (gone_told_by (B.state book.now) shift.now) }
{
    if !shift.stands && book.voucher(shift.voucher).is_some() {
        Ok(ids.push(shift.voucher)?)
    } else {
        Ok(())
    }
}
