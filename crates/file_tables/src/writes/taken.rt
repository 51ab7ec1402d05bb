//! Changes that a file takes.

ghost use Rattle.std.specs.Prelude.{◌≡◌, ◌↔◌, ◌∷◌, true, false, IsTrue, IfSome, IfNone, List};
ghost use Rattle.std.specs.List.{AllByRecursion};
ghost use Rattle.base_tables.specs.Tables.{AreInOrder};
ghost use Rattle.model_rows.specs.declared.changes.Change.{Change as Made};
ghost use Rattle.file_meaning.specs.Lawful.{puts_come_first};
ghost use Rattle.file_meaning.specs.Stands.{IsRising, MembersRise};

use model_catalogue::Quota;
use model_rows::Change;

// Whether ids rise, each above the one before it.
fn rises(ids: &[u64]) -> bool
    ensures yes { IsTrue result → AreInOrder (λ n. n) ids.now }
    ensures no { result ≡ false → ¬ AreInOrder (λ n. n) ids.now }
{
    let mut last: Option<u64> = None;
    'ids: for id in ids {
        if let Some(before) = last {
            if *id <= before {
                return false;
            }
        }
        last = Some(*id);
    }
    true
}

// Whether a quota's members rise.
fn has_rising_members(quota: &Quota) -> bool
    ensures { IsTrue result ↔ MembersRise quota.now }
{
    rises(quota.items.as_slice()) && rises(quota.variations.as_slice())
}

// Whether so it is of a quota, and the items of a check-in list rise.
fn is_rising(change: &Change) -> bool
    ensures yes { IsTrue result → IsRising change.now }
    ensures no { result ≡ false → ¬ IsRising change.now }
{
    match change {
        Change::PutQuota(row) => has_rising_members(row),
        Change::PutCheckinList(row) => rises(row.limit_products.as_slice()),
        _ => true,
    }
}

fn are_rising(changes: &[Change]) -> bool
    ensures yes { IsTrue result → AllByRecursion IsRising changes.now }
    ensures no { result ≡ false → ¬ AllByRecursion IsRising changes.now }
{
    'changes: for change in changes {
        if !is_rising(change) {
            return false;
        }
    }
    true
}

// Whether a voucher was dropped up to and with this change; none where it puts a voucher after that.
fn dropped_after(change: &Change, dropped: bool) -> Option<bool>
    ensures goes_on { IfSome result (λ now. (others : List Made)
        → puts_come_first dropped (change.now ∷ others) ≡ puts_come_first now others) }
    ensures stops { IfNone result ((others : List Made)
        → puts_come_first dropped (change.now ∷ others) ≡ false) }
{
    match change {
        Change::PutVoucher(_) if dropped => None,
        Change::DropVoucher(_) => Some(true),
        _ => Some(dropped),
    }
}

fn are_puts_first(changes: &[Change]) -> bool
    ensures { result ≡ puts_come_first false changes.now }
{
    let mut dropped = false;
    'changes: for change in changes {
        match dropped_after(change, dropped) {
            Some(now) => dropped = now,
            None => return false,
        }
    }
    true
}

/// Whether a file takes these changes: no voucher is put after one was dropped, and the members of each quota and the items of each
/// check-in list rise.
pub fn takes(changes: &[Change]) -> bool
    ensures rising { IsTrue result → AllByRecursion IsRising changes.now }
    ensures first { IsTrue result → puts_come_first false changes.now ≡ true }
    ensures refused { result ≡ false → AllByRecursion IsRising changes.now
        → puts_come_first false changes.now ≡ false }
{
    are_rising(changes) && are_puts_first(changes)
}
