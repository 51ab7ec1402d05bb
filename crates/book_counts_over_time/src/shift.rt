//! How the usages of all quotas are kept through a change.

ghost use Rattle.std.specs.Prelude.{◌≡◌, ◌≤◌, ◌<◌, ◌+◌, length, map, vec_capacity};
ghost use Rattle.std.specs.List.{insert};
ghost use Rattle.base_tables.specs.Tables.{with_row, without_row, AreInOrder};
ghost use Rattle.model_catalogue.specs.declared.rows.Quota.{Quota};
ghost use Rattle.model_rows.specs.declared.rows.Usage.{Usage};
ghost use Rattle.book_counts_over_time.specs.Beside.{room_left};
ghost use Rattle.book_counts_over_time.specs.UsageUpdates.{count_moved};

use base_tables::{Row, place_of};
use model_catalogue::Quota;
use model_rows::Usage;

/// What happens to the usage of a quota.
pub trait UsageUpdate {
    /// The usage afterwards.
    ghost shift: { Self → Quota → Usage → Usage };

    /// When that can be told.
    ghost ready: { Self → Type 0 };

    /// The usage afterwards.
    fn shifted(&self, quota: &Quota, usage: Usage) -> Usage
        requires { ready self.now }
        ensures { result ≡ shift self.now quota.now usage };
}

/// A count after some came, at most 2^64 - 1, and some went.
pub fn count_moved(count: u64, come: u64, gone: u64) -> u64
    ensures value { result ≡ count_moved count come gone }
{
    count.saturating_add(come).saturating_sub(gone)
}

/// Keeps a value for the row of an id that is put.
pub fn keep<T: Row, U: Drop>(rows: &[T], kept: &mut Vec<U>, id: u64, value: U)
    requires order { AreInOrder T.key rows.now }
    requires same { length kept.old.items ≡ length rows.now }
    requires room { length kept.old.items < vec_capacity kept.old }
    ensures kept { (f : T → U) (row : T) → T.key row ≡ id → value ≡ f row
        → kept.old.items ≡ map f rows.now → kept.new.items ≡ map f (with_row T.key row rows.now) }
    ensures room { room_left kept.old ≤ room_left kept.new + 1 }
{
    match place_of(rows, id) {
        Ok(at) => {
            kept[at] = value;
        }
        Err(at) => insert_reserved(kept, at, value),
    }
}

/// Keeps no value more for the row of an id.
pub fn forget<T: Row, U: Drop>(rows: &[T], kept: &mut Vec<U>, id: u64)
    requires order { AreInOrder T.key rows.now }
    requires same { length kept.old.items ≡ length rows.now }
    ensures kept { (f : T → U) → kept.old.items ≡ map f rows.now
        → kept.new.items ≡ map f (without_row T.key id rows.now) }
    ensures room { room_left kept.old ≤ room_left kept.new }
{
    if let Ok(at) = place_of(rows, id) {
        let _ = kept.remove(at);
    }
}

// Inserts into room that is there.
fn insert_reserved<T: Drop>(rows: &mut Vec<T>, at: usize, row: T)
    requires place { at ≤ length rows.old.items }
    requires room { length rows.old.items < vec_capacity rows.old }
    ensures items { rows.new.items ≡ insert rows.old.items at row }
    ensures capacity { vec_capacity rows.old ≤ vec_capacity rows.new }
{
    let _ = rows.insert(at, row);
}
