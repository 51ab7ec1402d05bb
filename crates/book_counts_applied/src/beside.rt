//! Values that are kept beside rows, by their ids.

ghost use Rattle.std.specs.Prelude.{◌≡◌, ◌≤◌, ◌<◌, ◌+◌, ℕ, None, length, vec_capacity};
ghost use Rattle.base_tables.specs.Tables.{AreInOrder, row_at, with_row};
ghost use Rattle.book_counts_over_time.specs.Beside.{AreBeside, StepsBeside, room_left};
ghost use Rattle.book_counts_applied.specs.Settled.{put_at};

use base_tables::{Row, place_of};
use book_counts_over_time::shift::keep;

/// Puts a value beside the row of an id, if that stands.
pub fn set_one<T: Row, U: Copy + Drop>(rows: &[T], kept: &mut Vec<U>, id: u64, value: U)
    requires order { AreInOrder T.key rows.now }
    requires same { length kept.old.items ≡ length rows.now }
    ensures kept { StepsBeside T.key (put_at id value) rows.now kept.old kept.new }
    ensures same { length kept.new.items ≡ length kept.old.items }
{
    if let Ok(at) = place_of(rows, id) {
        kept[at] = value;
    }
}

// What is kept beside the row of an id, or another value where it doesn't stand.
fn value_beside<T: Row, U: Copy + Drop>(rows: &[T], kept: &[U], id: u64, other: U) -> U
    requires order { AreInOrder T.key rows.now }
    requires same { length kept.now ≡ length rows.now }
    ensures { (f : ℕ → U) → (row_at T.key id rows.now ≡ None → f id ≡ other)
        → AreBeside T.key f rows.now kept.now → result ≡ f id }
{
    match place_of(rows, id) {
        Ok(at) => kept[at],
        Err(_) => other,
    }
}

/// Keeps what is kept beside the rows where the one of an id is put: that of its id, and another value for a new one.
pub fn keep_place<T: Row, U: Copy + Drop>(rows: &[T], kept: &mut Vec<U>, id: u64, other: U)
    requires order { AreInOrder T.key rows.now }
    requires same { length kept.old.items ≡ length rows.now }
    requires room { length kept.old.items < vec_capacity kept.old }
    ensures kept { (f : ℕ → U) (row : T) → T.key row ≡ id
        → (row_at T.key id rows.now ≡ None → f id ≡ other)
        → AreBeside T.key f rows.now kept.old.items
        → AreBeside T.key f (with_row T.key row rows.now) kept.new.items }
    ensures room { room_left kept.old ≤ room_left kept.new + 1 }
{
    let value = value_beside(rows, kept.as_slice(), id, other);
    keep(rows, kept, id, value);
}
