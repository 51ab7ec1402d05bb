//! How large a table may grow.

ghost use Rattle.std.specs.Prelude.{◌≡◌};
ghost use Rattle.model_catalogue.specs.Limits.{takes_row, takes_rows};

/// The most rows of a table.
pub const MOST_ROWS: usize = 1_000_000;

/// The last id.
pub const LAST_ID: u64 = 9_007_199_254_740_991;

/// Whether a table with these rows takes one more, which has this id.
pub fn takes_row<T>(id: u64, rows: &[T]) -> bool
    ensures { result ≡ takes_row id rows.now }
{
    rows.len() < MOST_ROWS && id <= LAST_ID
}

/// Whether a table with these rows takes so many more, whose ids count on from `first`.
pub fn takes_rows<T>(count: usize, first: u64, rows: &[T]) -> bool
    ensures { result ≡ takes_rows count first rows.now }
{
    rows.len().saturating_add(count) <= MOST_ROWS
        && first.saturating_add(count as u64) <= LAST_ID + 1
}
