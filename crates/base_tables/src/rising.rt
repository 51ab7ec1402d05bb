//! Ids that rise.

ghost use Rattle.std.specs.Prelude.{◌↔◌, IsTrue};
ghost use Rattle.base_tables.specs.Tables.{AreInOrder};

use crate::{Ids, Row};

/// Whether each id is below the next.
pub fn rises<T: Row>(rows: &[T]) -> bool
    ensures { IsTrue result ↔ AreInOrder T.key rows.now }
{
    let mut least: u128 = 0;
    for row in rows {
        let id = u128::from(row.id());
        if id < least {
            return false;
        }
        least = id + 1;
    }
    true
}

/// Whether these ids rise.
pub fn are_rising(ids: &Ids) -> bool
    ensures { IsTrue result ↔ AreInOrder (λ n. n) ids.now }
{
    rises(ids.as_slice())
}
