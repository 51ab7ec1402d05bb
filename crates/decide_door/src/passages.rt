//! The check-ins of a position by a list, and which of them is the last.

ghost use Rattle.std.specs.Prelude.{◌≡◌};
ghost use Rattle.decide_door.specs.Last.{is_of, has_entry, last_of};

use model_rows::passages::{is_entry, later};
use model_rows::{Checkin, Passage};

/// Whether a check-in is of this position, by this list.
pub fn is_of(checkin: &Checkin, list: u64, position: u64) -> bool
    ensures { result ≡ is_of list position checkin.now }
{
    checkin.list == list && checkin.position == position
}

/// Whether an entry of the position is stored for the list.
pub fn has_entry(checkins: &[Checkin], list: u64, position: u64) -> bool
    ensures { result ≡ has_entry list position checkins.now }
{
    checkins
        .iter()
        .any(|c| is_of(c, list, position) && is_entry(c.kind))
}

/// The last check-in of a position by a list, by its moment and then by its id, in whatever order they are stored.
pub fn last_of(checkins: &[Checkin], list: u64, position: u64) -> Option<Passage>
    ensures { result ≡ last_of list position checkins.now }
{
    let mut last = None;
    for checkin in checkins {
        if is_of(checkin, list, position) {
            last = Some(later(last, Passage::of(checkin)));
        }
    }
    last
}
