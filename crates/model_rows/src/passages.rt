//! When a ticket came in or went out, and which of its check-ins is the last.

ghost use Rattle.std.specs.Prelude.{◌≡◌};
ghost use Rattle.model_rows.specs.Passages.{is_entry, is_exit, is_entry_if, is_exit_if, passage, is_later, later};

use crate::rows::{Checkin, CheckinKind};
use base_values::Moment;

/// When a check-in was made, its id, and whether it was an entry.
#[derive(Clone, Copy, PartialEq, Eq)]
pub struct Passage {
    pub datetime: Moment,
    pub id: u64,
    pub kind: CheckinKind,
}

impl Passage {
    /// What a check-in says of it.
    pub fn of(checkin: &Checkin) -> Self
        ensures { result ≡ passage checkin.now }
    {
        Passage {
            datetime: checkin.datetime,
            id: checkin.id,
            kind: checkin.kind,
        }
    }

    // Whether it is later than another one: by its moment, and of one moment by its id.
    fn is_later(&self, other: &Passage) -> bool
        ensures { result ≡ is_later self.now other.now }
    {
        other.datetime < self.datetime || (other.datetime == self.datetime && other.id < self.id)
    }
}

/// Whether a ticket came in.
pub fn is_entry(kind: CheckinKind) -> bool
    ensures { result ≡ is_entry kind }
{
    matches!(kind, CheckinKind::Entry)
}

/// Whether a ticket went out.
pub fn is_exit(kind: CheckinKind) -> bool
    ensures { result ≡ is_exit kind }
{
    matches!(kind, CheckinKind::Exit)
}

/// Whether the last check-in, if there is one, is an entry.
pub fn is_entry_if(last: Option<Passage>) -> bool
    ensures { result ≡ is_entry_if last }
{
    match last {
        None => false,
        Some(last) => is_entry(last.kind),
    }
}

/// Whether the last check-in, if there is one, is an exit.
pub fn is_exit_if(last: Option<Passage>) -> bool
    ensures { result ≡ is_exit_if last }
{
    match last {
        None => false,
        Some(last) => is_exit(last.kind),
    }
}

/// The later of the last one, if there is one, and another.
#[tactic(auto, unfolding(crate::specs::Passages::later))]
pub fn later(last: Option<Passage>, other: Passage) -> Passage
    ensures { result ≡ later last other }
{
    let Some(last) = last else {
        return other;
    };
    if other.is_later(&last) { other } else { last }
}
