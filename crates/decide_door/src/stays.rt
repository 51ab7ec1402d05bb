//! Who came in by a check-in list, and who is inside.

ghost use Rattle.std.specs.Prelude.{◌≡◌, IfOk, map};
ghost use Rattle.base_tables.specs.Tables.{AreInOrder};
ghost use Rattle.decide_door.specs.Stays.{no_stay, checkin_noted, noted_all, stays_inside, counts_of, no_stays};
ghost use Rattle.decide_door.specs.Status.{status_of};

use crate::listing::belongs;
use crate::passages::is_of;
use base_tables::{Row, place_of};
use book_usage::Book;
use model_commands::DoorStatus;
use model_rows::passages::{is_entry, is_entry_if, later};
use model_rows::{Checkin, CheckinList, OrderPos, Passage};
use std::alloc::{AllocError, Global};

/// What a check-in list knows of a position: whether it has an entry, and its last check-in.
#[derive(Clone, Copy)]
pub struct Stay {
    pub position: u64,
    pub entered: bool,
    pub last: Option<Passage>,
}

impl Row for Stay {
    ghost key = { λ s. s.position };

    fn id(&self) -> u64 {
        self.position
    }
}

/// How many positions belong to the list, how many of them have an entry, and how many are inside. It goes once over
/// the positions and once over the check-ins. `Err` where there is no memory for a row for each position.
pub fn status<B: Book>(
    book: &B,
    alloc: Global,
    list: &CheckinList,
) -> Result<DoorStatus, AllocError>
    ensures { IfOk result (λ status. status ≡ status_of list.now (B.state book.now).lists) }
{
    book.recall_invariant();
    let mut stays = no_stays(book, alloc, list)?;
    note_all(&mut stays, list.id, book.checkins());
    Ok(counted(&stays))
}

// How many positions there are, have an entry, and are inside.
fn counted(stays: &[Stay]) -> DoorStatus
    ensures { result ≡ counts_of stays.now }
{
    DoorStatus {
        positions: stays.len() as u64,
        entered: stays.iter().filter(|s| s.entered).count() as u64,
        inside: stays.iter().filter(|s| is_inside(s)).count() as u64,
    }
}

// Whether the last check-in is an entry.
fn is_inside(stay: &Stay) -> bool
    ensures { result ≡ stays_inside stay.now }
{
    is_entry_if(stay.last)
}

// The positions that belong to the list, by id, before any check-in.
fn no_stays<B: Book>(book: &B, alloc: Global, list: &CheckinList) -> Result<Vec<Stay>, AllocError>
    ensures { IfOk result (λ stays. stays.items ≡ no_stays list.now (B.state book.now).lists) }
{
    book.positions()
        .iter()
        .filter(|p| belongs(book, list, p))
        .map(no_stay)
        .collect(alloc)
}

// The position before any check-in.
fn no_stay(position: &OrderPos) -> Stay
    ensures { result ≡ no_stay position.now }
{
    Stay {
        position: position.id,
        entered: false,
        last: None,
    }
}

// Notes each check-in by the list at its position.
fn note_all(stays: &mut Vec<Stay>, list: u64, checkins: &[Checkin])
    requires { AreInOrder (λ s. s.position) stays.old.items }
    ensures { stays.new.items ≡ map (noted_all list checkins.now) stays.old.items }
{
    for checkin in checkins {
        note(stays, list, checkin);
    }
}

// Notes a check-in at its position, where it is by the list and the position is among these.
fn note(stays: &mut Vec<Stay>, list: u64, checkin: &Checkin)
    requires { AreInOrder (λ s. s.position) stays.old.items }
    ensures order { AreInOrder (λ s. s.position) stays.new.items }
    ensures noted { stays.new.items ≡ map (checkin_noted list checkin.now) stays.old.items }
{
    if let Ok(at) = place_of(stays, checkin.position) {
        let stay = stays[at];
        stays[at] = checkin_noted(stay, list, checkin);
    }
}

// With one more check-in, where it is of the position, by the list.
#[tactic(auto, unfolding(crate::specs::Stays::checkin_noted))]
fn checkin_noted(stay: Stay, list: u64, checkin: &Checkin) -> Stay
    ensures { result ≡ checkin_noted list checkin.now stay }
{
    if !is_of(checkin, list, stay.position) {
        return stay;
    }
    Stay {
        position: stay.position,
        entered: stay.entered || is_entry(checkin.kind),
        last: Some(later(stay.last, Passage::of(checkin))),
    }
}
