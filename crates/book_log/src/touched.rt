//! The rows of one table that a log touches, in order of id.

ghost use Rattle.std.specs.Prelude.{◌≡◌, ◌++◌, [], ◌∷◌, OnOk, OnErr, None, Some};
ghost use Rattle.book_log.specs.declared.touched.Touch.{Touch};
ghost use Rattle.book_log.specs.Places.{place_in, with_kept_place};

use base_tables::{Row, place_of};
use std::alloc::{AllocError, Global};
use std::marker::Model;

/// A row that a log touches or touched, and the last place where it does so.
#[derive(Clone, Copy)]
pub struct Touch {
    pub id: u64,
    pub place: Option<usize>,
}

impl Row for Touch {
    ghost key = { λ t. t.id };

    fn id(&self) -> u64 {
        self.id
    }
}

/// The rows of one table that a log touches.
#[derive(Drop)]
pub struct Touched {
    rows: Vec<Touch>,
}

impl Model for Touched {
    ghost use Rattle.std.specs.Prelude.{List};
    ghost use Rattle.base_tables.specs.Tables.{AreInOrder};
    ghost use Rattle.book_log.specs.declared.touched.Touch.{Touch};

    ghost Value = { List Touch };

    ghost view = { λ t. t.rows.items };

    ghost invariant = { λ t. AreInOrder (λ r. r.id) t.rows.items };
}

impl Touched {
    /// No rows.
    pub fn new(alloc: Global) -> Self
        ensures { result ≡ [] }
    {
        Touched {
            rows: Vec::new(alloc),
        }
    }

    /// The last place that touches the row.
    pub fn last(&self, id: u64) -> Option<usize>
        ensures { result ≡ place_in id self.now }
    {
        match place_of(&self.rows, id) {
            Ok(at) => self.rows[at].place,
            Err(_) => None,
        }
    }

    /// Keeps a place as the last one that touches the row.
    pub fn touch(&mut self, id: u64, place: usize) -> Result<(), AllocError>
        ensures ok { OnOk result (self.new ≡ with_kept_place id (Some place) self.old) }
        ensures err { OnErr result (self.new ≡ self.old) }
    {
        let touch = Touch {
            id,
            place: Some(place),
        };
        match place_of(&self.rows, id) {
            Ok(at) => {
                self.rows[at] = touch;
                Ok(())
            }
            Err(at) => Ok(self.rows.insert(at, touch)?),
        }
    }

    /// Goes back to an earlier place, or to none, of a row that is touched.
    pub fn go_back(&mut self, id: u64, place: Option<usize>)
        requires { place_in id self.old ≡ None → ⊥ }
        ensures { self.new ≡ with_kept_place id place self.old }
    {
        if let Ok(at) = place_of(&self.rows, id) {
            self.rows[at] = Touch { id, place };
        }
    }
}

/// Keeps a place as the last one that touches the row, and behind all others the one that was the last before it.
/// Where there is no memory for it, all is as it was.
pub fn note(
    touched: &mut Touched,
    before: &mut Vec<Option<usize>>,
    id: u64,
    place: usize,
) -> Result<(), AllocError>
    ensures last { OnOk result (touched.new ≡ with_kept_place id (Some place) touched.old) }
    ensures earlier { OnOk result
        (before.new.items ≡ before.old.items ++ place_in id touched.old ∷ []) }
    ensures same { OnErr result (touched.new ≡ touched.old) }
    ensures as_before { OnErr result (before.new.items ≡ before.old.items) }
{
    before.reserve(1)?;
    let earlier = touched.last(id);
    touched.touch(id, place)?;
    Ok(before.push(earlier)?)
}
