//! Check-ins.

ghost use Rattle.std.specs.Prelude.{◌≡◌, ◌++◌, IfOk};
ghost use Rattle.model_rows.specs.Lists.{checkin_at, checkins_by};
ghost use Rattle.model_rows.specs.Passages.{last_after, last_at};
ghost use Rattle.book_store.specs.Walks.{row_as_list};
ghost use Rattle.book_store.specs.OneRow.{checkin_by};

use crate::store::Store;
use base_values::List;
use book_indexes::pair;
use book_usage::Exits;
use model_rows::passages::{is_exit_if, later};
use model_rows::{Checkin, Passage};
use std::alloc::{AllocError, Global};

impl Store {
    /// Copies of the check-ins of a position by a list, by id: a walk over those that are found by the two together.
    pub fn checkins_of(
        &self,
        alloc: Global,
        list: u64,
        position: u64,
    ) -> Result<List<Checkin>, AllocError>
        ensures { IfOk result (λ rows. rows ≡ checkins_by list position self.now.state.lists) }
    {
        self.recall_invariant();
        let mut rows = Vec::new(alloc);
        let ids = self.checkins().in_group(pair(list, position));
        for place in 0..ids.len() {
            self.push_checkin(alloc, &mut rows, ids.at(place), list, position)?;
        }
        Ok(List::new(rows))
    }

    /// The last check-in of a position, by whatever list: a walk over its check-ins.
    pub fn last_at(&self, position: u64) -> Option<Passage>
        ensures { result ≡ last_at position self.now.state.lists.checkins }
    {
        self.recall_invariant();
        let mut last = None;
        let ids = self.checkins().naming(position);
        for place in 0..ids.len() {
            last = self.later_of(last, ids.at(place));
        }
        last
    }

    // The later of the last one and the check-in of an id, if there is one.
    fn later_of(&self, last: Option<Passage>, id: u64) -> Option<Passage>
        ensures { result ≡ last_after last (row_as_list (checkin_at id self.now.state.lists)) }
    {
        match self.checkin(id) {
            None => last,
            Some(row) => Some(later(last, Passage::of(row))),
        }
    }

    // Adds a copy of the check-in of an id, if there is one, and it is of this position by this list.
    fn push_checkin(
        &self,
        alloc: Global,
        rows: &mut Vec<Checkin>,
        id: u64,
        list: u64,
        position: u64,
    ) -> Result<(), AllocError>
        ensures { IfOk result (λ _. rows.new.items
            ≡ rows.old.items ++ checkin_by id list position self.now.state.lists) }
    {
        if let Some(row) = self.checkin(id) {
            if row.list == list && row.position == position {
                rows.push(row.copy(alloc)?)?;
            }
        }
        Ok(())
    }
}

impl Exits for Store {
    #[tactic(auto, unfolding(model_rows::specs::Passages::is_out))]
    fn is_out(&self, position: u64) -> bool {
        is_exit_if(self.last_at(position))
    }
}
