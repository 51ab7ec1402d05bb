//! Orders and their positions.

ghost use Rattle.std.specs.Prelude.{◌≡◌, ◌≤◌, ◌==◌, ◌++◌, length, map, is_some, IfOk};
ghost use Rattle.std.specs.Option.{option_copied};
ghost use Rattle.model_rows.specs.Lists.{position_at, positions_of};
ghost use Rattle.model_rows.specs.Asked.{with_secret};
ghost use Rattle.model_rows.specs.Due.{due_orders};
ghost use Rattle.book_usage.specs.Limits.{most_listed};
ghost use Rattle.book_usage.specs.OfOrder.{count_ordered};
ghost use Rattle.book_store.specs.Found.{FindsPositions};
ghost use Rattle.book_store.specs.OneRow.{secret_at};
ghost use Rattle.book_store.specs.Walks.{row_as_list, one_if};

use crate::counts::count_one;
use crate::store::Store;
use base_index::Found;
use base_tables::ids::sorted;
use base_values::{List, Moment};
use book_indexes::digest;
use book_usage::{LookUps, PositionTest};
use model_rows::OrderPos;
use std::alloc::{AllocError, Global};

impl Store {
    /// The ids of the positions of an order, rising.
    pub fn positions_ordered(&self, order: u64) -> Found<'_>
        ensures finds { FindsPositions (λ p. order == p.order) self.now.state.lists result }
        ensures all { result ≡ map (λ p. p.id) (positions_of order self.now.state.lists) }
        ensures few { length result ≤ most_listed }
    {
        self.positions().in_group(order)
    }

    /// Copies of the positions of an order, by id: a walk over them.
    pub fn positions_of(&self, alloc: Global, order: u64) -> Result<List<OrderPos>, AllocError>
        ensures { IfOk result (λ rows. rows ≡ positions_of order self.now.state.lists) }
    {
        self.recall_invariant();
        let mut rows = Vec::new(alloc);
        let ids = self.positions_ordered(order);
        for place in 0..ids.len() {
            self.push_position(alloc, &mut rows, ids.at(place))?;
        }
        Ok(List::new(rows))
    }

    // Adds a copy of the order position of an id, if there is one.
    fn push_position(
        &self,
        alloc: Global,
        rows: &mut Vec<OrderPos>,
        id: u64,
    ) -> Result<(), AllocError>
        ensures { IfOk result (λ _. rows.new.items
            ≡ rows.old.items ++ row_as_list (position_at id self.now.state.lists)) }
    {
        if let Some(row) = self.position(id) {
            rows.push(row.copy(alloc)?)?;
        }
        Ok(())
    }

    // 1 where the order position of an id passes.
    #[tactic(auto, unfolding(crate::specs::Walks::one_if))]
    fn pass_of<T: PositionTest>(&self, test: &T, id: u64) -> u64
        ensures value { result ≡ one_if (T.passes test.now) (position_at id self.now.state.lists) }
        ensures small { result ≤ 1 }
    {
        match self.position(id) {
            None => 0,
            Some(row) => count_one(test.passes(row)),
        }
    }

    /// How many positions of the order pass the test: a walk over its positions.
    pub fn count_ordered<T: PositionTest>(&self, order: u64, test: &T) -> u64
        ensures value { result ≡ count_ordered order (T.passes test.now) self.now.state.lists }
        ensures few { result ≤ most_listed }
    {
        let mut count = 0;
        let ids = self.positions_ordered(order);
        for place in 0..ids.len() {
            count += self.pass_of(test, ids.at(place));
        }
        count
    }

    // The order position of an id, if it has the secret.
    fn secret_at(&self, id: u64, secret: &str) -> Option<&OrderPos>
        ensures found { option_copied result ≡ secret_at id secret.now self.now.state.lists }
        ensures some { is_some result ≡ is_some (secret_at id secret.now self.now.state.lists) }
    {
        self.position(id).filter(|row| row.secret.same(secret))
    }

    /// The first order position with that secret: a walk over those whose secrets have its digest.
    pub fn position_with(&self, secret: &str) -> Option<&OrderPos>
        ensures { option_copied result ≡ with_secret secret.now self.now.state.lists }
    {
        self.recall_invariant();
        let ids = self.positions().with_text(digest(secret));
        for place in 0..ids.len() {
            let found = self.secret_at(ids.at(place), secret);
            if found.is_some() {
                return found;
            }
        }
        None
    }

    /// The numbers of the pending orders that ended before a moment, in order.
    pub fn due_orders(&self, alloc: Global, at: Moment) -> Result<Vec<u64>, AllocError>
        ensures { IfOk result (λ ids. ids.items ≡ due_orders at self.now.state.lists) }
    {
        let ids = self.orders().ending(0, at.get()).to_vec(alloc)?;
        Ok(sorted(ids))
    }
}
