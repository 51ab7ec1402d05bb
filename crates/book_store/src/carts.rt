//! Carts.

ghost use Rattle.std.specs.Prelude.{◌≡◌, ◌++◌, IfOk};
ghost use Rattle.model_rows.specs.Consumed.{carts_consumed};
ghost use Rattle.model_rows.specs.Due.{dead_carts};
ghost use Rattle.model_rows.specs.Lists.{cart_at};
ghost use Rattle.book_store.specs.Walks.{row_as_list};
ghost use Rattle.book_store.specs.OneRow.{ids_in_cart};

use crate::store::Store;
use base_tables::ids::sorted;
use base_values::{Moment, Text};
use book_indexes::digest;
use book_usage::LookUps;
use std::alloc::{AllocError, Global};

impl Store {
    // Adds the id of a cart position, if it stands and is in the cart.
    fn push_cart(&self, ids: &mut Vec<u64>, id: u64, cart: &Text) -> Result<(), AllocError>
        ensures { IfOk result (λ _. ids.new.items ≡ ids.old.items
            ++ ids_in_cart cart.now (row_as_list (cart_at id self.now.state.lists))) }
    {
        if let Some(row) = self.cart(id) {
            if row.cart_id.same(cart.as_str()) {
                ids.push(row.id)?;
            }
        }
        Ok(())
    }

    // Adds the ids of the cart positions that are in a cart: a walk over those whose carts have its digest.
    fn push_carts(&self, ids: &mut Vec<u64>, cart: &Text) -> Result<(), AllocError>
        ensures { IfOk result (λ _. ids.new.items
            ≡ ids.old.items ++ ids_in_cart cart.now self.now.state.lists.carts) }
    {
        self.recall_invariant();
        let found = self.carts().with_text(digest(cart.as_str()));
        for place in 0..found.len() {
            self.push_cart(ids, found.at(place), cart)?;
        }
        Ok(())
    }

    /// The ids of the cart positions of these carts, dead ones too, in order.
    pub fn carts_in(&self, alloc: Global, carts: &[Text]) -> Result<Vec<u64>, AllocError>
        ensures { IfOk result (λ ids. ids.items ≡ carts_consumed carts.now self.now.state.lists) }
    {
        self.recall_invariant();
        let mut ids = Vec::new(alloc);
        for cart in carts {
            self.push_carts(&mut ids, cart)?;
        }
        Ok(sorted(ids))
    }

    /// The ids of the cart positions that are dead at a moment, in order.
    pub fn dead_carts(&self, alloc: Global, at: Moment) -> Result<Vec<u64>, AllocError>
        ensures { IfOk result (λ ids. ids.items ≡ dead_carts at self.now.state.lists) }
    {
        let ids = self.carts().ending(0, at.get()).to_vec(alloc)?;
        Ok(sorted(ids))
    }
}
