//! The test of what rows name, and of codes and secrets.

ghost use Rattle.std.specs.Prelude.{◌↔◌, IsTrue};
ghost use Rattle.model_damage.specs.Rules.{NamesWell};
ghost use Rattle.file_check.specs.Tested.{SellsWell};
ghost use Rattle.model_damage.specs.Tests.{TellsWhether};

use crate::door::is_door;
use crate::have_codes;
use crate::members::all_have_members;
use crate::orders::are_of_orders;
use crate::products::{all_fit, all_products, all_sent, all_varied};
use crate::vouchers::{all_have_targets, all_whole};
use book_usage::Book;
use std::alloc::{AllocError, Global};

// Whether what vouchers name, and the products of rows and their vouchers are well.
fn sells_well<B: Book>(book: &B) -> bool
    ensures { IsTrue result ↔ SellsWell (B.state book.now).lists }
{
    all_have_targets(book)
        && all_whole(book)
        && all_varied(book)
        && all_products(book)
        && all_sent(book)
        && all_fit(book)
}

/// Whether what each row names stands and fits it, and codes and secrets are as the shop makes them.
pub fn keeps_names<B: Book>(alloc: Global, book: &B) -> Result<bool, AllocError>
    ensures { TellsWhether result (NamesWell (B.state book.now).lists) }
{
    let members = all_have_members(alloc, book)?;
    let codes = have_codes(alloc, book)?;
    let each = are_of_orders(alloc, book)?;
    let door = is_door(alloc, book)?;
    Ok(members && codes && each && door && sells_well(book))
}
