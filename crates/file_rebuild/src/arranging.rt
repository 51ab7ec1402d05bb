//! The rows of a file, arranged as those of a box office.

ghost use Rattle.std.specs.Prelude.{◌≡◌, ◌↔◌, IfOk, IfErr, OnOk, IsTrue};
ghost use Rattle.model_damage.specs.Told.{file_of, lists_of};
ghost use Rattle.file_meaning.specs.Stands.{AreRowsOf};
ghost use Rattle.file_rebuild.specs.Arranged.{file_arranged, rows_in, told_by, ArePaired, AreReadInOrder, OthersRise};
ghost use Rattle.file_rebuild.specs.declared.error.ArrangeError.TheVariants.{Order};

use crate::counts::counts_in;
use crate::error::ArrangeError;
use crate::lists::doors_in;
use crate::members::both;
use crate::quotas::catalogue_in;
use crate::sales::sales_in;
use base_tables::rises;
use file_rows::{ShopRow, TableRows};
use model_damage::FileRows;
use std::alloc::Global;

/// The rows of a file, with members, budgets and discounts beside the rows that they are of. They are whole where each link tells a member, each
/// budget is that of a voucher and each discount that of an order position, and paired where each count has its exits and each voucher what is
/// spent of it.
#[derive(Drop)]
pub struct Arranged {
    pub rows: FileRows,
    pub whole: bool,
    pub paired: bool,
}

// Whether ids rise in each table whose rows are whole by themselves.
fn all_rise(rows: &FileRows) -> bool
    ensures { IsTrue result ↔ OthersRise (lists_of rows.now) }
{
    rises(&rows.items)
        && rises(&rows.variations)
        && rises(&rows.carts)
        && rises(&rows.orders)
        && rises(&rows.waiting)
        && rises(&rows.checkins)
}

/// What was read of a file, arranged: the box office that its rows tell, with its counters. It is whole where the tables hold
/// just that office, so that no link is of a row that isn't there, and none comes twice. It is paired where the exits are those of
/// just the quotas that have counts, and it is told of just the vouchers what is spent; else rule 7 is broken.
/// Refusals: 6, and 63 where the store didn't show rows in order of id.
pub fn arrange(alloc: Global, shop: &ShopRow, tables: TableRows) -> Result<Arranged, ArrangeError>
    ensures told { IfOk result (λ a. file_of a.rows ≡ file_arranged shop.now tables) }
    ensures order { OnOk result (AreReadInOrder shop.now tables) }
    ensures refused { IfErr result (λ e. e ≡ Order → ¬ AreReadInOrder shop.now tables) }
    ensures whole { IfOk result (λ a. IsTrue a.whole
        ↔ AreRowsOf (told_by (rows_in tables)) (rows_in tables)) }
    ensures paired { IfOk result (λ a. IsTrue a.paired ↔ ArePaired tables) }
{
    let TableRows {
        catalogue,
        sales,
        doors,
        others,
    } = tables;
    let counts = counts_in(alloc, sales.vouchers.as_slice(), others)?;
    let catalogue = catalogue_in(alloc, catalogue)?;
    let sales = sales_in(alloc, sales)?;
    let doors = doors_in(alloc, doors)?;
    let members = both(catalogue.whole, doors.whole);
    let whole = both(members, sales.whole);
    let rows = FileRows {
        organizer: shop.organizer.copy(alloc)?,
        event: shop.event.copy(alloc)?,
        moment: shop.moment,
        next: shop.next,
        items: catalogue.items,
        variations: catalogue.variations,
        quotas: catalogue.quotas,
        vouchers: sales.vouchers,
        carts: sales.carts,
        orders: sales.orders,
        positions: sales.positions,
        waiting: sales.waiting,
        checkin_lists: doors.lists,
        checkins: doors.checkins,
        used: counts.used,
        redeemed: counts.redeemed,
    };
    if !all_rise(&rows) {
        return Err(ArrangeError::Order);
    }
    Ok(Arranged {
        rows,
        whole,
        paired: counts.paired,
    })
}
