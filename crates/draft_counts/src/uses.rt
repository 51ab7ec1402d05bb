//! The uses of vouchers that come and go with a change, and what is spent of their budgets.

ghost use Rattle.std.specs.Prelude.{◌≡◌, OnOk, OnErr};
ghost use Rattle.model_rows.specs.declared.changes.Change.TheVariants.{PutOrder};
ghost use Rattle.draft_overlay.specs.Logs.{rows_of};
ghost use Rattle.draft_counts.specs.Counts.{AreMoreUses};
ghost use Rattle.draft_counts.specs.Tallied.{CountsUses};
ghost use Rattle.draft_counts.specs.CountDelta.{AreTurned};
ghost use Rattle.book_tally.specs.Amounts.{no_uses};
ghost use Rattle.draft_counts.specs.Uses.{held_by, purchase_uses, used_by, used_since};

use crate::count_base::CountBase;
use base_values::Cents;
use book_tally::{Amount, Tally, Uses};
use book_usage::rules::{held_name, is_in_force, used_name};
use book_usage::{Book, LookUps};
use draft_overlay::Purchase;
use model_rows::{Change, Order};
use std::alloc::AllocError;

/// Counts the uses that come and go with a change. Where there is no memory for it, the counts are as they were.
pub fn count_uses<B: Book>(
    count_base: &CountBase<'_, '_, B>,
    uses: &mut Tally<Uses>,
    change: &Change,
    purchases: &[Purchase],
) -> Result<(), AllocError>
    requires turned { AreTurned change.now (rows_of count_base.now.overlay.now) purchases.now }
    ensures more { OnOk result
        (CountsUses change.now count_base.now.overlay.now count_base.now.at uses.old uses.new) }
    ensures err { OnErr result (uses.new ≡ uses.old) }
{
    match change {
        Change::PutCart(row) => {
            let gone = held_name(count_base.at, count_base.overlay.cart(row.id));
            count_held(uses, held_name(count_base.at, Some(row)), gone)
        }
        Change::DropCart(id) => count_held(
            uses,
            None,
            held_name(count_base.at, count_base.overlay.cart(*id)),
        ),
        Change::PutPosition(row) => {
            count_used(uses, used_name(count_base.overlay, Some(row)), row.discount)
        }
        Change::PutOrder(row) => count_turned(count_base, uses, row, purchases),
        _ => Ok(()),
    }
}

// Counts the use in carts that comes, and the one that goes.
fn count_held(
    uses: &mut Tally<Uses>,
    come: Option<u64>,
    gone: Option<u64>,
) -> Result<(), AllocError>
    ensures more { OnOk result
        (AreMoreUses (λ v. held_by v come) (λ v. held_by v gone) uses.old uses.new) }
    ensures err { OnErr result (uses.new ≡ uses.old) }
{
    let one = Uses {
        used: 0,
        held: 1,
        spent: 0,
    };
    let start = uses.len();
    uses.add_named(come, one, Uses::none())?;
    if uses.add_named(gone, Uses::none(), one).is_err() {
        uses.truncate(start);
        return Err(AllocError);
    }
    Ok(())
}

// Counts a use in orders that comes, with its discount.
fn count_used(uses: &mut Tally<Uses>, come: Option<u64>, discount: Cents) -> Result<(), AllocError>
    ensures more { OnOk result
        (AreMoreUses (λ v. used_by v come discount) (λ v. no_uses) uses.old uses.new) }
    ensures err { OnErr result (uses.new ≡ uses.old) }
{
    uses.add_named(come, one_use(discount), Uses::none())
}

// Counts the uses of an order's positions, where it comes into force or is so no more.
fn count_turned<B: Book>(
    count_base: &CountBase<'_, '_, B>,
    uses: &mut Tally<Uses>,
    row: &Order,
    purchases: &[Purchase],
) -> Result<(), AllocError>
    requires turned { AreTurned (PutOrder row.now)
        (rows_of count_base.now.overlay.now) purchases.now }
    ensures more { OnOk result (CountsUses
        (PutOrder row.now) count_base.now.overlay.now count_base.now.at uses.old uses.new) }
    ensures err { OnErr result (uses.new ≡ uses.old) }
{
    let force = row.status.is_in_force();
    let stood = is_in_force(count_base.overlay.order(row.id));
    if force == stood {
        return Ok(());
    }
    count_names(uses, force, stood, purchases)
}

// Counts a use of the voucher of each of these purchases, with its discount: one that comes where their order is in force, and
// wasn't before, and one that goes where it was, and isn't.
fn count_names(
    uses: &mut Tally<Uses>,
    force: bool,
    stood: bool,
    purchases: &[Purchase],
) -> Result<(), AllocError>
    ensures more { OnOk result (AreMoreUses
        (purchase_uses force stood purchases.now)
        (purchase_uses stood force purchases.now)
        uses.old uses.new) }
    ensures err { OnErr result (uses.new ≡ uses.old) }
{
    let start = uses.len();
    for i in 0..purchases.len() {
        let purchase = &purchases[i];
        let come = used_since(force, stood, purchase.discount);
        let gone = used_since(stood, force, purchase.discount);
        if uses.add_named(purchase.voucher, come, gone).is_err() {
            uses.truncate(start);
            return Err(AllocError);
        }
    }
    Ok(())
}

// A single use in orders, with its discount, where an order is in force, and wasn't before.
fn used_since(force: bool, stood: bool, discount: Cents) -> Uses
    ensures { result ≡ used_since force stood 1 discount }
{
    if force && !stood {
        one_use(discount)
    } else {
        Uses::none()
    }
}

// A single use in orders, with its discount.
fn one_use(discount: Cents) -> Uses
    ensures { result ≡ record { used = 1; held = 0; spent = discount } }
{
    Uses {
        used: 1,
        held: 0,
        spent: discount.get(),
    }
}
