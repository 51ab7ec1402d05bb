//! How a voucher changes a price.

ghost use Rattle.std.specs.Prelude.{◌≡◌};
ghost use Rattle.base_values.specs.Price.{price, price_with, within_left, price_within};

use crate::cents::Cents;
use crate::percent::Percent;

/// How a voucher changes a price.
#[derive(Clone, Copy, PartialEq, Eq)]
pub enum PriceMode {
    /// The base price stays.
    None,
    /// The voucher's value is the price.
    Set,
    /// The voucher's value is taken off, down to nothing.
    Subtract,
    /// The voucher's value, in hundredths of a percent, is taken off.
    Percent,
}

/// The price by a voucher's mode and value, of which no more is taken off than `left`: what is left of its budget.
/// Where `left` is none, the voucher has no budget, and any amount may be taken off.
pub fn price_within(
    mode: PriceMode,
    value: Option<Cents>,
    base: Cents,
    left: Option<Cents>,
) -> Cents
    ensures { result ≡ price_within mode value base left }
{
    within_left(left, base, price(mode, value, base))
}

// The price by a voucher's mode and value, where it has a value, else the base price.
// The value is cents, and in the mode `Percent` hundredths of a percent (above 10,000 the price is 0).
fn price(mode: PriceMode, value: Option<Cents>, base: Cents) -> Cents
    ensures { result ≡ price mode value base }
{
    match value {
        None => base,
        Some(value) => price_with(mode, value, base),
    }
}

// The price, but at most `left` below the base price. A price that takes nothing off stays.
fn within_left(left: Option<Cents>, base: Cents, price: Cents) -> Cents
    ensures { result ≡ within_left left base price }
{
    let Some(left) = left else {
        return price;
    };
    if base.get() <= price.get() {
        return price;
    }
    let off = (base.get() - price.get()).min(left.get());
    Cents::new(base.get() - off)
}

fn price_with(mode: PriceMode, value: Cents, base: Cents) -> Cents
    ensures { result ≡ price_with mode value base }
{
    match mode {
        PriceMode::None => base,
        PriceMode::Set => value,
        PriceMode::Subtract => Cents::new(base.get().saturating_sub(value.get())),
        PriceMode::Percent => match Percent::new(value.get()) {
            Some(percent) => percent.left_of(base),
            None => Cents::new(0),
        },
    }
}
