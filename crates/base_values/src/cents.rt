//! Amounts of money, and their texts.

ghost use Rattle.std.specs.Prelude.{◌≡◌, ◌≤◌, ◌<◌, ◌==◌, length, position, IfOk, IfSome, string_bytes};
ghost use Rattle.base_values.specs.Money.{money_of, money_by, decimals_of, cents_text, last_cents};

use crate::digits::{is_digits, number_of};
use crate::refusal::ValueRefusal;
use std::alloc::{AllocError, Global};
use std::marker::Model;

/// The largest amount, 99,999,999.99.
pub const LAST_CENTS: u64 = 9_999_999_999;

/// An amount of money, in whole cents, 0 to 9,999,999,999.
#[derive(Clone, Copy, PartialEq, Eq, PartialOrd, Ord)]
pub struct Cents {
    count: u64,
}

impl Model for Cents {
    ghost use Rattle.std.specs.Prelude.{ℕ, ◌≤◌};
    ghost use Rattle.base_values.specs.Money.{last_cents};

    ghost Value = { ℕ };

    ghost view = { λ c. c.count };

    ghost invariant = { λ c. c.count ≤ last_cents };

    ghost inverse = { λ n. record { count = n } };
}

impl Cents {
    /// That many cents, which have to be at most 9,999,999,999.
    pub fn new(count: u64) -> Self
        requires { count ≤ last_cents }
        ensures { result ≡ count }
    {
        Cents { count }
    }

    /// How many cents.
    pub fn get(self) -> u64
        ensures value { result ≡ self }
        ensures in_range { self ≤ last_cents }
    {
        self.count
    }
}

/// The amount that a text writes: digits, and perhaps a point with one or two digits after it.
/// Refusals: 1 `NotMoney` for any other text, 2 `TooLarge` for more than eight digits before the point.
pub fn read_cents(text: &str) -> Result<Cents, ValueRefusal>
    ensures { result ≡ money_of text.now }
{
    let bytes = text.as_bytes();
    match point_of(bytes) {
        None => read_parts(bytes, Some(0)),
        Some(at) => read_parts(&bytes[..at], decimals_of(&bytes[at + 1..])),
    }
}

// Where the point stands.
fn point_of(text: &[u8]) -> Option<usize>
    ensures place { result ≡ position (λ b. b == 46) text.now }
    ensures within { IfSome result (λ at. at < length text.now) }
{
    text.iter().position(|b| *b == b'.')
}

// The amount of so many units, and of what stands behind the point.
fn read_parts(units: &[u8], decimals: Option<u64>) -> Result<Cents, ValueRefusal>
    requires { IfSome decimals (λ d. d ≤ 99) }
    ensures { result ≡ money_by units.now decimals }
{
    let Some(decimals) = decimals else {
        return Err(ValueRefusal::NotMoney);
    };
    if !is_digits(units) {
        return Err(ValueRefusal::NotMoney);
    }
    if units.len() > 8 {
        return Err(ValueRefusal::TooLarge);
    }
    match number_of(units) {
        None => Err(ValueRefusal::NotMoney),
        Some(n) => Ok(Cents::new(n * 100 + decimals)),
    }
}

// The cents that one or two digits write.
fn decimals_of(text: &[u8]) -> Option<u64>
    ensures value { result ≡ decimals_of text.now }
    ensures small { IfSome result (λ d. d ≤ 99) }
{
    let n = number_of(text)?;
    match text.len() {
        1 => Some(n * 10),
        2 => Some(n),
        _ => None,
    }
}

/// The text of an amount: at least one digit, a point and two digits.
pub fn cents_text(alloc: Global, amount: Cents) -> Result<String, AllocError>
    ensures { IfOk result (λ s. string_bytes s ≡ cents_text amount) }
{
    total_text(alloc, amount.get() as u128)
}

/// The text of so many cents, as that of an amount; they may be more than an amount has.
pub fn total_text(alloc: Global, cents: u128) -> Result<String, AllocError>
    ensures { IfOk result (λ s. string_bytes s ≡ cents_text cents) }
{
    let units = cents / 100;
    let tens = cents / 10 % 10;
    let ones = cents % 10;
    format!(in alloc; "{units}.{tens}{ones}")
}
