//! The codes of orders.

ghost use Rattle.std.specs.Prelude.{◌≡◌, ◌≤◌, ◌<◌, ◌==◌, length, position, IfOk, IfSome};
ghost use Rattle.base_values.specs.Codes.{last_order, letter, order_code, worth, five_letters, five_places, number_of_code};

use crate::refusal::ValueRefusal;
use crate::text::Text;
use std::alloc::{AllocError, Global};
use std::str;

/// The greatest number of an order, whose code is `99999`.
pub const LAST_ORDER: u32 = 17_210_367;

// The digits of base 28, from 0 up.
const ALPHABET: [u8; 28] = *b"ABCDEFGHJKLMNPQRSTUVWXYZ3789";

/// The code of an order's number, 1 to 17,210,367: five letters and digits, as `AAAAB` for 1.
/// A number outside of that range has the code of its last five places in base 28, which isn't its own.
#[tactic(auto, unfolding(crate::specs::Codes::order_code))]
pub fn order_code(alloc: Global, number: u32) -> Result<Text, AllocError>
    ensures { IfOk result (λ code. code ≡ order_code number) }
{
    let letters = [
        letter(number / 614_656),
        letter(number / 21_952),
        letter(number / 784),
        letter(number / 28),
        letter(number),
    ];
    let Ok(code) = str::from_utf8(&letters) else {
        unreachable!();
    };
    Text::copy_of(alloc, code)
}

// The last place of a number in base 28.
#[tactic(auto, unfolding(crate::specs::Codes::letter))]
fn letter(number: u32) -> u8
    ensures value { result ≡ letter number }
    ensures ascii { result < 128 }
{
    ALPHABET[(number % 28) as usize]
}

/// The number, 1 to 17,210,367, of the order with this code. Refusal: 5 `NotCode` for a text that is no order's code.
#[tactic(auto, unfolding(crate::specs::Codes::number_of_code))]
pub fn read_code(text: &str) -> Result<u32, ValueRefusal>
    ensures value { result ≡ number_of_code text.now }
    ensures in_range { IfOk result (λ n. (1 ≤ n) × (n ≤ last_order)) }
{
    match five_places(text.as_bytes()) {
        None | Some(0) => Err(ValueRefusal::NotCode),
        Some(number) => Ok(number),
    }
}

// The number that five letters write.
fn five_places(text: &[u8]) -> Option<u32>
    ensures value { result ≡ five_places text.now }
    ensures small { IfSome result (λ n. n ≤ last_order) }
{
    match text {
        [a, b, c, d, e] => five_letters(*a, *b, *c, *d, *e),
        _ => None,
    }
}

#[tactic(auto, unfolding(crate::specs::Codes::five_letters))]
fn five_letters(a: u8, b: u8, c: u8, d: u8, e: u8) -> Option<u32>
    ensures value { result ≡ five_letters a b c d e }
    ensures small { IfSome result (λ n. n ≤ last_order) }
{
    let high = (worth(a)? * 28 + worth(b)?) * 28 + worth(c)?;
    Some((high * 28 + worth(d)?) * 28 + worth(e)?)
}

// What a letter is worth, 0 to 27.
#[tactic(auto, unfolding(crate::specs::Codes::worth))]
fn worth(letter: u8) -> Option<u32>
    ensures value { result ≡ worth letter }
    ensures small { IfSome result (λ d. d < 28) }
{
    let at = place_of(letter, &ALPHABET)?;
    Some(at as u32)
}

// Where a letter stands first.
fn place_of(letter: u8, letters: &[u8]) -> Option<usize>
    ensures place { result ≡ position (λ l. l == letter) letters.now }
    ensures within { IfSome result (λ at. at < length letters.now) }
{
    letters.iter().position(|l| *l == letter)
}
