//! Laws of texts: what was written reads back.

ghost use Rattle.std.specs.Prelude.{◌≡◌, ◌≤◌, ℕ, List, Ok};
ghost use Rattle.base_values.specs.Codes.{last_order, number_of_code, order_code};
ghost use Rattle.base_values.specs.Money.{cents_text, last_cents, money_of};

/// The text of an amount reads as that amount.
pub fn money_reads_back()
    ensures { (cents : ℕ) → cents ≤ last_cents → money_of (cents_text cents) ≡ Ok cents }
{}

/// The code of an order's number reads as that number.
pub fn codes_read_back()
    ensures { (n : ℕ) → 1 ≤ n → n ≤ last_order → number_of_code (order_code n) ≡ Ok n }
{}

/// What reads is the code of the number that it gives, and that is an order's number: so nothing else reads.
pub fn only_codes_read()
    ensures { (text : List ℕ) (n : ℕ) → number_of_code text ≡ Ok n
        → (order_code n ≡ text) × (1 ≤ n) × (n ≤ last_order) }
{}
