//! The codes of vouchers.

ghost use Rattle.std.specs.Prelude.{◌≡◌, IfOk};
ghost use Rattle.std.specs.Option.{option_copied};
ghost use Rattle.draft_changes.specs.DraftState.{now};
ghost use Rattle.decide_vouchers.specs.Codes.{code_of, is_reserved_if, new_code, is_another, has_anothers_code};

use base_values::{Draw, Text};
use book_usage::Book;
use draft_changes::Draft;
use model_invariant::made_codes::made_code;
use model_invariant::reserved::is_reserved;
use model_rows::Voucher;
use std::alloc::{AllocError, Global};

/// The code that is given, or else one that is made of the draw and the new voucher's id.
pub fn code_of(alloc: Global, given: &Option<Text>, draw: Draw, id: u64) -> Result<Text, AllocError>
    ensures { IfOk result (λ text. text ≡ code_of given.now draw id) }
{
    match given {
        Some(given) => given.copy(alloc),
        None => made_code(alloc, draw, id),
    }
}

/// Whether a code is given that has the form of those that the shop makes.
pub fn is_reserved_if(given: Option<&Text>) -> bool
    ensures { result ≡ is_reserved_if (option_copied given.entry) }
{
    match given {
        None => false,
        Some(given) => is_reserved(given),
    }
}

/// The code that is given, where it isn't the old one.
pub fn new_code<'a>(given: &'a Option<Text>, old: &Text) -> Option<&'a Text>
    ensures { option_copied result ≡ new_code given.now old.now }
{
    match given {
        Some(given) if !given.same(old.as_str()) => Some(given),
        _ => None,
    }
}

/// Whether another voucher has this one's code.
pub fn has_anothers_code<B: Book>(draft: &Draft<'_, B>, row: &Voucher) -> bool
    ensures { result ≡ has_anothers_code row.now (now draft.now).lists }
{
    match draft.rows().voucher_of(row.code.as_str()) {
        None => false,
        Some(voucher) => voucher.id != row.id,
    }
}
