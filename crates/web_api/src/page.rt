//! Which page of a list a target asks for.

ghost use Rattle.std.specs.Prelude.{◌≡◌, IfOk, codes};
ghost use Rattle.form_urlencoded.specs.Form.{raw_pairs};
ghost use Rattle.base_values.specs.Texts.{same_text};
ghost use Rattle.base_values.specs.Digits.{number_of};
ghost use Rattle.web_api.specs.Page.{text_decoded, page_in, page_of};

use crate::path::query_of;
use base_values::number_of;
use form_urlencoded::{decode, raw_pairs};
use std::alloc::{AllocError, Global};

/// Whether a name, as the query gives it, is `page`.
fn is_page(alloc: Global, name: &[u8]) -> Result<bool, AllocError>
    ensures { IfOk result (λ b. b ≡ same_text (text_decoded name.now) (codes "page")) }
{
    let name = decode(alloc, name)?;
    Ok(name.as_str() == "page")
}

/// The number that a value, as the query gives it, writes in 1 to 18 digits.
fn number_in(alloc: Global, value: &[u8]) -> Result<Option<u64>, AllocError>
    ensures { IfOk result (λ n. n ≡ number_of (text_decoded value.now)) }
{
    let value = decode(alloc, value)?;
    Ok(number_of(value.as_str().as_bytes()))
}

/// The page that a query names.
fn page_in(alloc: Global, query: &[u8]) -> Result<Option<u64>, AllocError>
    ensures { IfOk result (λ page. page ≡ page_in (raw_pairs query.now)) }
{
    for (name, value) in raw_pairs(query) {
        if is_page(alloc, name)? {
            return number_in(alloc, value);
        }
    }
    Ok(Some(1))
}

/// The page that a target asks for: the first value of `page` in its query, or 1 without one.
/// None where that value isn't 1 to 18 digits. No page is out of range here, not even 0.
#[tactic(auto, unfolding(crate::specs::Page::page_of))]
pub fn page_of(alloc: Global, target: &[u8]) -> Result<Option<u64>, AllocError>
    ensures { IfOk result (λ page. page ≡ page_of target.now) }
{
    page_in(alloc, query_of(target))
}
