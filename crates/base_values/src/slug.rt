//! Slugs.

ghost use Rattle.std.specs.Prelude.{◌≡◌, IfOk};
ghost use Rattle.std.specs.List.{list_all};
ghost use Rattle.base_values.specs.Slugs.{IsSlug, is_slug, is_slug_byte};

use std::alloc::{AllocError, Global};
use std::marker::Model;

/// How many bytes a slug has at most.
pub const MOST_SLUG: usize = 50;

/// A short name of an organizer or an event, as it stands in paths: 1 to 50 ASCII letters, digits, `-`, `.` and `_`.
/// Contracts see the list of its bytes.
#[derive(Drop)]
pub struct Slug {
    chars: String,
}

impl Model for Slug {
    ghost use Rattle.std.specs.Prelude.{List, ℕ, string_bytes};
    ghost use Rattle.base_values.specs.Slugs.{IsSlug};

    ghost Value = { List ℕ };

    ghost view = { λ s. string_bytes s.chars };

    ghost invariant = { λ s. IsSlug (string_bytes s.chars) };
}

impl Slug {
    /// A copy of a text that is a slug.
    pub fn copy_of(alloc: Global, chars: &str) -> Result<Self, AllocError>
        requires { IsSlug chars.now }
        ensures { IfOk result (λ slug. slug ≡ chars.now) }
    {
        Ok(Slug {
            chars: String::from_str(alloc, chars)?,
        })
    }

    /// The slug, lent.
    pub fn as_str(&self) -> &str
        ensures value { result.now ≡ self.now }
        ensures slug { IsSlug self.now }
    {
        self.chars.as_str()
    }

    /// A copy.
    pub fn copy(&self, alloc: Global) -> Result<Self, AllocError>
        ensures { IfOk result (λ slug. slug ≡ self.now) }
    {
        Slug::copy_of(alloc, self.as_str())
    }
}

/// Whether a text is a slug.
#[tactic(auto, unfolding(crate::specs::Slugs::is_slug))]
pub fn is_slug(text: &str) -> bool
    ensures { result ≡ is_slug text.now }
{
    let bytes = text.as_bytes();
    !bytes.is_empty() && bytes.len() <= MOST_SLUG && are_slug_bytes(bytes)
}

// Whether each byte is an ASCII letter, a digit, `-`, `.` or `_`.
fn are_slug_bytes(bytes: &[u8]) -> bool
    ensures { result ≡ list_all is_slug_byte bytes.now }
{
    bytes.iter().all(|b| is_slug_byte(*b))
}

fn is_slug_byte(b: u8) -> bool
    ensures { result ≡ is_slug_byte b }
{
    matches!(b, b'a'..=b'z' | b'A'..=b'Z' | b'0'..=b'9' | b'-' | b'.' | b'_')
}
