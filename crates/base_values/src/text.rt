//! Texts.

ghost use Rattle.std.specs.Prelude.{◌≡◌, IfOk, string_bytes};
ghost use Rattle.std.specs.List.{list_all};
ghost use Rattle.base_values.specs.Texts.{IsText, is_plain_byte, is_text, same_text};

use std::alloc::{AllocError, Global};
use std::marker::Model;

/// How many bytes a text of a row has at most.
pub const MOST_TEXT: usize = 254;

/// A text of a row: at most 254 bytes, none of them below 32 or 127. Contracts see the list of its bytes.
#[derive(Drop)]
pub struct Text {
    chars: String,
}

impl Model for Text {
    ghost use Rattle.std.specs.Prelude.{List, ℕ, string_bytes};
    ghost use Rattle.base_values.specs.Texts.{IsText};

    ghost Value = { List ℕ };

    ghost view = { λ t. string_bytes t.chars };

    ghost invariant = { λ t. IsText (string_bytes t.chars) };
}

impl Text {
    /// The text of these chars, which have to be at most 254 bytes, none of them below 32 or 127.
    pub fn new(chars: String) -> Self
        requires { IsText (string_bytes chars) }
        ensures { result ≡ string_bytes chars }
    {
        Text { chars }
    }

    /// A copy of a text that is lent, of at most 254 bytes, none of them below 32 or 127.
    pub fn copy_of(alloc: Global, chars: &str) -> Result<Self, AllocError>
        requires { IsText chars.now }
        ensures { IfOk result (λ t. t ≡ chars.now) }
    {
        Ok(Text {
            chars: String::from_str(alloc, chars)?,
        })
    }

    /// The text, lent.
    pub fn as_str(&self) -> &str
        ensures value { result.now ≡ self.now }
        ensures text { IsText self.now }
    {
        self.chars.as_str()
    }

    /// A copy.
    pub fn copy(&self, alloc: Global) -> Result<Self, AllocError>
        ensures { IfOk result (λ t. t ≡ self.now) }
    {
        Text::copy_of(alloc, self.as_str())
    }

    /// Whether it is the same text, as the test that definitions over lists use.
    pub fn same(&self, other: &str) -> bool
        ensures { result ≡ same_text self.now other.now }
    {
        self.chars.as_str() == other
    }
}

/// Whether these chars are the text of a row: at most 254 bytes, none of them below 32 or 127.
#[tactic(auto, unfolding(crate::specs::Texts::is_text))]
pub fn is_text(chars: &str) -> bool
    ensures { result ≡ is_text chars.now }
{
    chars.len() <= MOST_TEXT && are_plain_bytes(chars.as_bytes())
}

// Whether no byte is below 32 or 127.
fn are_plain_bytes(bytes: &[u8]) -> bool
    ensures { result ≡ list_all is_plain_byte bytes.now }
{
    bytes.iter().all(|b| is_plain_byte(*b))
}

fn is_plain_byte(b: u8) -> bool
    ensures { result ≡ is_plain_byte b }
{
    b >= 32 && b != 127
}
