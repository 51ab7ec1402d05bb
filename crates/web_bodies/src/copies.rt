//! Copies of texts that a body lends.

ghost use Rattle.std.specs.Prelude.{◌≡◌, option_map, IfOk, IfSome};
ghost use Rattle.base_values.specs.Texts.{IsText};
ghost use Rattle.web_fields.specs.Reading.{text_of};

use base_values::Text;
use std::alloc::{AllocError, Global};

/// A copy of a text that may be lacking, of at most 254 bytes and with no control byte.
pub fn copied(alloc: Global, text: Option<&str>) -> Result<Option<Text>, AllocError>
    requires { IfSome text (λ s. IsText s.now) }
    ensures { IfOk result (λ copy. copy ≡ option_map text_of text.entry) }
{
    match text {
        None => Ok(None),
        Some(text) => Ok(Some(Text::copy_of(alloc, text)?)),
    }
}
