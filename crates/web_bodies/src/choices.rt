//! Words of a choice.

ghost use Rattle.std.specs.Prelude.{◌≡◌};
ghost use Rattle.base_values.specs.Texts.{same_text};

/// Whether two texts are the same.
pub fn is(text: &str, word: &str) -> bool
    ensures { result ≡ same_text text.now word.now }
{
    text == word
}
