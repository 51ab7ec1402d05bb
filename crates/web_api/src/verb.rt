//! What a method asks for.

ghost use Rattle.std.specs.Prelude.{◌≡◌, bytes_eq};
ghost use Rattle.web_api.specs.Verbs.{verb_of, is_write};

/// A method, as far as the shop has it.
#[derive(Clone, Copy, PartialEq, Eq)]
pub enum Verb {
    Get,
    Post,
    Patch,
    Delete,
    /// Any other one.
    Other,
}

/// Whether a method has that name.
fn is(method: &[u8], name: &[u8]) -> bool
    ensures { result ≡ bytes_eq method.now name.now }
{
    method == name
}

/// The method of that name.
pub fn verb_of(method: &[u8]) -> Verb
    ensures { result ≡ verb_of method.now }
{
    if is(method, b"GET") {
        Verb::Get
    } else if is(method, b"POST") {
        Verb::Post
    } else if is(method, b"PATCH") {
        Verb::Patch
    } else if is(method, b"DELETE") {
        Verb::Delete
    } else {
        Verb::Other
    }
}

impl Verb {
    /// Whether a request of this method is a write, done or refused.
    pub fn is_write(self) -> bool
        ensures { result ≡ is_write self }
    {
        match self {
            Verb::Post | Verb::Patch | Verb::Delete => true,
            Verb::Get | Verb::Other => false,
        }
    }
}
