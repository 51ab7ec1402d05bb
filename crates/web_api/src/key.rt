//! The key of a message.

ghost use Rattle.std.specs.Prelude.{◌≡◌, IfOk};
ghost use Rattle.web_api.specs.Key.{key_of};

use model_answers::Key;
use std::alloc::{AllocError, Global};
use web_http::Frame;

/// The key of a message: the value of its first `X-Idempotency-Key` field, any bytes. It has none where there is no such
/// field, or an empty one.
pub fn key_of(alloc: Global, frame: &Frame<'_>) -> Result<Key, AllocError>
    ensures { IfOk result (λ key. key ≡ key_of frame.now) }
{
    match frame.field(b"x-idempotency-key") {
        None => Ok(Key::new(Vec::new(alloc))),
        Some(value) => Ok(Key::new(value.to_vec(alloc)?)),
    }
}
