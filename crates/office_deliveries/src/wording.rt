//! The words of replies.

ghost use Rattle.std.specs.Prelude.{◌≡◌, IfOk};
ghost use Rattle.base_values.specs.declared.answer.Response.{Response};
ghost use Rattle.model_commands.specs.declared.replies.Reply.{Reply};

use base_values::Response;
use model_commands::Reply;
use std::alloc::{AllocError, Global};

/// The words of replies.
pub trait Wording {
    /// What is told for a reply.
    ghost words: { Self → Reply → Response };

    /// What is told for a reply.
    fn words(&self, alloc: Global, reply: &Reply) -> Result<Response, AllocError>
        ensures { IfOk result (λ response. response ≡ words self.now reply.now) };
}

/// The words of a reply, which is let go.
pub fn worded<W: Wording>(wording: &W, alloc: Global, reply: Reply) -> Result<Response, AllocError>
    ensures { IfOk result (λ response. response ≡ W.words wording.now reply) }
{
    wording.words(alloc, &reply)
}
