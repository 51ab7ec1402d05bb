//! What a scanner shows of a ticket, by the text in a path.

ghost use Rattle.std.specs.Prelude.{◌≡◌, IfOk, option_map};
ghost use Rattle.web_api.specs.Path.{bytes_of};
ghost use Rattle.web_api.specs.Tickets.{secret_in, ticket_in};

use base_values::{Text, is_text, number_of};
use model_commands::Ticket;
use std::alloc::{AllocError, Global};

/// The secret that a text is, if it can be one: it has at most 254 bytes, of UTF-8, and no control byte.
fn secret_in(alloc: Global, text: &[u8]) -> Result<Ticket, AllocError>
    ensures { IfOk result (λ t. t ≡ secret_in text.now) }
{
    match str::from_utf8(text) {
        Ok(secret) => {
            if is_text(secret) {
                Ok(Ticket::Secret(Text::copy_of(alloc, secret)?))
            } else {
                Ok(Ticket::Unreadable)
            }
        }
        Err(_) => Ok(Ticket::Unreadable),
    }
}

/// The ticket that a text in a path is: 1 to 18 digits are the id of its position, any other text is its secret.
#[tactic(auto, unfolding(crate::specs::Tickets::ticket_in))]
pub fn ticket_in(alloc: Global, text: Option<&[u8]>) -> Result<Ticket, AllocError>
    ensures { IfOk result (λ t. t ≡ ticket_in (option_map bytes_of text.entry)) }
{
    match text {
        None => Ok(Ticket::Unreadable),
        Some(text) => match number_of(text) {
            Some(id) => Ok(Ticket::Position(id)),
            None => secret_in(alloc, text),
        },
    }
}
