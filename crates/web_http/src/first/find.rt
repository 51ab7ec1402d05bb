//! The search for it.

ghost use Rattle.std.specs.Prelude.{◌≡◌, length};
ghost use Rattle.web_http.specs.Heads.{field_room};
ghost use Rattle.web_http.specs.Found.{FindsFirst};

use super::{First, FoundMessage};
use crate::fault::FrameFault;
use crate::fields::check_fields;
use crate::heads::{Head, head_of};
use httparse::spans::HeaderSpan;

/// What the front of the bytes is.
pub fn find_first(bytes: &[u8], headers: &mut [HeaderSpan]) -> First
    requires { length headers.old ≡ field_room }
    ensures { FindsFirst bytes.now headers.new result }
{
    match head_of(bytes, headers) {
        Head::Bad => First::Broken(FrameFault::BadHead),
        Head::Long => First::Broken(FrameFault::HeadTooLarge),
        Head::Waits => First::NoHead,
        Head::Whole(end, head) => match check_fields(&bytes[..end], &headers[..head.headers]) {
            Err(fault) => First::Broken(fault),
            Ok(length) => {
                if length > (bytes.len() - head.len) as u64 {
                    First::NoBody(head.len + length as usize)
                } else {
                    let body = length as usize;
                    First::Message(FoundMessage { end, head, body })
                }
            }
        },
    }
}
