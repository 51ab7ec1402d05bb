//! A stream's messages, from bytes that come in pieces.

ghost use Rattle.std.specs.Prelude.{◌≡◌, ◌++◌, [], None, length, IfOk, OnErr, OnOk};
ghost use Rattle.web_http.specs.Framed.{Goes};
ghost use Rattle.web_http.specs.Heads.{field_room};

use crate::fault::FrameFault;
use crate::first::find::find_first;
use crate::first::{First, FoundMessage};
use crate::frame::Frame;
use crate::heads::{HEAD_LIMIT, last_line};
use httparse::spans::{EMPTY_HEADER_SPAN, HeaderSpan};
use std::alloc::{AllocError, Global};
use std::marker::Model;

/// The bytes that came and are not yet taken, and the message that was taken last.
#[derive(Drop)]
pub struct Frames {
    buffer: Vec<u8>,
    headers: Vec<HeaderSpan>,
    start: usize,
    base: usize,
    taken: Option<FoundMessage>,
    tried: usize,
    wanted: usize,
}

impl Model for Frames {
    ghost use Rattle.web_http.specs.Framed.{Framed};

    ghost Value = { Framed };

    ghost use Rattle.web_http.specs.View.{frame_view, IsFraming};

    ghost view = { frame_view };

    ghost invariant = { IsFraming };
}

// Room for the fields of a head, as many as its bytes can hold.
fn header_room(alloc: Global) -> Result<Vec<HeaderSpan>, AllocError>
    ensures { IfOk result (λ room. length room.items ≡ field_room) }
{
    vec![in alloc; EMPTY_HEADER_SPAN; 8192]
}

impl Frames {
    /// No bytes.
    pub fn new(alloc: Global) -> Result<Frames, AllocError>
        ensures empty { IfOk result (λ f. f.left ≡ []) }
        ensures none { IfOk result (λ f. f.taken ≡ None) }
    {
        let headers = header_room(alloc)?;
        Ok(Frames {
            buffer: Vec::new(alloc),
            headers,
            start: 0,
            base: 0,
            taken: None,
            tried: 0,
            wanted: 0,
        })
    }

    /// Begins anew with no bytes, in the room that is there.
    pub fn clear(&mut self)
        ensures empty { self.new.left ≡ [] }
        ensures none { self.new.taken ≡ None }
    {
        self.buffer.clear();
        self.start = 0;
        self.base = 0;
        self.taken = None;
        self.tried = 0;
        self.wanted = 0;
    }

    /// Adds a piece of the stream at the end. The message that was taken last is forgotten, also where memory is refused.
    pub fn feed(&mut self, piece: &[u8]) -> Result<(), AllocError>
        ensures none { self.new.taken ≡ None }
        ensures ok { OnOk result (self.new.left ≡ self.old.left ++ piece.now) }
        ensures err { OnErr result (self.new.left ≡ self.old.left) }
    {
        self.taken = None;
        self.base = 0;
        let _ = self.buffer.drain(..self.start);
        self.start = 0;
        self.buffer.extend_from_slice(piece)
    }

    /// Takes the first message off the front, if it is whole: none where it isn't, a fault where what stands there can be
    /// no message. A fault takes nothing off, and comes again. The message that was taken before is forgotten.
    pub fn next(&mut self) -> Option<Result<(), FrameFault>>
        ensures { Goes self.old self.new result }
    {
        self.taken = None;
        let rest = &self.buffer[self.start..];
        if rest.len() < self.wanted {
            return None;
        }
        let end = last_line(rest);
        if end <= self.tried && rest.len() < HEAD_LIMIT {
            return None;
        }
        match find_first(rest, &mut self.headers) {
            First::NoHead => {
                self.tried = end;
                None
            }
            First::NoBody(wanted) => {
                self.wanted = wanted;
                None
            }
            First::Broken(fault) => Some(Err(fault)),
            First::Message(found) => {
                self.base = self.start;
                self.start += found.head.len + found.body;
                self.tried = 0;
                self.wanted = 0;
                self.taken = Some(found);
                Some(Ok(()))
            }
        }
    }

    /// The message that the last `next` took; none where it took none, and after `feed`.
    pub fn taken(&self) -> Option<Frame<'_>>
        ensures { result ≡ self.now.taken }
    {
        let found = self.taken?;
        let bytes = &self.buffer[self.base..];
        let body = &bytes[found.head.len..found.head.len + found.body];
        Some(Frame::new(&bytes[..found.end], &self.headers, found.head, body))
    }
}
