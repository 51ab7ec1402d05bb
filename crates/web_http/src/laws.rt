//! What holds of a stream's messages, whoever reads them.

ghost use Rattle.std.specs.Prelude.{◌≡◌, ◌<◌, ◌++◌, ℕ, List, [], Result, length, take, map};
ghost use Rattle.httparse.specs.Grammar.{RequestHead, print_request, ReadsRequest};
ghost use Rattle.web_http.specs.Heads.{HasHead, HasBadHead, EndsLine, Settles};
ghost use Rattle.web_http.specs.declared.fault.FrameFault.{FrameFault};
ghost use Rattle.web_http.specs.Messages.{Message, Messages, Reads, AreLast, whole};

/// A stream has one reading.
pub fn one_reading()
    ensures { (bytes : List ℕ) (ms ns : List (Result Message FrameFault))
        → Messages bytes ms → Messages bytes ns → ms ≡ ns }
{}

/// No lines that are shorter than the head are a head, or rule one out.
pub fn head_is_the_shortest()
    ensures { (bytes : List ℕ) (h : RequestHead) (rest : List ℕ) → HasHead bytes h rest
        → (k : ℕ) → k < length (print_request h) → EndsLine bytes k → ¬ (Settles (take k bytes)) }
{}

/// Where some lines rule a head out, none are a head.
pub fn bad_head_is_alone()
    ensures { (bytes : List ℕ) → HasBadHead bytes
        → (k : ℕ) (h : RequestHead) → ¬ (ReadsRequest (take k bytes) h []) }
{}

/// However a stream is cut: the messages that were taken off its first piece, and those of what they left with the next
/// piece behind it, are the messages of both pieces in one.
pub fn cutting_makes_no_difference()
    ensures { (a b rest : List ℕ) (ms : List Message) (items : List (Result Message FrameFault))
        → Reads a ms rest → Messages (rest ++ b) items → Messages (a ++ b) (map whole ms ++ items) }
{}

/// Nothing that comes behind the end of a connection changes its messages.
pub fn the_end_stays()
    ensures { (a b : List ℕ) (items : List (Result Message FrameFault))
        → Messages a items → AreLast items → Messages (a ++ b) items }
{}
