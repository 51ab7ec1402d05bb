//! How far a conversation is, and what its next turn needs.

/// How far a conversation is.
#[derive(Clone, Copy, Drop, PartialEq, Eq)]
pub enum Phase {
    /// It waits for bytes: no message that came is whole.
    Waits,
    /// Another message may be there.
    Goes,
    /// All messages were answered.
    Ends,
    /// It broke off.
    Lost,
}

/// What a conversation needs for its next turn.
#[derive(Clone, Copy, Drop, PartialEq, Eq)]
pub enum Needs {
    /// Bytes to be read.
    Bytes,
    /// Room for what isn't sent yet, or no more than a turn.
    Room,
    /// Nothing: it is over.
    Nothing,
}
