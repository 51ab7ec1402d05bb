//! What may happen among callers, of which definitions and laws make lists.

/// What happens next among callers.
#[derive(Clone, Copy, Drop, PartialEq, Eq)]
pub enum Next {
    /// The next caller comes, if a slot is free.
    Comes,
    /// Whoever is at that slot has a turn.
    Turn(usize),
    /// Whoever is at that slot leaves.
    Leaves(usize),
}
