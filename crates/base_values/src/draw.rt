//! Draws.

ghost use Rattle.base_values.specs.Draws.{IsDraw};

/// Sixteen bytes by chance, handed in with each request. Nothing is promised of their being hard to guess.
#[derive(Clone, Copy, PartialEq, Eq)]
pub struct Draw {
    pub bytes: [u8; 16],
}

impl Draw {
    /// A draw is sixteen bytes.
    pub fn recall_invariant(self)
        ensures { IsDraw self }
    {
        let _bytes = self.bytes;
    }
}
