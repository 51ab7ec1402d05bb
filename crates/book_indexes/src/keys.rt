//! The keys of a row.

ghost use Rattle.std.specs.Prelude.{◌≡◌};
ghost use Rattle.book_indexes.specs.Keys.{no_keys};

/// The keys by which a row is found beside its id. It has each of them or not.
#[derive(Clone, Copy)]
pub struct Keys {
    /// The moment at which it ends, in seconds since 1970.
    pub until: Option<u64>,
    /// The id of the row that it names: a voucher, or a check-in's position.
    pub named: Option<u64>,
    /// The digest of its text.
    pub text: Option<u64>,
    /// What it belongs to: an order, a queue, a ticket at a door.
    pub group: Option<u64>,
}

impl Keys {
    /// None of them.
    pub fn none() -> Self
        ensures { result ≡ no_keys }
    {
        Keys {
            until: None,
            named: None,
            text: None,
            group: None,
        }
    }
}
