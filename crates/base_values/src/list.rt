//! Lists of values.

ghost use Rattle.std.specs.Prelude.{◌≡◌};
ghost use Rattle.std.specs.List.{AllByRecursion};

use crate::known::Known;
use std::marker::Model;

/// Values in order, which contracts see as a list.
#[derive(Drop)]
pub struct List<T> {
    items: Vec<T>,
}

impl<T> Model for List<T> {
    ghost use Rattle.std.specs.Prelude.{List};

    ghost Value = { List T };

    ghost view = { λ l. l.items.items };
}

impl<T> List<T> {
    /// A list of these values.
    pub fn new(items: Vec<T>) -> Self
        ensures { result ≡ items.items }
    {
        List { items }
    }

    /// The values in order.
    pub fn as_slice(&self) -> &[T]
        ensures { result.now ≡ self.now }
    {
        self.items.as_slice()
    }
}

impl<T: Known> Known for List<T> {
    ghost promise = { λ l. AllByRecursion T.promise l };

    fn recall_invariant(&self) {
        for value in self.as_slice() {
            value.recall_invariant();
        }
    }
}
