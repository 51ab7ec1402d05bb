//! What types promise of their values.

ghost use Rattle.std.specs.Prelude.{IfSome};
ghost use Rattle.base_values.specs.Counts.{IsUses, IsSize, IsPriority};
ghost use Rattle.base_values.specs.Moments.{IsMoment};
ghost use Rattle.base_values.specs.Money.{IsMoney};
ghost use Rattle.base_values.specs.Texts.{IsText};

use crate::cents::Cents;
use crate::counts::{Priority, Size, Uses};
use crate::moment::Moment;
use crate::text::Text;

/// A value of which its type promises something. Nothing is done with it: a caller learns the promise.
pub trait Known {
    ghost promise: { Self → Type 0 };

    /// What the type promises.
    fn recall_invariant(&self)
        ensures { promise self.now };
}

impl Known for Text {
    ghost promise = { IsText };

    fn recall_invariant(&self) {
        let _chars = self.as_str();
    }
}

impl Known for Cents {
    ghost promise = { IsMoney };

    fn recall_invariant(&self) {
        let _count = self.get();
    }
}

impl Known for Moment {
    ghost promise = { IsMoment };

    fn recall_invariant(&self) {
        let _seconds = self.get();
    }
}

impl Known for Uses {
    ghost promise = { IsUses };

    fn recall_invariant(&self) {
        let _count = self.get();
    }
}

impl Known for Size {
    ghost promise = { IsSize };

    fn recall_invariant(&self) {
        let _places = self.get();
    }
}

impl Known for Priority {
    ghost promise = { IsPriority };

    fn recall_invariant(&self) {
        let _rank = self.get();
    }
}

impl<T: Known> Known for Option<T> {
    ghost promise = { λ o. IfSome o T.promise };

    fn recall_invariant(&self) {
        if let Some(value) = self {
            value.recall_invariant();
        }
    }
}
