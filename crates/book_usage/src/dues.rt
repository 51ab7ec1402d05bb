//! A book with whose counts a file is kept.

ghost use Rattle.std.specs.Prelude.{◌≡◌, ◌≤◌, IfOk};
ghost use Rattle.model_rows.specs.Change.{changes_applied};
ghost use Rattle.model_rows.specs.Weight.{weight};
ghost use Rattle.book_usage.specs.Dues.{carts_ended_by, vouchers_ended_by, counts_of_changes};

use crate::Book;
use base_values::Moment;
use model_rows::{Changes, CountRows};
use std::alloc::{AllocError, Global};

/// A book that tells which of its rows ended since its moment, and takes over the counts that were worked out by that.
pub trait Dues: Book {
    /// The ids of the cart positions that ended, or end, at the book's moment or later, and before this one, in order.
    fn due_carts(&self, alloc: Global, at: Moment) -> Result<Vec<u64>, AllocError>
        requires { (Self.state self.now).moment ≤ at }
        ensures { IfOk result (λ ids. ids.items ≡ carts_ended_by at (Self.state self.now)) };

    /// The ids of such vouchers, in order.
    fn due_vouchers(&self, alloc: Global, at: Moment) -> Result<Vec<u64>, AllocError>
        requires { (Self.state self.now).moment ≤ at }
        ensures { IfOk result (λ ids. ids.items ≡ vouchers_ended_by at (Self.state self.now)) };

    /// Makes exactly these changes, as `apply` does, where the counts that they change are known.
    fn settle(&mut self, changes: Changes, counts: &CountRows, at: Moment)
        requires room { weight changes.list ≤ Self.room self.old }
        requires moment { (Self.state self.old).moment ≤ at }
        requires counts { counts.now ≡ counts_of_changes changes at (Self.state self.old) }
        ensures { Self.state self.new ≡ changes_applied changes at (Self.state self.old) };
}
