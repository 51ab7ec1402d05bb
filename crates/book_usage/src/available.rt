//! What is used of a quota, and what is left.

ghost use Rattle.std.specs.Prelude.{◌≡◌, ◌≤◌, ◌<◌, Some};
ghost use Rattle.model_catalogue.specs.CatalogueLists.{quota_at};
ghost use Rattle.model_rows.specs.Available.{availability};
ghost use Rattle.model_rows.specs.Usage.{usage_of};

use crate::book::Book;
use base_values::{Moment, Steps};
use model_catalogue::Quota;
use model_rows::{Availability, Usage};
use std::marker::Brand;
use std::sync::ledger::{Blank, Ledger};

/// What is left of a quota that stands, at a moment that isn't before the book's.
pub fn availability<B: Book>(book: &B, quota: &Quota, at: Moment) -> Availability
    requires moment { (B.state book.now).moment ≤ at }
    requires stands { quota_at quota.now.id (B.state book.now).lists.catalogue ≡ Some quota.now }
    ensures { result ≡ availability (B.state book.now).lists at quota.now }
{
    Availability::of(quota.size, usage_of(book, quota, at))
}

/// What uses a quota that stands, at a moment that isn't before the book's.
pub fn usage_of<B: Book>(book: &B, quota: &Quota, at: Moment) -> Usage
    requires moment { (B.state book.now).moment ≤ at }
    requires stands { quota_at quota.now.id (B.state book.now).lists.catalogue ≡ Some quota.now }
    ensures { result ≡ usage_of (B.state book.now).lists at quota.now }
{
    usage_in::<B, Brand>(book, quota, at, Blank::new(1))
}

// What uses a quota that stands, in a ledger of steps that nobody reads.
fn usage_in<B: Book, L: Ledger>(book: &B, quota: &Quota, at: Moment, blank: Blank) -> Usage
    requires name { blank.name ≡ L.name }
    requires parts { blank.parts ≡ L.parts }
    requires some { 0 < blank.parts }
    requires moment { (B.state book.now).moment ≤ at }
    requires stands { quota_at quota.now.id (B.state book.now).lists.catalogue ≡ Some quota.now }
    ensures { result ≡ usage_of (B.state book.now).lists at quota.now }
{
    let mut steps = Steps::<L>::new(blank);
    book.usage_at(quota, at, &mut steps)
}
