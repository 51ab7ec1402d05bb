//! How much the book uses of the quotas that were asked for.

ghost use Rattle.std.specs.Prelude.{◌≡◌, ◌≤◌, Some};
ghost use Rattle.model_catalogue.specs.CatalogueLists.{quota_at};
ghost use Rattle.draft_changes.specs.Used.{places_used, most_used, AreBases};

use base_tables::{Row, place_of};
use base_values::Moment;
use book_tally::Tally;
use book_usage::{Book, usage_of};
use model_catalogue::Quota;
use model_rows::Usage;
use std::alloc::AllocError;

/// How much the book uses of the quota at a place.
#[derive(Clone, Copy)]
pub struct Base {
    pub place: u64,
    pub total: u128,
}

impl Row for Base {
    ghost key = { λ r. r.place };

    fn id(&self) -> u64 {
        self.place
    }
}

/// Asks the book, if that is wanted, for the quotas whose counts came after the mark. Where there is no memory for an answer,
/// it isn't kept, and the book is asked again.
pub fn ask_bases<B: Book>(
    book: &B,
    at: Moment,
    wanted: bool,
    counts: &Tally<Usage>,
    mark: usize,
    bases: &mut Vec<Base>,
)
    requires known { AreBases (B.state book.now).lists at bases.old.items }
    requires past { (B.state book.now).moment ≤ at }
    ensures { AreBases (B.state book.now).lists at bases.new.items }
{
    if !wanted {
        return;
    }
    for i in mark..counts.len() {
        let _ = ask_base(book, at, counts.key(i), bases);
    }
}

// Asks the book for the quota at a place, unless that is known.
fn ask_base<B: Book>(
    book: &B,
    at: Moment,
    place: u64,
    bases: &mut Vec<Base>,
) -> Result<(), AllocError>
    requires known { AreBases (B.state book.now).lists at bases.old.items }
    requires past { (B.state book.now).moment ≤ at }
    ensures { AreBases (B.state book.now).lists at bases.new.items }
{
    match place_of(bases, place) {
        Ok(_) => Ok(()),
        Err(gap) => {
            let catalogue = book.catalogue();
            catalogue.recall_invariant();
            let quotas = catalogue.quotas();
            let index = place as usize;
            if quotas.len() <= index {
                return Ok(());
            }
            let total = used_in_book(book, &quotas[index], at);
            Ok(bases.insert(gap, Base { place, total })?)
        }
    }
}

/// All that is used of a quota that stands in the book.
#[tactic(auto, unfolding(crate::specs::Used::places_used))]
pub fn used_in_book<B: Book>(book: &B, quota: &Quota, at: Moment) -> u128
    requires moment { (B.state book.now).moment ≤ at }
    requires stands { quota_at quota.now.id (B.state book.now).lists.catalogue ≡ Some quota.now }
    ensures value { result ≡ places_used (B.state book.now).lists at quota.now }
    ensures few { result ≤ most_used }
{
    usage_of(book, quota, at).total()
}
