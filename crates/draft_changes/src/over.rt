//! The first quota of which the changes since a mark take too much.

ghost use Rattle.std.specs.Prelude.{◌≡◌, ◌≤◌, ◌<◌, ◌+◌, ◌-◌, true, false, length, take, slice_index_or, Some};
ghost use Rattle.std.specs.Option.{IfSome};
ghost use Rattle.model_catalogue.specs.CatalogueLists.{quota_at};
ghost use Rattle.model_rows.specs.Over.{first_over, is_over};
ghost use Rattle.draft_counts.specs.Logs.{rows_of, rows_at};
ghost use Rattle.draft_changes.specs.Least.{over_at, IsLeast};
ghost use Rattle.draft_changes.specs.DraftState.{log_at, IsTotalled};
ghost use Rattle.model_catalogue.specs.declared.rows.Quota.{Quota};
ghost use Rattle.draft_changes.specs.Used.{places_used, most_used, usage_raised, AreBases, AreBases-prop};
ghost use Rattle.book_tally.specs.Counts.{newest};

use crate::bases::{Base, used_in_book};
use crate::weighed::is_too_much;
use base_tables::place_of;
use base_values::Moment;
use book_tally::{Count, Tally};
use book_usage::Book;
use draft_counts::Overlay;
use model_catalogue::Quota;
use model_rows::{Own, Usage};

/// What a draft uses of each quota, now and at a mark, for a request that adds or revives these rows of its own.
#[derive(Drop)]
pub struct Weighing<'w, 'a, B: Book> {
    pub book: &'w B,
    pub overlay: &'w Overlay<'a, B>,
    pub at: Moment,
    pub own: &'w [Own],
    /// The book's quotas.
    pub quotas: &'w [Quota],
    /// What is known of how much the book uses of them.
    pub bases: &'w [Base],
    /// What came and went of each of them, by its place.
    pub counts: &'w Tally<Usage>,
    /// How many changes there were at the mark.
    pub count: usize,
    /// How many additions there were to the counts then.
    pub mark: usize,
    // the draft stands on this book
    ghost base: { overlay.now.base ≡ (B.state book.now).lists },
    // the book isn't ahead of the draft
    ghost past: { (B.state book.now).moment ≤ at },
    ghost sold: { quotas.now ≡ overlay.now.base.catalogue.quotas },
    ghost asked: { AreBases overlay.now.base at bases.now } by { AreBases-prop overlay.now.base at bases.now },
    ghost within: { mark ≤ length counts.now },
    // the counts are right now
    ghost counted: { IsTotalled at overlay.now counts.now },
    // and were right at the mark
    ghost counted_before: { IsTotalled at (log_at count overlay.now) (take mark counts.now) },
}

impl<'w, 'a, B: Book> Weighing<'w, 'a, B> {
    /// The least quota of which the changes since the mark take too much.
    pub fn first_over(&self) -> Option<u64>
        ensures { result ≡ first_over (rows_at self.now.count self.now.overlay.now)
            (rows_of self.now.overlay.now) self.now.at self.now.own.now }
    {
        self.overlay.recall_invariant();
        let quotas = self.quotas;
        match self.least_over() {
            None => None,
            Some(place) => Some(quotas[place as usize].id),
        }
    }

    // The least place of a quota of which too much is taken, of those whose counts came after the mark.
    fn least_over(&self) -> Option<u64>
        ensures least { IsLeast (over_at self.now.count self.now.overlay.now self.now.at
            self.now.own.now self.now.quotas.now)
            self.now.counts.now (length self.now.counts.now) result }
        ensures within { IfSome result (λ place. place < length self.now.quotas.now) }
    {
        let mut least = None;
        for i in self.mark..self.counts.len() {
            least = self.lesser_over(i, least);
        }
        least
    }

    // The least of it and of what was found before: the quota of the addition at a place is looked at where that is the newest one
    // to its counts, so that each is looked at once.
    fn lesser_over(&self, place: usize, least: Option<u64>) -> Option<u64>
        requires place { place < length self.now.counts.now }
        requires least { IsLeast (over_at self.now.count self.now.overlay.now self.now.at
            self.now.own.now self.now.quotas.now)
            self.now.counts.now place least }
        ensures { IsLeast (over_at self.now.count self.now.overlay.now self.now.at
            self.now.own.now self.now.quotas.now)
            self.now.counts.now (place + 1) result }
    {
        let key = self.counts.key(place);
        if !is_next(self.counts, key, place, least) {
            return least;
        }
        match self.over_at(key) {
            None => least,
            Some(_) => Some(key),
        }
    }

    // The quota at a place, where too much is taken of it.
    fn over_at(&self, key: u64) -> Option<u64>
        ensures { result ≡ over_at self.now.count self.now.overlay.now self.now.at
            self.now.own.now self.now.quotas.now key }
    {
        let quotas = self.quotas;
        let place = key as usize;
        if quotas.len() <= place {
            return None;
        }
        let id = quotas[place].id;
        if self.is_over(place) { Some(id) } else { None }
    }

    // Whether too much is taken of the quota at a place. Where it is used no more than before, the book isn't asked.
    fn is_over(&self, place: usize) -> bool
        requires { place < length self.now.quotas.now }
        ensures { (d : Quota) → result ≡ is_over (rows_at self.now.count self.now.overlay.now)
            (rows_of self.now.overlay.now) self.now.at self.now.own.now
            (slice_index_or self.now.quotas.now place d) }
    {
        let quotas = self.quotas;
        let quota = &quotas[place];
        if quota.size.is_none() {
            return false;
        }
        let before = self.counts.at_mark(self.mark, place as u64);
        let after = self.counts.of(place as u64);
        let more = usage_raised(after.come, after.gone) + usage_raised(before.gone, before.come);
        let less = usage_raised(before.come, before.gone) + usage_raised(after.gone, after.come);
        if more <= less {
            return false;
        }
        let base = self.base_of(place);
        let was = moved(base, before);
        let used = moved(base, after);
        is_too_much(self.overlay, self.at, quota, self.own, was, used)
    }

    /// All that is used of a quota that stands, with the changes.
    pub fn used(&self, quota: &Quota) -> u128
        requires { quota_at quota.now.id self.now.overlay.now.base.catalogue ≡ Some quota.now }
        ensures { result ≡ places_used (rows_of self.now.overlay.now) self.now.at quota.now }
    {
        self.book.catalogue().recall_invariant();
        match place_of(self.quotas, quota.id) {
            Ok(place) => {
                let count = self.counts.of(place as u64);
                moved(self.base_of(place), count)
            }
            // It stands, so it has a place.
            Err(_) => 0,
        }
    }

    // How much the book uses of the quota at a place: what is known, or else its answer.
    fn base_of(&self, place: usize) -> u128
        requires { place < length self.now.quotas.now }
        ensures value { (d : Quota) → result ≡ places_used self.now.overlay.now.base self.now.at
            (slice_index_or self.now.quotas.now place d) }
        ensures few { result ≤ most_used }
    {
        self.book.catalogue().recall_invariant();
        let bases = self.bases;
        let quotas = self.quotas;
        match place_of(bases, place as u64) {
            Ok(found) => bases[found].total,
            Err(_) => used_in_book(self.book, &quotas[place], self.at),
        }
    }
}

// Whether the addition at a place is to be looked at: it is the newest one to its key, which is less than what was found.
fn is_next(counts: &Tally<Usage>, key: u64, place: usize, least: Option<u64>) -> bool
    ensures yes { result ≡ true → IfSome least (λ l. key < l) }
    ensures no { result ≡ false → newest key counts.now ≡ Some place
        → IfSome least (λ l. key < l) → ⊥ }
{
    is_newest(counts, key, place) && is_less(key, least)
}

// Whether the newest addition to a key is at this place.
fn is_newest(counts: &Tally<Usage>, key: u64, place: usize) -> bool
    ensures { result ≡ false → newest key counts.now ≡ Some place → ⊥ }
{
    match counts.newest(key) {
        None => false,
        Some(newest) => newest == place,
    }
}

// Whether it is less than what was found, if anything was.
fn is_less(key: u64, least: Option<u64>) -> bool
    ensures yes { result ≡ true → IfSome least (λ l. key < l) }
    ensures no { result ≡ false → IfSome least (λ l. key < l) → ⊥ }
{
    match least {
        None => true,
        Some(least) => key < least,
    }
}

// By how much all that is used rises where the first amount comes and the second goes, but for what it falls.
fn usage_raised(come: Usage, gone: Usage) -> u128
    ensures value { result ≡ usage_raised come gone }
    ensures few { result ≤ 110680464442257309696 }
{
    u128::from(come.paid)
        + u128::from(come.pending)
        + u128::from(come.blocked)
        + u128::from(come.carts)
        + u128::from(come.waiting)
        + u128::from(gone.exited)
}

// What is used, by what was used in the book, and what came and went since.
fn moved(base: u128, count: Count<Usage>) -> u128
    requires { base ≤ most_used }
    ensures { result
        ≡ base + usage_raised count.come count.gone - usage_raised count.gone count.come }
{
    let more = base + usage_raised(count.come, count.gone);
    more.saturating_sub(usage_raised(count.gone, count.come))
}
