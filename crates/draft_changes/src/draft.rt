//! A book with changes that aren't applied yet.

ghost use Rattle.std.specs.Prelude.{true, not, ◌||◌, ◌≡◌, [], ◌≤◌, ◌<◌, ◌+◌, ◌-◌, IfOk, OnOk, OnErr, count_by, Some, None};
ghost use Rattle.model_rows.specs.Lists.{position_at, checkin_at};
ghost use Rattle.model_rows.specs.Headroom.{has_use, held, HasHeadroom, AllHaveHeadroom};
ghost use Rattle.model_rows.specs.Conditions.{is_live_cart};
ghost use Rattle.base_tables.specs.Tables.{AreInOrder};
ghost use Rattle.model_rows.specs.Over.{first_over};
ghost use Rattle.model_rows.specs.Change.{change_applied};
ghost use Rattle.draft_changes.specs.DraftState.{DraftState, MarkState, IsMarkOf, Extends, Makes, now, back, with_change};
ghost use Rattle.draft_counts.specs.Logs.{rows_of};
ghost use Rattle.draft_changes.specs.CanCome.{CanCome};
ghost use Rattle.book_tally.specs.CountDeltas.{AreCountDeltas};
ghost use Rattle.model_rows.specs.Usage.{redeemed, spent, usage_of, waits_for};
ghost use Rattle.model_rows.specs.Total.{total};
ghost use Rattle.model_catalogue.specs.CatalogueLists.{quota_at};

use crate::bases::{Base, ask_bases};
use crate::finish::{note_voucher, shifts_of};
use crate::over::Weighing;
use base_values::Moment;
use book_tally::Drafted;
use book_usage::{Book, LookUps, usage_of};
use draft_counts::{Overlay, Tallies};
use model_catalogue::Quota;
use model_rows::{
    CartPos, Change, Changes, Checkin, CheckinList, NextIds, Order, OrderPos, Own, Voucher, Waiting,
};
use std::alloc::{AllocError, Global};
use std::marker::Model;

/// A place in a draft, to which it can go back.
#[derive(Clone, Copy)]
pub struct Mark {
    count: usize,
    next: NextIds,
}

impl Model for Mark {
    ghost use Rattle.draft_changes.specs.DraftState.{MarkState};

    ghost Value = { MarkState };

    ghost view = { λ m. record { count = m.count; next = m.next } };

    ghost inverse = { λ m. record { count = m.count; next = m.next } };
}

/// A book at a moment, with changes that aren't applied yet.
#[derive(Drop)]
pub struct Draft<'a, B: Book> {
    pub(crate) book: &'a B,
    overlay: Overlay<'a, B>,
    pub(crate) next: NextIds,
    moment: Moment,
    pub(crate) tallies: Tallies,
    bases: Vec<Base>,
    noted: Vec<u64>,
    again: bool,
}

impl<'a, B: Book> Model for Draft<'a, B> {
    ghost use Rattle.draft_changes.specs.DraftState.{DraftState, IsDraft};

    ghost Value = { DraftState };

    ghost view = { λ d. record { log = d.overlay; next = d.next; moment = d.moment } };

    // What is counted, now and before each change, is what counting afresh gives, and no voucher is used more often than it may
    // be.
    ghost invariant = { λ d. IsDraft
        (B.state d.book.now) d.overlay d.moment d.tallies d.bases.items d.noted.items };
}

impl<'a, B: Book> Draft<'a, B> {
    /// The book as it stands, at a moment that isn't before its own and at which it has headroom.
    /// `Err` where there is no memory for the draft.
    pub fn new(alloc: Global, book: &'a B, moment: Moment) -> Result<Self, AllocError>
        requires moment { (B.state book.now).moment ≤ moment }
        requires headroom { AllHaveHeadroom moment (B.state book.now).lists }
        ensures { IfOk result (λ d. d ≡ record {
          log = record { base = (B.state book.now).lists; changes = [] };
          next = (B.state book.now).next;
          moment = moment;
        }) }
    {
        Ok(Draft {
            book,
            overlay: Overlay::new(alloc, book),
            next: book.next_ids(),
            moment,
            tallies: Tallies::new(alloc, book.carts().len(), book.vouchers().len()),
            bases: Vec::new(alloc),
            noted: Vec::new(alloc),
            again: false,
        })
    }

    /// No voucher is used more often than it may be, and the ids of vouchers, of cart positions and of waiting entries
    /// rise.
    pub fn recall_invariant(&self)
        ensures headroom { AllHaveHeadroom self.now.moment (rows_of self.now.log) }
        ensures vouchers { AreInOrder (λ r. r.id) (rows_of self.now.log).vouchers }
        ensures carts { AreInOrder (λ r. r.id) (rows_of self.now.log).carts }
        ensures waiting { AreInOrder (λ r. r.id) (rows_of self.now.log).waiting }
    {
        let _ = &self.moment;
        self.overlay.recall_invariant();
    }

    /// The moment of the changes.
    pub fn moment(&self) -> Moment
        ensures { result ≡ (now self.now).moment }
    {
        self.moment
    }

    /// The rows with the changes, which are looked up there.
    pub fn rows(&self) -> &Overlay<'a, B>
        ensures { result.now ≡ self.now.log }
    {
        &self.overlay
    }

    /// The book below the changes. Of what no change touched it tells what stands in the draft too.
    pub fn book(&self) -> &B
        ensures { (B.state result.now).lists ≡ self.now.log.base }
    {
        self.book
    }

    /// How often the voucher is used: by the positions of pending and paid orders, and by live cart positions.
    pub fn uses(&self, voucher: u64) -> u128
        ensures value { result ≡ redeemed voucher (now self.now).lists
            + held (now self.now).moment voucher (now self.now).lists }
        ensures few { result ≤ 17179869184 }
    {
        self.overlay.recall_invariant();
        let before = self.overlay.uses_before(voucher, self.moment);
        let since = self.tallies.uses().of(voucher);
        let come = u128::from(since.come.used) + u128::from(since.come.held);
        let gone = u128::from(since.gone.used) + u128::from(since.gone.held);
        (u128::from(before) + come).saturating_sub(gone)
    }

    /// What is spent of the voucher's budget, in cents: the discounts of the positions of pending and paid orders that name it.
    pub fn spent(&self, voucher: u64) -> u128
        ensures value { result ≡ spent voucher (now self.now).lists }
        ensures few { result ≤ 61396417029414584319 }
    {
        let before = self.overlay.spent_before(voucher);
        let since = self.tallies.uses().of(voucher);
        let come = u128::from(since.come.spent);
        let gone = u128::from(since.gone.spent);
        (before + come).saturating_sub(gone)
    }

    /// All that is used of a quota that stands.
    #[tactic(auto, unfolding(crate::specs::Used::places_used))]
    pub fn used(&self, quota: &Quota) -> u128
        requires { quota_at quota.now.id (now self.now).lists.catalogue ≡ Some quota.now }
        ensures { result ≡ total (usage_of (now self.now).lists (now self.now).moment quota.now) }
    {
        self.overlay.recall_invariant();
        self.weighing(&self.mark(), &[]).used(quota)
    }

    /// How many entries wait for a place of a quota that stands, in a draft that has changed no waiting entry.
    #[tactic(auto, unfolding(model_rows::specs::Usage::usage_of))]
    pub fn waiting_for(&self, quota: &Quota) -> u64
        requires waiting { (now self.now).lists.waiting ≡ self.now.log.base.waiting }
        requires stands { quota_at quota.now.id (now self.now).lists.catalogue ≡ Some quota.now }
        ensures { result ≡ count_by (waits_for quota.now) (now self.now).lists.waiting }
    {
        self.overlay.recall_invariant();
        usage_of(self.book, quota, self.moment).waiting
    }

    /// Whether one more cart position may name the voucher.
    pub fn has_use(&self, voucher: Option<u64>) -> bool
        ensures { result ≡ has_use (now self.now).moment (now self.now).lists voucher }
    {
        let Some(id) = voucher else {
            return true;
        };
        match self.overlay.voucher(id) {
            None => true,
            Some(row) => self.uses(row.id) < u128::from(row.max_usages.get()),
        }
    }

    /// Puts a voucher in the place of its id. It isn't used more often than it may be.
    /// `Err` where there is no memory or 2^32 changes stand; the draft is then as it was.
    pub fn put_voucher(&mut self, alloc: Global, row: Voucher) -> Result<(), AllocError>
        requires { HasHeadroom (now self.old).moment (now self.old).lists row }
        ensures { Makes (Change.PutVoucher row) self.old self.new result }
    {
        self.recall_invariant();
        self.change(alloc, Change::PutVoucher(row))
    }

    /// Removes the voucher of an id.
    /// `Err` where there is no memory or 2^32 changes stand; the draft is then as it was.
    pub fn drop_voucher(&mut self, alloc: Global, id: u64) -> Result<(), AllocError>
        ensures { Makes (Change.DropVoucher id) self.old self.new result }
    {
        self.recall_invariant();
        self.change(alloc, Change::DropVoucher(id))
    }

    /// Puts a cart position in the place of its id. It is dead, or its voucher, if it names one, has a use left.
    /// `Err` where there is no memory or 2^32 changes stand; the draft is then as it was.
    #[tactic(auto, using(crate::proofs::CanCome::can_put_cart))]
    pub fn put_cart(&mut self, alloc: Global, row: CartPos) -> Result<(), AllocError>
        requires { (not (is_live_cart (now self.old).moment row)
            || has_use (now self.old).moment (now self.old).lists row.voucher) ≡ true }
        ensures { Makes (Change.PutCart row) self.old self.new result }
    {
        self.recall_invariant();
        self.change(alloc, Change::PutCart(row))
    }

    /// Removes the cart position of an id.
    /// `Err` where there is no memory or 2^32 changes stand; the draft is then as it was.
    pub fn drop_cart(&mut self, alloc: Global, id: u64) -> Result<(), AllocError>
        ensures { Makes (Change.DropCart id) self.old self.new result }
    {
        self.recall_invariant();
        self.change(alloc, Change::DropCart(id))
    }

    /// Puts a waiting entry in the place of its id.
    /// `Err` where there is no memory or 2^32 changes stand; the draft is then as it was.
    #[tactic(auto, using(crate::proofs::CanCome::can_put_waiting))]
    pub fn put_waiting(&mut self, alloc: Global, row: Waiting) -> Result<(), AllocError>
        ensures { Makes (Change.PutWaiting row) self.old self.new result }
    {
        self.recall_invariant();
        self.change(alloc, Change::PutWaiting(row))
    }

    /// Removes the waiting entry of an id.
    /// `Err` where there is no memory or 2^32 changes stand; the draft is then as it was.
    #[tactic(auto, using(crate::proofs::CanCome::can_drop_waiting))]
    pub fn drop_waiting(&mut self, alloc: Global, id: u64) -> Result<(), AllocError>
        ensures { Makes (Change.DropWaiting id) self.old self.new result }
    {
        self.recall_invariant();
        self.change(alloc, Change::DropWaiting(id))
    }

    /// Puts a check-in list in the place of its id.
    /// `Err` where there is no memory or 2^32 changes stand; the draft is then as it was.
    #[tactic(auto, using(crate::proofs::CanCome::can_put_checkin_list))]
    pub fn put_checkin_list(&mut self, alloc: Global, row: CheckinList) -> Result<(), AllocError>
        ensures { Makes (Change.PutCheckinList row) self.old self.new result }
    {
        self.recall_invariant();
        self.change(alloc, Change::PutCheckinList(row))
    }

    /// Puts a new check-in.
    /// `Err` where there is no memory or 2^32 changes stand; the draft is then as it was.
    #[tactic(auto, using(crate::proofs::CanCome::can_put_checkin))]
    pub fn put_checkin(&mut self, alloc: Global, row: Checkin) -> Result<(), AllocError>
        requires new { checkin_at row.id (now self.old).lists ≡ None }
        ensures { Makes (Change.PutCheckin row) self.old self.new result }
    {
        self.recall_invariant();
        self.change(alloc, Change::PutCheckin(row))
    }

    /// Puts an order in the place of its id: a new one, or one whose status changed.
    /// No voucher may be used too often after it.
    /// `Err` where there is no memory or 2^32 changes stand; the draft is then as it was.
    #[tactic(auto, using(crate::proofs::CanCome::can_put_order))]
    pub fn put_order(&mut self, alloc: Global, row: Order) -> Result<(), AllocError>
        requires { AllHaveHeadroom (now self.old).moment
            (change_applied (Change.PutOrder row) (now self.old)).lists }
        ensures { Makes (Change.PutOrder row) self.old self.new result }
    {
        self.recall_invariant();
        self.change(alloc, Change::PutOrder(row))
    }

    /// Puts a new order position.
    /// No voucher may be used too often after it.
    /// `Err` where there is no memory or 2^32 changes stand; the draft is then as it was.
    #[tactic(auto, using(crate::proofs::CanCome::can_put_position))]
    pub fn put_position(&mut self, alloc: Global, row: OrderPos) -> Result<(), AllocError>
        requires new { position_at row.id (now self.old).lists ≡ None }
        requires headroom { AllHaveHeadroom (now self.old).moment
            (change_applied (Change.PutPosition row) (now self.old)).lists }
        ensures { Makes (Change.PutPosition row) self.old self.new result }
    {
        self.recall_invariant();
        self.change(alloc, Change::PutPosition(row))
    }

    // Makes one change, with what it does to all that is counted. It costs what it touches.
    fn change(&mut self, alloc: Global, change: Change) -> Result<(), AllocError>
        requires { CanCome self.old.moment self.old.log change }
        ensures ok { OnOk result (now self.new ≡ change_applied change (now self.old)) }
        ensures extends { Extends self.old self.new }
        ensures err { OnErr result (self.new ≡ self.old) }
        ensures log { OnOk result (self.new ≡ with_change change self.old) }
    {
        self.overlay.recall_invariant();
        let count = self.overlay.len();
        let mark = self.tallies.counts().len();
        let catalogue = self.book.catalogue();
        note_voucher(&mut self.noted, &change)?;
        self.tallies
            .count(&self.overlay, alloc, self.moment, catalogue, &change)?;
        if self.overlay.push(change).is_err() {
            self.tallies.truncate(count);
            return Err(AllocError);
        }
        // What a draft's only change touches is asked for once, or not at all.
        let counts = self.tallies.counts();
        ask_bases(
            self.book,
            self.moment,
            self.again,
            counts,
            mark,
            &mut self.bases,
        );
        self.again = true;
        Ok(())
    }

    /// The place where the draft is now.
    pub fn mark(&self) -> Mark
        ensures place { IsMarkOf self.now result }
        ensures here { back result self.now ≡ self.now }
    {
        Mark {
            count: self.overlay.len(),
            next: self.next,
        }
    }

    /// The least quota of which the changes since the mark take too much. It costs what they touched.
    /// The own rows are those that the request adds or revives: they don't weigh where their vouchers ignore quotas.
    pub fn first_over(&self, mark: &Mark, own: &[Own]) -> Option<u64>
        requires { IsMarkOf self.now mark.now }
        ensures { result ≡ first_over (now (back mark.now self.now)).lists (now self.now).lists
            (now self.now).moment own.now }
    {
        self.weighing(mark, own).first_over()
    }

    // What it uses of each quota, now and at the mark, for a request with these rows of its own.
    fn weighing<'w>(&'w self, mark: &Mark, own: &'w [Own]) -> Weighing<'w, 'a, B>
        requires { IsMarkOf self.now mark.now }
        ensures overlay { result.overlay.now ≡ self.now.log }
        ensures at { result.at ≡ self.now.moment }
        ensures own { result.own.now ≡ own.now }
        ensures count { result.count ≡ mark.now.count }
    {
        Weighing {
            book: self.book,
            overlay: &self.overlay,
            at: self.moment,
            own,
            quotas: self.book.catalogue().quotas(),
            bases: &self.bases,
            counts: self.tallies.counts(),
            count: mark.count,
            mark: self.tallies.reach_at(mark.count).counts,
        }
    }

    /// Ends an attempt that began at the mark: what was made stays, and where it was refused all since then is undone.
    pub fn end_attempt<T, E>(&mut self, mark: Mark, made: Result<T, E>) -> Result<T, E>
        requires { IsMarkOf self.old mark }
        ensures answer { result ≡ made }
        ensures kept { OnOk result (self.new ≡ self.old) }
        ensures undone { OnErr result (self.new ≡ back mark self.old) }
    {
        if made.is_err() {
            self.back_to(mark);
        }
        made
    }

    /// Undoes all that came after the mark. It takes no memory.
    pub fn back_to(&mut self, mark: Mark)
        requires { IsMarkOf self.old mark }
        ensures { self.new ≡ back mark self.old }
    {
        self.overlay.truncate(mark.count);
        self.tallies.truncate(mark.count);
        self.next = mark.next;
    }

    /// The changes, with the next ids that stand afterwards, and with what they shift of the counts. `Err` where there is no
    /// memory to tell that.
    pub fn finish(self, alloc: Global) -> Result<Drafted, AllocError>
        ensures list { IfOk result (λ d. d.changes.list ≡ self.entry.log.changes) }
        ensures next { IfOk result (λ d. d.changes.next ≡ self.entry.next) }
        ensures deltas { IfOk result (λ d. AreCountDeltas self.entry.log.base
            (rows_of self.entry.log) self.entry.moment d.deltas) }
    {
        let Draft {
            book,
            overlay,
            next,
            moment,
            tallies,
            bases: _,
            noted,
            again: _,
        } = self;
        match shifts_of(book, &overlay, alloc, moment, &tallies, &noted) {
            Err(refused) => Err(refused),
            Ok(deltas) => Ok(Drafted {
                changes: Changes::new(overlay.into_log(), next),
                deltas,
            }),
        }
    }
}
