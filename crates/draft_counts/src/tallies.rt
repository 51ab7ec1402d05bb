//! What is counted beside a log of changes: what came and went of each quota, the uses of vouchers, and the numbers of cart
//! positions and of vouchers.

ghost use Rattle.std.specs.Prelude.{◌≡◌, [], length, OnOk, OnErr};
ghost use Rattle.model_rows.specs.Change.{after_change};
ghost use Rattle.draft_overlay.specs.Logs.{rows_of, IsSale};
ghost use Rattle.draft_counts.specs.CountDelta.{AreTurned};
ghost use Rattle.draft_counts.specs.Tallied.{CountsChange, CountsUses, IsNext, reach_now, reach_at, tallied_at};

use crate::count_base::CountBase;
use crate::numbers::{carts_after, vouchers_after};
use crate::orders::turned_purchases;
use crate::shift::count_change;
use crate::uses::count_uses;
use base_values::Moment;
use book_tally::{Tally, Uses};
use book_usage::{Book, Catalogue};
use draft_overlay::{Overlay, Purchase};
use model_rows::{Change, Usage};
use std::alloc::{AllocError, Global};
use std::marker::Model;

/// How many cart positions and vouchers there are at one place of a log.
#[derive(Clone, Copy)]
pub struct RowCounts {
    pub carts: usize,
    pub vouchers: usize,
}

/// How far the counts reach at one place of a log: the lengths of both journals, and what stands there.
#[derive(Clone, Copy)]
pub struct JournalMark {
    pub counts: usize,
    pub uses: usize,
    pub here: RowCounts,
}

/// The counts by quota and the uses of vouchers, now and before each change.
#[derive(Drop)]
pub struct Tallies {
    counts: Tally<Usage>,
    uses: Tally<Uses>,
    here: RowCounts,
    reached: Vec<JournalMark>,
}

impl Model for Tallies {
    ghost use Rattle.draft_counts.specs.Tallied.{Tallied};

    ghost Value = { Tallied };

    ghost view = { λ t.
        record { counts = t.counts; uses = t.uses; here = t.here; reached = t.reached.items } };
}

impl Tallies {
    /// Nothing has changed, where so many cart positions and vouchers stand.
    pub fn new(alloc: Global, carts: usize, vouchers: usize) -> Self
        ensures { result ≡ record {
          counts = [];
          uses = [];
          here = record { carts = carts; vouchers = vouchers };
          reached = [];
        } }
    {
        Tallies {
            counts: Tally::new(alloc),
            uses: Tally::new(alloc),
            here: RowCounts { carts, vouchers },
            reached: Vec::new(alloc),
        }
    }

    /// The counts by quota, each by its place among all quotas.
    pub fn counts(&self) -> &Tally<Usage>
        ensures { result.now ≡ self.now.counts }
    {
        &self.counts
    }

    /// What stands now.
    pub fn here(&self) -> RowCounts
        ensures { result ≡ self.now.here }
    {
        self.here
    }

    /// The counts of the uses of vouchers, by their ids.
    pub fn uses(&self) -> &Tally<Uses>
        ensures { result.now ≡ self.now.uses }
    {
        &self.uses
    }

    // How far the counts reach now.
    fn reach_now(&self) -> JournalMark
        ensures { result ≡ reach_now self.now }
    {
        JournalMark {
            counts: self.counts.len(),
            uses: self.uses.len(),
            here: self.here,
        }
    }

    /// How far the counts reached after so many changes.
    pub fn reach_at(&self, count: usize) -> JournalMark
        ensures { result ≡ reach_at count self.now }
    {
        match self.reached.get(count) {
            None => self.reach_now(),
            Some(reach) => *reach,
        }
    }

    /// Counts one more change of the rows that the overlay has. Where there is no memory for it, all is as it was.
    pub fn count<B: Book>(
        &mut self,
        overlay: &Overlay<'_, B>,
        alloc: Global,
        at: Moment,
        catalogue: &Catalogue,
        change: &Change,
    ) -> Result<(), AllocError>
        requires sale { IsSale change.now (rows_of overlay.now) }
        requires carts { self.old.here.carts ≡ length (rows_of overlay.now).carts }
        requires vouchers { self.old.here.vouchers ≡ length (rows_of overlay.now).vouchers }
        ensures ok { OnOk result (IsNext at change.now (rows_of overlay.now)
            catalogue.now.lists.quotas self.old self.new) }
        ensures err { OnErr result (self.new ≡ self.old) }
    {
        let here = self.here;
        let reach = self.reach_now();
        let purchases = turned_purchases(overlay, alloc, change)?;
        let carts = carts_after(overlay, here.carts, change);
        let vouchers = vouchers_after(overlay, here.vouchers, change);
        self.reached.reserve(1)?;
        let count_base = CountBase {
            overlay,
            alloc,
            at,
            catalogue,
        };
        count_both(
            &count_base,
            &mut self.counts,
            &mut self.uses,
            change,
            &purchases,
        )?;
        self.reached.push(reach)?;
        self.here = RowCounts { carts, vouchers };
        Ok(())
    }

    /// Undoes the counts of all but the first changes. It takes no memory.
    pub fn truncate(&mut self, count: usize)
        ensures { self.new ≡ tallied_at count self.old }
    {
        let reach = self.reach_at(count);
        self.counts.truncate(reach.counts);
        self.uses.truncate(reach.uses);
        self.reached.truncate(count);
        self.here = reach.here;
    }
}

// Counts what a change brings to the quotas and takes from them, and the uses of vouchers that come and go with it.
fn count_both<B: Book>(
    count_base: &CountBase<'_, '_, B>,
    counts: &mut Tally<Usage>,
    uses: &mut Tally<Uses>,
    change: &Change,
    purchases: &[Purchase],
) -> Result<(), AllocError>
    requires sale { IsSale change.now (rows_of count_base.now.overlay.now) }
    requires turned { AreTurned change.now (rows_of count_base.now.overlay.now) purchases.now }
    ensures more { OnOk result (CountsChange change.now count_base.now.overlay.now count_base.now.at
        count_base.now.catalogue.now counts.old counts.new) }
    ensures uses { OnOk result
        (CountsUses change.now count_base.now.overlay.now count_base.now.at uses.old uses.new) }
    ensures err { OnErr result (counts.new ≡ counts.old) }
    ensures err_uses { OnErr result (uses.new ≡ uses.old) }
{
    let start = counts.len();
    count_change(count_base, counts, change, purchases)?;
    if count_uses(count_base, uses, change, purchases).is_err() {
        counts.truncate(start);
        return Err(AllocError);
    }
    Ok(())
}
