//! What a change brings to each quota and takes from it, counted by the quota's place.

ghost use Rattle.std.specs.Prelude.{◌≡◌, ℕ, ◌==◌, true, OnOk, OnErr, if◌then◌else◌};
ghost use Rattle.base_tables.specs.Tables.{AreInOrder};
ghost use Rattle.model_catalogue.specs.declared.rows.Quota.{Quota};
ghost use Rattle.model_rows.specs.declared.rows.Usage.{Usage};
ghost use Rattle.draft_counts.specs.Counts.{IsMore};
ghost use Rattle.book_tally.specs.Amounts.{nothing, plus};
ghost use Rattle.book_tally.specs.Counts.{came, went, GoesOn};
ghost use Rattle.draft_counts.specs.Touched.{NoneElse, Keeps, among, at_id};

use base_tables::{Ids, place_of};
use book_tally::{Amount, Tally};
use book_usage::Catalogue;
use model_catalogue::Quota;
use model_rows::Usage;
use std::alloc::{AllocError, Global};

/// How much comes to each count of a quota, and how much goes.
#[derive(Clone, Copy)]
pub struct Shares {
    pub come: Usage,
    pub gone: Usage,
}

/// What a change brings to each quota and takes from it.
pub trait Share {
    /// How much comes to a quota.
    ghost come: { Self → Quota → Usage };

    /// How much goes.
    ghost gone: { Self → Quota → Usage };

    /// Both of them.
    fn shares(&self, quota: &Quota) -> Shares
        ensures come { result.come ≡ come self.now quota.now }
        ensures gone { result.gone ≡ gone self.now quota.now };

    /// Adds the ids of the quotas that it may touch: to no other one does anything come, and from none does anything go.
    fn touch(
        &self,
        alloc: Global,
        catalogue: &Catalogue,
        ids: &mut Vec<u64>,
    ) -> Result<(), AllocError>
        ensures come { OnOk result
            (NoneElse nothing ids.new.items catalogue.now.lists (come self.now)) }
        ensures gone { OnOk result
            (NoneElse nothing ids.new.items catalogue.now.lists (gone self.now)) };
}

/// Adds what a change brings to the quotas and takes from them to the counts by their places. Where there is no memory
/// for it, they are as they were.
pub fn count_each<S: Share>(
    counts: &mut Tally<Usage>,
    alloc: Global,
    catalogue: &Catalogue,
    share: &S,
) -> Result<(), AllocError>
    ensures more { OnOk result (IsMore (S.come share.now) (S.gone share.now)
        catalogue.now.lists.quotas counts.old counts.new) }
    ensures err { OnErr result (counts.new ≡ counts.old) }
{
    let mut ids = Vec::new(alloc);
    share.touch(alloc, catalogue, &mut ids)?;
    let ids = Ids::sorted(ids);
    catalogue.recall_invariant();
    count_touched(counts, catalogue.quotas(), ids.as_slice(), share)
}

// Adds what it brings to the quotas of these ids and takes from them.
fn count_touched<S: Share>(
    counts: &mut Tally<Usage>,
    quotas: &[Quota],
    ids: &[u64],
    share: &S,
) -> Result<(), AllocError>
    requires quotas { AreInOrder (λ r. r.id) quotas.now }
    requires ids { AreInOrder (λ n. n) ids.now }
    ensures more { OnOk result (IsMore
        (among ids.now (S.come share.now)) (among ids.now (S.gone share.now))
        quotas.now counts.old counts.new) }
    ensures err { OnErr result (counts.new ≡ counts.old) }
{
    let start = counts.len();
    for i in 0..ids.len() {
        if count_id(counts, quotas, ids[i], share).is_err() {
            counts.truncate(start);
            return Err(AllocError);
        }
    }
    Ok(())
}

// Adds what it brings to the quota of an id and takes from it, where it stands.
fn count_id<S: Share>(
    counts: &mut Tally<Usage>,
    quotas: &[Quota],
    id: u64,
    share: &S,
) -> Result<(), AllocError>
    requires quotas { AreInOrder (λ r. r.id) quotas.now }
    ensures more { OnOk result (IsMore
        (at_id id (S.come share.now)) (at_id id (S.gone share.now))
        quotas.now counts.old counts.new) }
    ensures err { OnErr result (counts.new ≡ counts.old) }
{
    match place_of(quotas, id) {
        Ok(place) => count_one(counts, place as u64, share.shares(&quotas[place])),
        Err(_) => Ok(()),
    }
}

// Adds what comes and goes at one place, if it is anything.
fn count_one(counts: &mut Tally<Usage>, place: u64, shares: Shares) -> Result<(), AllocError>
    ensures comes { OnOk result ((key : ℕ) → came nothing key counts.new
        ≡ plus (came nothing key counts.old) (if place == key then shares.come else nothing)) }
    ensures goes { OnOk result ((key : ℕ) → went nothing key counts.new
        ≡ plus (went nothing key counts.old) (if place == key then shares.gone else nothing)) }
    ensures on { OnOk result (GoesOn counts.old counts.new) }
    ensures err { OnErr result (counts.new ≡ counts.old) }
{
    if is_nothing(shares.come) && is_nothing(shares.gone) {
        return Ok(());
    }
    counts.add(place, shares.come, shares.gone)
}

// Whether it is none of each count.
fn is_nothing(usage: Usage) -> bool
    ensures { result ≡ true → usage ≡ nothing }
{
    usage == Usage::none()
}
