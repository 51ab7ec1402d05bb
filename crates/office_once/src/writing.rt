//! Writes, each carried out once.

ghost use Rattle.std.specs.Prelude.{◌≡◌, ◌≤◌, None, IfOk, OnOk, OnErr, true};
ghost use Rattle.base_values.specs.declared.answer.Answer.TheVariants.{Unavailable};
ghost use Rattle.model_answers.specs.CallsLeave.{KnowsStill};
ghost use Rattle.model_answers.specs.KeptAnswers.{told_by};
ghost use Rattle.model_answers.specs.ShopView.{ShopView, IsSame, kept_listed, own_row};
ghost use Rattle.office_deliveries.specs.Deliveries.{is_write};
ghost use Rattle.office_deliveries.specs.Shops.{Views, IsAnswered, IsDecided, arrival_served, executed_at};
ghost use Rattle.office_once.specs.CallsLeave.{OfItsShop, MayLeaveMade, LeavesServed, StandsWith, RunsOn, OnlyAsks, Writes};

use crate::shop::Shop;
use base_values::{Answer, Moment, Response};
use book_usage::Dues;
use model_answers::{Kept, Tables, TablesError};
use office_deliveries::{Arrival, Wording};
use std::alloc::Global;

impl<T: Tables, B: Dues, W: Wording> Shop<T, B, W> {
    // Carries a write out: decides, words, counts, takes memory, commits with the answer to keep, settles.
    fn execute(
        &mut self,
        alloc: Global,
        at: Moment,
        arrival: Arrival,
    ) -> Result<Response, TablesError>
        requires write { is_write arrival.request ≡ true }
        requires later { self.old.state.moment ≤ at }
        ensures wording { self.new.wording ≡ self.old.wording }
        ensures office { OnErr result (self.new.state ≡ self.old.state) }
        ensures sure { T.sure self.new.tables → T.sure self.old.tables }
        ensures house { KnowsStill T.sure T.knows self.old.tables self.new.tables }
        ensures done { OfItsShop T.sure T.holds self.old self.new
            (λ v. (told_by arrival.token arrival.key at v.kept ≡ None) → IfOk result (λ told.
            let made = executed_at (W.words self.old.wording) arrival at v in
            Views T.holds self.new.tables self.new.state made.0 × (told ≡ made.1))) }
        ensures none { OfItsShop T.sure T.holds self.old self.new
            (λ v. OnErr result (Views T.holds self.new.tables self.new.state v)) }
        ensures crash { MayLeaveMade T.holds T.may_leave self.old self.new
            (λ v. (executed_at (W.words self.old.wording) arrival at v).0) }
        ensures settled { T.sure self.new.tables → OnOk result ((left : ShopView)
            → T.may_leave self.new.tables left
            → (v : ShopView) → Views T.holds self.old.tables self.old.state v
            → IsSame left (executed_at (W.words self.old.wording) arrival at v).0) }
    {
        let Arrival {
            draw,
            token,
            key,
            request,
            ..
        } = arrival;
        let Ok((changes, counts, response)) = self.counted(alloc, at, draw, request) else {
            return Err(TablesError::Memory);
        };
        let Ok(()) = self.office.reserve(&changes) else {
            return Err(TablesError::Memory);
        };
        let kept = Kept {
            token,
            key,
            at,
            response,
        };
        self.tables.commit(&changes, &counts, at, to_keep(&kept))?;
        self.office.settle(changes, &counts, at);
        Ok(kept.response)
    }

    // What was told under the arrival's key, if it has one.
    fn held(
        &mut self,
        alloc: Global,
        arrival: &Arrival,
        at: Moment,
    ) -> Result<Option<Response>, TablesError>
        ensures { OnlyAsks T.sure T.knows T.holds T.may_leave self.old self.new
            (OfItsShop T.sure T.holds self.old self.new (λ v. IfOk result (λ told.
            told ≡ told_by arrival.now.token arrival.now.key at v.kept))) }
    {
        if arrival.key.is_empty() {
            return Ok(None);
        }
        self.tables
            .find_kept(alloc, arrival.token, arrival.key.as_slice(), at)
    }

    // Does a write, by the answer that is kept for its key.
    fn write(&mut self, alloc: Global, arrival: Arrival) -> Answer
        requires { is_write arrival.request ≡ true }
        ensures { Writes T.sure T.knows T.holds T.may_leave (W.words self.old.wording)
            arrival result self.old self.new }
    {
        let at = self.moment_at(arrival.clock);
        // Where it isn't carried out it is let go by name, as a whole: part by part is a way of the proof for each of its requests.
        match self.held(alloc, &arrival, at) {
            Ok(Some(response)) => {
                drop(arrival);
                Answer::Decided(response)
            }
            Ok(None) => match self.execute(alloc, at, arrival) {
                Ok(response) => Answer::Decided(response),
                Err(_) => Answer::Unavailable,
            },
            Err(_) => {
                drop(arrival);
                Answer::Unavailable
            }
        }
    }

    /// Does a write: one whose key is still kept for its token is told again what its first one was told, whatever it asks; any
    /// other is carried out at its moment, and its answer is kept with its changes, a refusal too. Where it is answered 503,
    /// nothing has changed: of the office that holds whatever the store did. After a crash the write was carried out whole or not at all,
    /// and whole where it was answered; what it leaves then is sound.
    pub fn act(&mut self, alloc: Global, arrival: Arrival) -> Answer
        requires { is_write arrival.request ≡ true }
        ensures wording { self.new.wording ≡ self.old.wording }
        ensures office { result ≡ Unavailable → self.new.state ≡ self.old.state }
        ensures sure { T.sure self.new.tables → T.sure self.old.tables }
        ensures house { KnowsStill T.sure T.knows self.old.tables self.new.tables }
        ensures answered { OfItsShop T.sure T.holds self.old self.new
            (λ v. IsAnswered (W.words self.old.wording) arrival v result
            (λ w. Views T.holds self.new.tables self.new.state w)) }
        ensures stands { T.sure self.new.tables
            → StandsWith (W.words self.old.wording) T.holds arrival result self.old self.new }
        ensures running { T.sure self.new.tables → RunsOn (W.words self.old.wording)
            T.holds T.may_leave arrival result self.old self.new }
        ensures crash { T.sure self.new.tables → MayLeaveMade T.holds T.may_leave self.old self.new
            (λ v. (arrival_served (W.words self.old.wording) arrival v).0) }
        ensures settled { T.sure self.new.tables → IsDecided result (LeavesServed
            (W.words self.old.wording) T.holds T.may_leave arrival self.old self.new) }
    {
        let answer = self.write(alloc, arrival);
        self.recall_invariant();
        answer
    }
}

// An answer, if it is under a key.
fn to_keep(kept: &Kept) -> Option<&Kept>
    ensures { kept_listed result ≡ own_row kept.now }
{
    if kept.key.is_empty() {
        None
    } else {
        Some(kept)
    }
}
