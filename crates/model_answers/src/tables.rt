//! Where a shop keeps its rows and its answers.

ghost use Rattle.std.specs.Prelude.{◌≡◌, ◌⊎◌, ℕ, List, IfOk, OnOk, OnErr, IsPermutation};
ghost use Rattle.model_rows.specs.Lists.{State};
ghost use Rattle.model_answers.specs.declared.kept.Kept.{Kept};
ghost use Rattle.model_answers.specs.House.{House};
ghost use Rattle.model_answers.specs.KeptAnswers.{AreOneForEachKey, told_by};
ghost use Rattle.model_answers.specs.ShopView.{ShopView, IsSame};
ghost use Rattle.model_answers.specs.CallsLeave.{OfItsHouse, KnowsStill, OfItsRows, HoldsStill, MayLeaveNoMore, OfCommitted};

use crate::kept::Kept;
use base_values::{Moment, Response};
use model_rows::{Changes, CountRows};
use std::alloc::Global;

/// Why the tables refuse.
#[derive(Clone, Copy, PartialEq, Eq)]
pub enum TablesError {
    /// 6: a growth was refused.
    Memory,
    /// 63: a call of the store was refused.
    Store,
}

/// Tables that hold the rows of an office and the answers that are kept, and know their house: its names and its tokens. What they
/// promise they promise of all rows, answers and houses that they hold, where the store has returned what was written.
pub trait Tables {
    /// Until now the store has returned what was written.
    ghost sure: { Self → Type 0 };

    /// The tables hold these rows and these answers, the answers in some order.
    ghost holds: { Self → State → List Kept → Type 0 };

    /// The tables know this house, and so do any that are opened after a crash: no call of these changes a name, a token or the
    /// number that the next one gets.
    ghost knows: { Self → House → Type 0 };

    /// Tables that are opened after a crash may hold these.
    ghost may_leave: { Self → ShopView → Type 0 };

    /// In which order the answers are listed doesn't matter.
    ghost reorders: { (t : Self) (s : State) (ks js : List Kept) → holds t s ks → IsPermutation ks js → holds t s js };

    /// The number of the token with this SHA-256 digest, if it is known.
    fn token_of(&mut self, digest: &[u8; 32]) -> Result<Option<u64>, TablesError>
        ensures sure { sure self.new → sure self.old }
        ensures found { OfItsHouse sure knows self.old self.new
            (λ house. IfOk result (λ number. number ≡ house.tokens digest.now)) }
        ensures same { HoldsStill sure holds self.old self.new }
        ensures house { KnowsStill sure knows self.old self.new }
        ensures crash { MayLeaveNoMore may_leave self.old self.new };

    /// What was told under a key of a token that is still kept at a moment.
    fn find_kept(
        &mut self,
        alloc: Global,
        token: u64,
        key: &[u8],
        at: Moment,
    ) -> Result<Option<Response>, TablesError>
        ensures sure { sure self.new → sure self.old }
        ensures found { OfItsRows sure holds self.old self.new (λ s ks. AreOneForEachKey ks
            → IfOk result (λ response. response ≡ told_by token key.now at ks)) }
        ensures same { HoldsStill sure holds self.old self.new }
        ensures house { KnowsStill sure knows self.old self.new }
        ensures crash { MayLeaveNoMore may_leave self.old self.new };

    /// Makes these changes at a moment, with the counts that they change, and keeps this answer, all of it or nothing; what is
    /// past goes.
    fn commit(
        &mut self,
        changes: &Changes,
        counts: &CountRows,
        at: Moment,
        kept: Option<&Kept>,
    ) -> Result<(), TablesError>
        ensures sure { sure self.new → sure self.old }
        ensures all { sure self.new
            → OfCommitted holds self.old changes.now counts.now at kept.entry
            (λ v. OnOk result (holds self.new v.state v.kept)) }
        ensures none { OfItsRows sure holds self.old self.new
            (λ s ks. OnErr result (holds self.new s ks)) }
        ensures house { KnowsStill sure knows self.old self.new }
        ensures crash { (left : ShopView) → may_leave self.new left → may_leave self.old left
            ⊎ OfCommitted holds self.old changes.now counts.now at kept.entry (IsSame left) }
        ensures settled { sure self.new → OnOk result ((left : ShopView) → may_leave self.new left
            → OfCommitted holds self.old changes.now counts.now at kept.entry (IsSame left)) };
}
