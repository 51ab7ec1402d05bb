//! Members are removed with those of their quota or check-in list.

ghost use Rattle.std.specs.Prelude.{◌≡◌, ◌∷◌, refl};
ghost use Rattle.file_rows.specs.Changes.{ChangesFit};
ghost use Rattle.file_rows.specs.Tables.{Tables};
ghost use Rattle.file_rows.specs.Written.{WritesInside};
ghost use Rattle.file_writes.specs.Removed.{AreApart, IsDeleteByOwner, of_others};

use crate::bound::run_bound;
use crate::stored::Stored;
use file_rows::{Column, ListItem, Member, QuotaItem, QuotaVariation};
use file_schema::RowError;
use sqlite::{Alter, Transaction};

/// Members that are removed with all others of their owner.
pub trait RemoveByOwner: Stored + Member {
    /// The DELETE of an owner's members.
    fn delete_by_owner() -> &'static str
        ensures { IsDeleteByOwner result.now Self.as_row Self.number_of
            Self.owner_of Self.rows Self.with_rows };

    ghost adds: { (w : Self) (t : Tables) → Self.with_row w t ≡ Self.with_rows (w ∷ Self.rows t) t };
}

impl RemoveByOwner for QuotaItem {
    #[tactic(auto, using(crate::proofs::QuotaItemsLemmas::by_owner_is))]
    fn delete_by_owner() -> &'static str {
        "DELETE FROM quota_items WHERE quota_id = ?1"
    }

    ghost adds = { λ w t. refl };
}

impl RemoveByOwner for QuotaVariation {
    #[tactic(auto, using(crate::proofs::QuotaVariationsLemmas::by_owner_is))]
    fn delete_by_owner() -> &'static str {
        "DELETE FROM quota_variations WHERE quota_id = ?1"
    }

    ghost adds = { λ w t. refl };
}

impl RemoveByOwner for ListItem {
    #[tactic(auto, using(crate::proofs::ListItemsLemmas::by_owner_is))]
    fn delete_by_owner() -> &'static str {
        "DELETE FROM list_items WHERE list_id = ?1"
    }

    ghost adds = { λ w t. refl };
}

/// Removes the members of an owner. Refusals: 6, 60 where the file has no such table, 63.
pub fn remove_members<S: Alter, T: RemoveByOwner>(
    tx: &mut Transaction<'_, S>,
    owner: u64,
) -> Result<(), RowError>
    ensures { WritesInside S.Store tx.old tx.new
        (ChangesFit (λ t. AreApart T.number_of (T.rows t))
        (λ t. T.with_rows (of_others T.owner_of owner (T.rows t)) t)) result }
{
    run_bound(tx, T::delete_by_owner(), &[owner.bind()])?;
    Ok(())
}
