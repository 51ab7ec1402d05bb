//! Why a call on the catalogue is refused.

ghost use Rattle.std.specs.Prelude.{◌≡◌};
ghost use Rattle.model_catalogue.specs.Refusals.{number_of_refusal};
ghost use Rattle.model_catalogue.specs.declared.refusal.CatalogueRefusal.TheVariants.{Memory};

use std::alloc::AllocError;
use thiserror::Error;

/// Why a call on the catalogue is refused.
#[derive(Clone, Copy, Debug, PartialEq, Eq, Error)]
pub enum CatalogueRefusal {
    /// 6: there is no memory.
    #[error("out of memory")]
    Memory,
    /// 10: no item has the id.
    #[error("item not found")]
    NoItem,
    /// 11: no variation has the id, or it is of another item than the one that is named beside it.
    #[error("variation not found")]
    NoVariation,
    /// 12: the item is sold by variations.
    #[error("variation needed")]
    NeedsVariation,
    /// 13: no quota has the id.
    #[error("quota not found")]
    NoQuota,
    /// 14: a variation without its item, or an item that is sold by variations without one of them.
    #[error("wrong members")]
    BadMember,
    /// 15: the item or the variation isn't active.
    #[error("not active")]
    Inactive,
    /// 16: the table has all the rows or ids that it may have.
    #[error("the table is full")]
    Full,
    /// 17: the item was made without variations, and so has none.
    #[error("item has no variations")]
    Plain,
    /// 18: the product is in no quota.
    #[error("in no quota")]
    NotSold,
}

impl From<AllocError> for CatalogueRefusal {
    ghost from_gives = { λ _ e. e ≡ Memory };

    fn from(_e: AllocError) -> CatalogueRefusal {
        CatalogueRefusal::Memory
    }
}

impl CatalogueRefusal {
    /// The refusal's number.
    pub fn number(self) -> u8
        ensures { result ≡ number_of_refusal self }
    {
        match self {
            CatalogueRefusal::Memory => 6,
            CatalogueRefusal::NoItem => 10,
            CatalogueRefusal::NoVariation => 11,
            CatalogueRefusal::NeedsVariation => 12,
            CatalogueRefusal::NoQuota => 13,
            CatalogueRefusal::BadMember => 14,
            CatalogueRefusal::Inactive => 15,
            CatalogueRefusal::Full => 16,
            CatalogueRefusal::Plain => 17,
            CatalogueRefusal::NotSold => 18,
        }
    }
}
