//! What requests for vouchers say, and why they are refused.

ghost use Rattle.std.specs.Prelude.{◌≡◌};
ghost use Rattle.model_commands.specs.Refusals.{number_of_voucher_refusal};
ghost use Rattle.model_commands.specs.declared.vouchers.VoucherRefusal.TheVariants.{Memory, Catalogue};
ghost use Rattle.model_commands.specs.FitRequests.{IsFitVoucher, IsFitVoucherPatch};

use base_values::{Cents, Known, Moment, PriceMode, Text, Uses};
use model_catalogue::CatalogueRefusal;
use model_rows::Voucher;
use std::alloc::AllocError;
use thiserror::Error;

/// A new voucher. Without a code it gets one that is made.
/// Its value is in cents, or in hundredths of a percent where the mode is percent. Its budget is in cents; without one
/// it may take off any amount.
#[derive(Drop)]
pub struct NewVoucher {
    pub code: Option<Text>,
    pub max_usages: Uses,
    pub valid_until: Option<Moment>,
    pub block_quota: bool,
    pub allow_ignore_quota: bool,
    pub price_mode: PriceMode,
    pub value: Option<Cents>,
    pub item: Option<u64>,
    pub variation: Option<u64>,
    pub quota: Option<u64>,
    pub tag: Text,
    pub comment: Text,
    pub budget: Option<Cents>,
}

/// What is to change of a voucher. What isn't given stays; what is given as none becomes none.
#[derive(Drop)]
pub struct VoucherPatch {
    pub code: Option<Text>,
    pub max_usages: Option<Uses>,
    pub valid_until: Option<Option<Moment>>,
    pub block_quota: Option<bool>,
    pub allow_ignore_quota: Option<bool>,
    pub price_mode: Option<PriceMode>,
    pub value: Option<Option<Cents>>,
    pub item: Option<Option<u64>>,
    pub variation: Option<Option<u64>>,
    pub quota: Option<Option<u64>>,
    pub tag: Option<Text>,
    pub comment: Option<Text>,
    pub budget: Option<Option<Cents>>,
}

/// What became of a row of a voucher file.
#[derive(Drop)]
pub enum Verdict {
    /// No voucher had its code: this one was added.
    Added(Voucher),
    /// The voucher of its code is as the row has it.
    Same,
    /// The voucher of its code is another than the row has it, and stays as it is.
    Other,
    /// No voucher has its code, and it can't be added.
    Refused(VoucherRefusal),
}

/// Why a call on vouchers is refused.
#[derive(Clone, Copy, Debug, PartialEq, Eq, Error)]
pub enum VoucherRefusal {
    /// 6: there is no memory.
    #[error("out of memory")]
    Memory,
    /// The catalogue's refusal, with its number.
    #[error("{0}")]
    Catalogue(CatalogueRefusal),
    /// 2: more than 100 percent would be taken off.
    #[error("value out of range")]
    TooLarge,
    /// 20: another voucher has the code.
    #[error("code is taken")]
    CodeTaken,
    /// 21: an item and a quota are named, or a variation without its item.
    #[error("wrong target")]
    BadTarget,
    /// 22: it would block, and names neither a quota, nor an item without variations, nor a variation.
    #[error("cannot block")]
    CannotBlock,
    /// 23: there is no such voucher.
    #[error("voucher not found")]
    NoVoucher,
    /// 24: the voucher isn't live any more.
    #[error("voucher is expired")]
    VoucherExpired,
    /// 25: the voucher would be used more often than it may be.
    #[error("voucher has no uses left")]
    NoHeadroom,
    /// 26: the voucher isn't for the product.
    #[error("voucher does not fit")]
    WrongProduct,
    /// 27: a row names the voucher.
    #[error("in use")]
    InUse,
    /// 28: too much would be taken of the quota with this id.
    #[error("quota {0} is sold out")]
    SoldOut(u64),
    /// 33: the code has the form of those that the shop makes.
    #[error("code is reserved")]
    ReservedCode,
    /// 34: more would be taken off than the voucher's budget.
    #[error("voucher budget is spent")]
    OverBudget,
}

impl From<AllocError> for VoucherRefusal {
    ghost from_gives = { λ _ e. e ≡ Memory };

    fn from(_e: AllocError) -> VoucherRefusal {
        VoucherRefusal::Memory
    }
}

impl From<CatalogueRefusal> for VoucherRefusal {
    ghost from_gives = { λ r e. e ≡ Catalogue r };

    fn from(refusal: CatalogueRefusal) -> VoucherRefusal {
        VoucherRefusal::Catalogue(refusal)
    }
}

impl VoucherRefusal {
    /// The refusal's number.
    pub fn number(self) -> u8
        ensures { result ≡ number_of_voucher_refusal self }
    {
        match self {
            VoucherRefusal::Memory => 6,
            VoucherRefusal::Catalogue(refusal) => refusal.number(),
            VoucherRefusal::TooLarge => 2,
            VoucherRefusal::CodeTaken => 20,
            VoucherRefusal::BadTarget => 21,
            VoucherRefusal::CannotBlock => 22,
            VoucherRefusal::NoVoucher => 23,
            VoucherRefusal::VoucherExpired => 24,
            VoucherRefusal::NoHeadroom => 25,
            VoucherRefusal::WrongProduct => 26,
            VoucherRefusal::InUse => 27,
            VoucherRefusal::SoldOut(_) => 28,
            VoucherRefusal::ReservedCode => 33,
            VoucherRefusal::OverBudget => 34,
        }
    }
}

impl Known for NewVoucher {
    ghost promise = { IsFitVoucher };

    fn recall_invariant(&self) {
        self.code.recall_invariant();
        self.max_usages.recall_invariant();
        self.valid_until.recall_invariant();
        self.value.recall_invariant();
        self.tag.recall_invariant();
        self.comment.recall_invariant();
        self.budget.recall_invariant();
    }
}

impl Known for VoucherPatch {
    ghost promise = { IsFitVoucherPatch };

    fn recall_invariant(&self) {
        self.code.recall_invariant();
        self.max_usages.recall_invariant();
        self.valid_until.recall_invariant();
        self.value.recall_invariant();
        self.tag.recall_invariant();
        self.comment.recall_invariant();
        self.budget.recall_invariant();
    }
}
