//! What changes shift of the counts of quotas and vouchers, as a draft hands it on.

ghost use Rattle.std.specs.Prelude.{◌≡◌, []};

use base_tables::Row;
use model_rows::{Changes, Usage};
use std::alloc::Global;

/// How much came to each count of a quota, and how much went, in places.
#[derive(Clone, Copy)]
pub struct QuotaDelta {
    pub quota: u64,
    pub come: Usage,
    pub gone: Usage,
}

/// How many uses of a voucher by positions of pending and paid orders came, and how many went; how many cents these took of
/// its budget, and how many they gave back; and whether the voucher is a row after the changes.
#[derive(Clone, Copy)]
pub struct VoucherDelta {
    pub voucher: u64,
    pub come: u64,
    pub gone: u64,
    pub spent_come: u64,
    pub spent_gone: u64,
    pub stands: bool,
}

impl Row for QuotaDelta {
    ghost key = { λ s. s.quota };

    fn id(&self) -> u64 {
        self.quota
    }
}

impl Row for VoucherDelta {
    ghost key = { λ s. s.voucher };

    fn id(&self) -> u64 {
        self.voucher
    }
}

/// What changes shift, by the ids of the quotas and of the vouchers. Where an id isn't there, nothing came or went.
#[derive(Drop)]
pub struct CountDeltas {
    pub quotas: Vec<QuotaDelta>,
    pub vouchers: Vec<VoucherDelta>,
}

impl CountDeltas {
    /// Nothing came or went.
    pub fn none(alloc: Global) -> Self
        ensures quotas { result.quotas.items ≡ [] }
        ensures vouchers { result.vouchers.items ≡ [] }
    {
        CountDeltas {
            quotas: Vec::new(alloc),
            vouchers: Vec::new(alloc),
        }
    }
}

/// Changes, with what they shift of the counts.
#[derive(Drop)]
pub struct Drafted {
    pub changes: Changes,
    pub deltas: CountDeltas,
}

impl Drafted {
    /// Changes that shift no count: of what is for sale, or none at all.
    pub fn plain(alloc: Global, changes: Changes) -> Self
        ensures changes { result.changes ≡ changes }
        ensures quotas { result.deltas.quotas.items ≡ [] }
        ensures vouchers { result.deltas.vouchers.items ≡ [] }
    {
        Drafted {
            changes,
            deltas: CountDeltas::none(alloc),
        }
    }
}
