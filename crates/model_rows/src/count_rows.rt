//! Counts of quotas and of vouchers, as they are kept beside the rows.

ghost use Rattle.std.specs.Prelude.{◌≡◌};

use crate::rows::Usage;
use std::marker::Model;

/// What uses a quota.
#[derive(Clone, Copy, PartialEq, Eq)]
pub struct QuotaCount {
    pub quota: u64,
    pub usage: Usage,
}

/// How often a voucher is redeemed, and what is spent of its budget, in cents.
#[derive(Clone, Copy, PartialEq, Eq)]
pub struct VoucherCount {
    pub voucher: u64,
    pub redeemed: u64,
    pub spent: u64,
}

/// The counts that are to be written: those of the quotas and vouchers that are new or whose counts differ, which of these
/// quotas differ in how many tickets are out, and the ids of the vouchers that are gone.
#[derive(Drop)]
pub struct CountRows {
    quotas: Vec<QuotaCount>,
    exits: Vec<QuotaCount>,
    vouchers: Vec<VoucherCount>,
    gone: Vec<u64>,
}

impl Model for CountRows {
    ghost use Rattle.model_rows.specs.CountRows.{CountRows};

    ghost Value = { CountRows };

    ghost view = { λ c. record {
      quotas = c.quotas.items;
      exits = c.exits.items;
      vouchers = c.vouchers.items;
      gone = c.gone.items;
    } };
}

impl CountRows {
    /// Counts of these rows.
    pub fn new(
        quotas: Vec<QuotaCount>,
        exits: Vec<QuotaCount>,
        vouchers: Vec<VoucherCount>,
        gone: Vec<u64>,
    ) -> Self
        ensures quotas { result.quotas ≡ quotas.items }
        ensures exits { result.exits ≡ exits.items }
        ensures vouchers { result.vouchers ≡ vouchers.items }
        ensures gone { result.gone ≡ gone.items }
    {
        CountRows {
            quotas,
            exits,
            vouchers,
            gone,
        }
    }

    /// The counts of quotas, by id.
    pub fn quotas(&self) -> &[QuotaCount]
        ensures { result.now ≡ self.now.quotas }
    {
        self.quotas.as_slice()
    }

    /// The counts of the quotas that differ in how many tickets are out, by id.
    pub fn exits(&self) -> &[QuotaCount]
        ensures { result.now ≡ self.now.exits }
    {
        self.exits.as_slice()
    }

    /// The counts of vouchers, by id.
    pub fn vouchers(&self) -> &[VoucherCount]
        ensures { result.now ≡ self.now.vouchers }
    {
        self.vouchers.as_slice()
    }

    /// The vouchers that are gone, by id.
    pub fn gone(&self) -> &[u64]
        ensures { result.now ≡ self.now.gone }
    {
        self.gone.as_slice()
    }
}
