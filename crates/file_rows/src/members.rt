//! Rows that have a number and no id, most of which say of an owner that it has a member.

ghost use Rattle.std.specs.Prelude.{◌≡◌, ℕ, List, refl};
ghost use Rattle.file_rows.specs.Tables.{Tables};

use crate::rows::{KeptRow, ListItem, QuotaItem, QuotaVariation};

/// A row that has a number.
pub trait Numbered: Drop {
    ghost number_of: { Self → ℕ };

    /// The row's number.
    fn number(&self) -> u64
        ensures { result ≡ number_of self.now };
}

/// A row that says of an owner that it has a member: of a quota an item or a variation, of a check-in list an item.
pub trait Member: Numbered {
    // the row by its number, the owner's id and the member's
    ghost row_of: { ℕ → ℕ → ℕ → Self };

    ghost owner_of: { Self → ℕ };

    ghost member_of: { Self → ℕ };

    // the rows of the table, and the tables with others in their place
    ghost rows: { Tables → List Self };

    ghost with_rows: { List Self → Tables → Tables };

    /// The row of this number, which says that the owner has the member.
    fn new(number: u64, owner: u64, member: u64) -> Self
        ensures { result ≡ row_of number owner member };

    /// The member's id.
    fn member(&self) -> u64
        ensures { result ≡ member_of self.now };

    // what is put in the place of the rows stands there
    ghost are_there: { (xs : List Self) (t : Tables) → rows (with_rows xs t) ≡ xs };

    // the rows that stand there, put once more, change nothing
    ghost are_same: { (t : Tables) → with_rows (rows t) t ≡ t };

    // of what is put twice the last counts
    ghost are_last: { (xs ys : List Self) (t : Tables) → with_rows xs (with_rows ys t) ≡ with_rows xs t };
}

impl Numbered for QuotaItem {
    ghost number_of = { λ r. r.rowid };

    fn number(&self) -> u64 {
        self.rowid
    }
}

impl Member for QuotaItem {
    ghost row_of = { λ number owner member.
        record { rowid = number; quota = owner; item = member } };

    ghost owner_of = { λ r. r.quota };

    ghost member_of = { λ r. r.item };

    ghost rows = { λ t. t.quota_items };

    ghost with_rows = { λ xs t. record t { quota_items = xs } };

    fn new(number: u64, owner: u64, member: u64) -> QuotaItem {
        QuotaItem {
            rowid: number,
            quota: owner,
            item: member,
        }
    }

    fn member(&self) -> u64 {
        self.item
    }

    ghost are_there = { λ xs t. refl };

    ghost are_same = { λ t. refl };

    ghost are_last = { λ xs ys t. refl };
}

impl Numbered for QuotaVariation {
    ghost number_of = { λ r. r.rowid };

    fn number(&self) -> u64 {
        self.rowid
    }
}

impl Member for QuotaVariation {
    ghost row_of = { λ number owner member.
        record { rowid = number; quota = owner; variation = member } };

    ghost owner_of = { λ r. r.quota };

    ghost member_of = { λ r. r.variation };

    ghost rows = { λ t. t.quota_variations };

    ghost with_rows = { λ xs t. record t { quota_variations = xs } };

    fn new(number: u64, owner: u64, member: u64) -> QuotaVariation {
        QuotaVariation {
            rowid: number,
            quota: owner,
            variation: member,
        }
    }

    fn member(&self) -> u64 {
        self.variation
    }

    ghost are_there = { λ xs t. refl };

    ghost are_same = { λ t. refl };

    ghost are_last = { λ xs ys t. refl };
}

impl Numbered for ListItem {
    ghost number_of = { λ r. r.rowid };

    fn number(&self) -> u64 {
        self.rowid
    }
}

impl Member for ListItem {
    ghost row_of = { λ number owner member.
        record { rowid = number; list = owner; item = member } };

    ghost owner_of = { λ r. r.list };

    ghost member_of = { λ r. r.item };

    ghost rows = { λ t. t.list_items };

    ghost with_rows = { λ xs t. record t { list_items = xs } };

    fn new(number: u64, owner: u64, member: u64) -> ListItem {
        ListItem {
            rowid: number,
            list: owner,
            item: member,
        }
    }

    fn member(&self) -> u64 {
        self.item
    }

    ghost are_there = { λ xs t. refl };

    ghost are_same = { λ t. refl };

    ghost are_last = { λ xs ys t. refl };
}

impl Numbered for KeptRow {
    ghost number_of = { λ r. r.rowid };

    fn number(&self) -> u64 {
        self.rowid
    }
}
