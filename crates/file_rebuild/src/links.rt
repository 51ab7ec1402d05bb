//! Links: a member, and the row that it is of.

ghost use Rattle.std.specs.Prelude.{◌≡◌};
ghost use Rattle.file_meaning.specs.Links.{Link};
ghost use Rattle.file_rebuild.specs.Arranged.{item_link, variation_link, release_link, list_link};

use file_rows::{ListItem, QuotaItem, QuotaVariation, ReleaseRow};

/// A row that tells one member of another row.
pub trait Linking {
    ghost link: { Self → Link };

    /// The id of the row that it is of.
    fn owner(&self) -> u64
        ensures { result ≡ (link self.now).owner };

    /// The id of the member.
    fn member(&self) -> u64
        ensures { result ≡ (link self.now).member };
}

impl Linking for QuotaItem {
    ghost link = { item_link };

    fn owner(&self) -> u64 {
        self.quota
    }

    fn member(&self) -> u64 {
        self.item
    }
}

impl Linking for QuotaVariation {
    ghost link = { variation_link };

    fn owner(&self) -> u64 {
        self.quota
    }

    fn member(&self) -> u64 {
        self.variation
    }
}

impl Linking for ReleaseRow {
    ghost link = { release_link };

    fn owner(&self) -> u64 {
        self.quota
    }

    fn member(&self) -> u64 {
        self.quota
    }
}

impl Linking for ListItem {
    ghost link = { list_link };

    fn owner(&self) -> u64 {
        self.list
    }

    fn member(&self) -> u64 {
        self.item
    }
}
