//! A shop: an office, its tables and its wording.

ghost use Rattle.std.specs.Prelude.{◌≡◌, ◌≤◌, IfOk};
ghost use Rattle.model_invariant.specs.Sound.{IsSound};
ghost use Rattle.model_answers.specs.CallsLeave.{OfItsHouse};
ghost use Rattle.office_deliveries.specs.Shops.{moment_at};
ghost use Rattle.office_once.specs.CallsLeave.{OnlyAsks};

use base_values::Moment;
use book_usage::Book;
use model_answers::{Tables, TablesError};
use office_commands::Office;
use office_deliveries::Wording;
use std::marker::Model;

/// A shop: an office whose rows stand in tables, beside the answers that are kept there.
/// Contracts see the tables, the office's rows and the wording.
#[derive(Drop)]
pub struct Shop<T: Tables, B: Book, W: Wording> {
    pub(crate) tables: T,
    pub(crate) office: Office<B>,
    pub(crate) wording: W,
}

impl<T: Tables, B: Book, W: Wording> Model for Shop<T, B, W> {
    ghost use Rattle.office_once.specs.OpenShop.{OpenShop};

    ghost Value = { OpenShop T W };

    ghost view = { λ s. record { tables = s.tables; state = s.office.state; wording = s.wording } };
}

impl<T: Tables, B: Book, W: Wording> Shop<T, B, W> {
    /// The shop of an office, over tables that hold its rows.
    pub fn over(tables: T, office: Office<B>, wording: W) -> Self
        ensures tables { result.tables ≡ tables }
        ensures office { result.state ≡ office.state }
        ensures wording { result.wording ≡ wording }
    {
        Shop {
            tables,
            office,
            wording,
        }
    }

    /// The wording.
    pub fn wording(&self) -> &W
        ensures { result.now ≡ self.now.wording }
    {
        &self.wording
    }

    /// The number of the token with this SHA-256 digest, if it is known. Nothing changes.
    pub fn token_of(&mut self, digest: &[u8; 32]) -> Result<Option<u64>, TablesError>
        ensures { OnlyAsks T.sure T.knows T.holds T.may_leave self.old self.new
            (OfItsHouse T.sure T.knows self.old.tables self.new.tables
            (λ house. IfOk result (λ number. number ≡ house.tokens digest.now))) }
    {
        self.tables.token_of(digest)
    }

    // Its office is sound.
    pub(crate) fn recall_invariant(&self)
        ensures { IsSound self.now.state }
    {
        let _ = self.office.book();
    }

    // The moment of a request: the clock's, but never before the office's.
    pub(crate) fn moment_at(&self, clock: Moment) -> Moment
        ensures at { result ≡ moment_at clock self.now.state }
        ensures later { self.now.state.moment ≤ result }
    {
        let _ = clock.get();
        let stored = self.office.moment();
        if stored.is_before(clock) {
            clock
        } else {
            stored
        }
    }
}

impl<T: Tables, B: Book + Drop, W: Wording + Drop> Shop<T, B, W> {
    /// The tables.
    pub fn into_tables(self) -> T
        ensures { result ≡ self.tables }
    {
        self.tables
    }
}
