//! One box office over a book.

ghost use Rattle.std.specs.Prelude.{◌≡◌, ◌≤◌, IfOk, OnOk};
ghost use Rattle.model_rows.specs.Change.{changes_applied};
ghost use Rattle.model_rows.specs.CountRows.{counts_after};
ghost use Rattle.model_rows.specs.Weight.{weight};
ghost use Rattle.model_invariant.specs.Sound.{IsSound};
ghost use Rattle.office_other.specs.Machine.{IsStep, answer};
ghost use Rattle.office_commands.specs.Told.{IfOkIs};

use crate::deciding::decide_over;
use base_values::{Draw, Known, Moment, Slug};
use book_usage::{Book, Dues};
use model_commands::{Command, Query, Reply};
use model_rows::{Changes, CountRows};
use office_other::Drafted;
use std::alloc::{AllocError, Global};
use std::marker::Model;

/// A box office over any book. Contracts see its two names, its book with the state, and the weight of
/// the changes that it has room for.
#[derive(Drop)]
pub struct Office<B: Book> {
    organizer: Slug,
    event: Slug,
    book: B,
}

impl<B: Book> Model for Office<B> {
    ghost use Rattle.model_invariant.specs.Sound.{IsSound};
    ghost use Rattle.office_commands.specs.OfficeView.{OfficeView};

    ghost Value = { OfficeView B };

    ghost view = { λ o. record {
      organizer = o.organizer;
      event = o.event;
      book = o.book;
      state = B.state o.book;
      room = B.room o.book;
    } };

    ghost invariant = { λ o. IsSound (B.state o.book) };
}

impl<B: Book> Office<B> {
    /// The office of an event, over a book that is sound.
    pub fn over(organizer: Slug, event: Slug, book: B) -> Self
        requires { IsSound (B.state book) }
        ensures organizer { result.organizer ≡ organizer }
        ensures event { result.event ≡ event }
        ensures book { result.book ≡ book }
        ensures state { result.state ≡ B.state book }
        ensures room { result.room ≡ B.room book }
    {
        Office {
            organizer,
            event,
            book,
        }
    }

    /// The book, which is sound.
    pub fn book(&self) -> &B
        ensures book { result.now ≡ self.now.book }
        ensures sound { IsSound (B.state result.now) }
        ensures state { B.state result.now ≡ self.now.state }
        ensures room { B.room result.now ≡ self.now.room }
    {
        &self.book
    }

    /// The organizer's short name.
    pub fn organizer(&self) -> &Slug
        ensures { result.now ≡ self.now.organizer }
    {
        &self.organizer
    }

    /// The event's short name.
    pub fn event(&self) -> &Slug
        ensures { result.now ≡ self.now.event }
    {
        &self.event
    }

    /// The moment of the last command.
    pub fn moment(&self) -> Moment
        ensures { result ≡ self.now.state.moment }
    {
        self.book.moment()
    }

    /// What a command that comes at a moment, with a draw, is answered, and the changes that it makes.
    /// The moment isn't before the office's. The changes are those of the command and no others, in an order in which each
    /// can be made at once; a refused command makes none. Each decision lists its refusals:
    /// see `Catalogue` of model_catalogue, and the functions of decide_vouchers, decide_orders, decide_waiting and decide_door.
    pub fn decide(
        &self,
        alloc: Global,
        at: Moment,
        draw: Draw,
        command: &Command,
    ) -> Result<(Drafted, Reply), AllocError>
        requires { self.now.state.moment ≤ at }
        ensures step { IfOk result (IsStep command.now at draw self.now.state) }
        ensures sound { IfOk result (λ r. IsSound (changes_applied r.0.changes at self.now.state)) }
    {
        let book = self.book();
        command.recall_invariant();
        draw.recall_invariant();
        decide_over(book, alloc, at, draw, command)
    }

    /// What a query is answered at a moment that isn't before the office's.
    /// Refusals: 10 `NoItem`, 13 `NoQuota`, 23 `NoVoucher`, 32 `NoEntry`, 40 `NoPosition`, 41 `NoOrder`, 50 `NoList` where
    /// no row has the id; 51 `Invalid` where the position doesn't belong to the check-in list;
    /// 59 `NoPage` where the list has no such page.
    pub fn ask(&self, alloc: Global, at: Moment, query: &Query) -> Result<Reply, AllocError>
        requires { self.now.state.moment ≤ at }
        ensures { IfOkIs result (answer query.now at self.now.state) }
    {
        match query {
            Query::List(resource, number) => self.list(alloc, *resource, *number),
            Query::One(resource, id) => self.one(alloc, *resource, *id),
            Query::Availability(id) => Ok(self.availability(at, *id)),
            Query::Status(id) => self.status(alloc, *id),
        }
    }

    /// Takes the memory that these changes need.
    pub fn reserve(&mut self, changes: &Changes) -> Result<(), AllocError>
        ensures ok { OnOk result (weight changes.now.list ≤ self.new.room) }
        ensures state { self.new.state ≡ self.old.state }
        ensures organizer { self.new.organizer ≡ self.old.organizer }
        ensures event { self.new.event ≡ self.old.event }
    {
        self.book.reserve(changes)
    }
}

impl<B: Dues> Office<B> {
    /// Makes these changes at a moment that isn't before the office's. There is room for them, the counts that they change are given, and
    /// the office stays sound.
    pub fn settle(&mut self, changes: Changes, counts: &CountRows, at: Moment)
        requires room { weight changes.list ≤ self.old.room }
        requires moment { self.old.state.moment ≤ at }
        requires sound { IsSound (changes_applied changes at self.old.state) }
        requires counts { counts.now
            ≡ counts_after self.old.state (changes_applied changes at self.old.state) }
        ensures state { self.new.state ≡ changes_applied changes at self.old.state }
        ensures organizer { self.new.organizer ≡ self.old.organizer }
        ensures event { self.new.event ≡ self.old.event }
    {
        self.book.settle(changes, counts, at);
    }
}
