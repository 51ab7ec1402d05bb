//! Counts by key: how much came and how much went of each, now and at each earlier place.

ghost use Rattle.std.specs.Prelude.{◌≡◌, ◌≤◌, ◌<◌, ◌==◌, [], length, take, OnOk, OnErr, slice_index_or};
ghost use Rattle.std.specs.Option.{IfSome};
ghost use Rattle.model_rows.specs.Conditions.{names};
ghost use Rattle.book_tally.specs.Counts.{newest, part_at, came, went, CountsMore, GoesOn};
ghost use Rattle.book_tally.specs.declared.tally.Count.{Count};

use crate::amount::Amount;
use book_log::KeyLog;
use std::alloc::{AllocError, Global};
use std::marker::Model;

/// How much came and how much went of a key.
#[derive(Clone, Copy)]
pub struct Count<A: Amount> {
    pub id: u64,
    pub come: A,
    pub gone: A,
}

/// Counts by key. Contracts see the journal: for each addition its key, with all that had come and gone of it by then.
///
/// A place in the journal is a mark: to go back to it needs no memory, and what came after it tells what was touched since.
#[derive(Drop)]
pub struct Tally<A: Amount> {
    keys: KeyLog,
    counts: Vec<Count<A>>,
}

impl<A: Amount> Model for Tally<A> {
    ghost use Rattle.std.specs.Prelude.{◌≡◌, List, map};
    ghost use Rattle.book_tally.specs.declared.tally.Count.{Count};

    ghost Value = { List (Count A) };

    ghost view = { λ t. t.counts.items };

    ghost invariant = { λ t. t.keys ≡ map (λ c. c.id) t.counts.items };
}

impl<A: Amount> Tally<A> {
    /// Nothing has come or gone.
    pub fn new(alloc: Global) -> Self
        ensures { result ≡ [] }
    {
        Tally {
            keys: KeyLog::new(alloc),
            counts: Vec::new(alloc),
        }
    }

    /// How many additions there are: the mark of what is counted now.
    pub fn len(&self) -> usize
        ensures { result ≡ length self.now }
    {
        self.counts.len()
    }

    /// The key of the addition at a place.
    pub fn key(&self, place: usize) -> u64
        requires { place < length self.now }
        ensures { (d : Count A) → result ≡ (slice_index_or self.now place d).id }
    {
        self.counts[place].id
    }

    /// The place of the newest addition to a key.
    pub fn newest(&self, key: u64) -> Option<usize>
        ensures value { result ≡ newest key self.now }
        ensures within { IfSome result (λ place. place < length self.now) }
    {
        self.keys.last(key)
    }

    /// The counts of a key.
    pub fn of(&self, key: u64) -> Count<A>
        ensures id { result.id ≡ key }
        ensures come { result.come ≡ came A.zero key self.now }
        ensures gone { result.gone ≡ went A.zero key self.now }
    {
        self.counts_at(key, self.newest(key))
    }

    /// The counts of a key at a mark. It costs what was added to the key since.
    pub fn at_mark(&self, mark: usize, key: u64) -> Count<A>
        requires { mark ≤ length self.now }
        ensures id { result.id ≡ key }
        ensures come { result.come ≡ came A.zero key (take mark self.now) }
        ensures gone { result.gone ≡ went A.zero key (take mark self.now) }
    {
        self.counts_at(key, self.newest_before(mark, key))
    }

    /// Adds to the counts of a key. `Err` where there is no memory; they are then as they were.
    pub fn add(&mut self, key: u64, come: A, gone: A) -> Result<(), AllocError>
        ensures comes { OnOk result
            (CountsMore (came A.zero) A.sum (λ k. key == k) come self.old self.new) }
        ensures goes { OnOk result
            (CountsMore (went A.zero) A.sum (λ k. key == k) gone self.old self.new) }
        ensures on { OnOk result (GoesOn self.old self.new) }
        ensures err { OnErr result (self.new ≡ self.old) }
    {
        let old = self.of(key);
        let come = old.come.with(come)?;
        let gone = old.gone.with(gone)?;
        self.counts.reserve(1)?;
        self.keys.push(key)?;
        Ok(
            self.counts.push(Count {
                id: key,
                come,
                gone,
            })?,
        )
    }

    /// Adds to the counts of a key, if one is named. `Err` where there is no memory; they are then as they were.
    pub fn add_named(&mut self, key: Option<u64>, come: A, gone: A) -> Result<(), AllocError>
        ensures comes { OnOk result
            (CountsMore (came A.zero) A.sum (λ k. names k key) come self.old self.new) }
        ensures goes { OnOk result
            (CountsMore (went A.zero) A.sum (λ k. names k key) gone self.old self.new) }
        ensures on { OnOk result (GoesOn self.old self.new) }
        ensures err { OnErr result (self.new ≡ self.old) }
    {
        match key {
            None => Ok(()),
            Some(key) => self.add(key, come, gone),
        }
    }

    /// Undoes all additions after a mark. It takes no memory.
    pub fn truncate(&mut self, mark: usize)
        ensures { self.new ≡ take mark self.old }
    {
        self.keys.truncate(mark);
        self.counts.truncate(mark);
    }

    // The counts that stand at a place of the key, or none.
    fn counts_at(&self, key: u64, place: Option<usize>) -> Count<A>
        requires { IfSome place (λ p. p < length self.now) }
        ensures id { result.id ≡ key }
        ensures come { result.come ≡ part_at A.zero (λ c. c.come) self.now place }
        ensures gone { result.gone ≡ part_at A.zero (λ c. c.gone) self.now place }
    {
        match place {
            None => Count {
                id: key,
                come: A::none(),
                gone: A::none(),
            },
            Some(place) => Count {
                id: key,
                come: self.counts[place].come,
                gone: self.counts[place].gone,
            },
        }
    }

    // The place of the newest of the first additions that is one to the key.
    fn newest_before(&self, mark: usize, key: u64) -> Option<usize>
        requires { mark ≤ length self.now }
        ensures value { result ≡ newest key (take mark self.now) }
        ensures within { IfSome result (λ place. place < mark) }
    {
        let mut found = self.newest(key);
        'earlier: while let Some(place) = found {
            if place < mark {
                return found;
            }
            found = self.earlier(place);
        }
        None
    }

    // The place of the addition before this one that is one to the same key.
    fn earlier(&self, place: usize) -> Option<usize>
        requires { place < length self.now }
        ensures { (d : Count A)
            → result ≡ newest (slice_index_or self.now place d).id (take place self.now) }
    {
        self.keys.before(place)
    }
}
