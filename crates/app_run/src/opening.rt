//! A shop is opened in a database that has no tables yet.

ghost use Rattle.std.specs.Prelude.{◌≡◌, Ok, Err, IfOk, IfErr, OnOk, codes};
ghost use Rattle.sqlite.specs.Held.{state};
ghost use Rattle.sqlite.specs.Steps.{over_memory};
ghost use Rattle.model_rows.specs.Lists.{empty};
ghost use Rattle.app_run.specs.Stored.{AreBare, AreFed, IsOnCleanDisk};
ghost use Rattle.app_run.specs.Opened.{IsFreshShop, feed_digest};

use base_values::Slug;
use book_counters::Counters;
use file_tables::{SqlTables, add_token, create};
use sha2::{Digest, Sha256};
use sqlite::{Alter, Connection, MemStore};
use std::alloc::{AllocError, Global};
use web_handler::Office;

// The digest of the token `feed`.
#[tactic(auto, unfolding(crate::specs::Opened::feed_digest))]
fn digest_of_feed() -> [u8; 32]
    ensures { result ≡ feed_digest }
{
    Sha256::digest(b"feed")
}

// The short name of the organizer.
#[tactic(auto, unfolding(base_values::specs::Slugs::is_slug))]
fn house_slug(alloc: Global) -> Result<Slug, AllocError>
    ensures { IfOk result (λ slug. slug ≡ codes "house") }
{
    Slug::copy_of(alloc, "house")
}

// The short name of the event.
#[tactic(auto, unfolding(base_values::specs::Slugs::is_slug))]
fn hall_slug(alloc: Global) -> Result<Slug, AllocError>
    ensures { IfOk result (λ slug. slug ≡ codes "hall") }
{
    Slug::copy_of(alloc, "hall")
}

// The short names of the organizer and the event.
fn names(alloc: Global) -> Result<(Slug, Slug), AllocError>
    ensures { IfOk result (λ names. (names.0 ≡ codes "house") × (names.1 ≡ codes "hall")) }
{
    let organizer = house_slug(alloc)?;
    let event = hall_slug(alloc)?;
    Ok((organizer, event))
}

// An office without rows, of these names.
fn empty_office(alloc: Global, names: (Slug, Slug)) -> Office<Counters>
    ensures organizer { result.organizer ≡ names.0 }
    ensures event { result.event ≡ names.1 }
    ensures state { result.state ≡ empty }
{
    let (organizer, event) = names;
    Office::over(organizer, event, Counters::new(alloc))
}

// The tables of the shop in a database that has none yet, with its office. They know the house without a token.
fn begin<S: Alter + Drop>(
    alloc: Global,
    connection: Connection<S>,
) -> Result<(SqlTables<S>, Office<Counters>), AllocError>
    ensures office { IfOk result (λ made. (made.1.organizer ≡ codes "house")
        × (made.1.event ≡ codes "hall") × (made.1.state ≡ empty)) }
    ensures tables { IfOk result (λ made. IsOnCleanDisk S.Store made.0 → AreBare S.Store made.0) }
{
    let of_office = names(alloc)?;
    let of_tables = names(alloc)?;
    match create(alloc, connection, of_tables.0, of_tables.1) {
        Ok(tables) => Ok((tables, empty_office(alloc, of_office))),
        Err(_) => Err(AllocError),
    }
}

// Adds the token `feed`, as the first one.
fn add_feed<S: Alter>(tables: &mut SqlTables<S>) -> Result<(), AllocError>
    ensures clean { IsOnCleanDisk S.Store tables.new → IsOnCleanDisk S.Store tables.old }
    ensures fed { IsOnCleanDisk S.Store tables.new → AreBare S.Store tables.old
        → OnOk result (AreFed S.Store tables.new) }
{
    match add_token(tables, &digest_of_feed()) {
        Ok(_) => Ok(()),
        Err(_) => Err(AllocError),
    }
}

// What was made, where what came after it went well.
fn if_well<T: Drop>(made: T, ended: Result<(), AllocError>) -> Result<T, AllocError>
    ensures same { IfOk result (λ it. it ≡ made) }
    ensures well { IfOk result (λ _. ended ≡ Ok tt) }
    ensures ill { IfErr result (λ e. ended ≡ Err e) }
{
    match ended {
        Ok(()) => Ok(made),
        Err(error) => Err(error),
    }
}

/// The tables and the office of the shop that `feed` begins with, in a database that has no table: organizer `house`, event `hall`,
/// the token `feed`, no rows and no answers. Where there is no memory for it, or the database has a table, or its store fails, it
/// is `AllocError`.
pub fn open_store<S: Alter + Drop>(
    alloc: Global,
    connection: Connection<S>,
) -> Result<(SqlTables<S>, Office<Counters>), AllocError>
    ensures { IfOk result (λ made. IsOnCleanDisk S.Store made.0
        → IsFreshShop S.Store made.0 made.1.organizer made.1.event made.1.state) }
{
    let mut made = begin(alloc, connection)?;
    let ended = add_feed(&mut made.0);
    if_well(made, ended)
}

/// Opens a fresh shop in SQLite's memory, which has no tables at first.
pub fn open_memory(alloc: Global) -> Result<(SqlTables<MemStore>, Office<Counters>), AllocError>
    ensures { IfOk result
        (λ made. IsFreshShop over_memory made.0 made.1.organizer made.1.event made.1.state) }
{
    let connection = Connection::open_in_memory(alloc)?;
    open_store(alloc, connection)
}
