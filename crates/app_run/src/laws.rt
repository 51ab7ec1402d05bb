//! Laws of what is fed, and of SQLite's memory as what a shop's tables stand in.

ghost use Rattle.std.specs.Prelude.{ℕ, List, Result};
ghost use Rattle.model_invariant.specs.Sound.{IsSound};
ghost use Rattle.model_answers.specs.ShopView.{ShopView};
ghost use Rattle.web_handler.specs.Deliveries.{Delivery, StandsFor, Views};
ghost use Rattle.web_connection.specs.declared.failure.Failure.{Failure};
ghost use Rattle.web_handler.specs.Streams.{HandlerView, trait_meaning, words_of};
ghost use Rattle.app_run.specs.Fresh.{IsFresh, feed_house};
ghost use Rattle.web_handler.specs.Fed.{FeedsHandler, Ports};
ghost use Rattle.app_run.specs.Feed.{Feeds};
ghost use Rattle.app_run.specs.House.{LeadsList, LeadsShop, fresh_opening};
ghost use Rattle.sqlite_trees.specs.declared.memory.MemStore.{MemStore};
ghost use Rattle.sqlite.specs.Held.{state};
ghost use Rattle.sqlite.specs.State.{HasCleanDisk};
ghost use Rattle.sqlite.specs.Steps.{over_memory};
ghost use Rattle.file_tables.specs.declared.sql.SqlTables.{SqlTables};

use model_answers::Tables;

/// Whatever bytes are fed to a fresh shop, over whatever tables: each request that is executed makes a step that takes too much of
/// no quota; a repeat, a read and what is refused before it is a command take nothing; and the shop stays sound.
pub fn what_is_fed_takes_nothing_too_much<T: Tables>()
    ensures { (first : HandlerView T) (from step : ℕ) (old new : Ports)
        (result : Result (Unit {0}) Failure)
        → let tables = trait_meaning T.Tables in IsFresh tables first
        → (fed : FeedsHandler tables first from step old new result) → T.sure fed.house.tables
        → (w : ShopView) × LeadsShop from step fed.count old new w result
        × Views T.holds fed.house.tables fed.house.state w × IsSound w.state }
{}

/// Whatever bytes are fed to a fresh shop, over whatever tables: there is a list of arrivals, those of the messages that were acted
/// on, of which each was told what is told of the list, or 503; and the shop stands for it.
pub fn what_is_fed_is_answered_once<T: Tables>()
    ensures { (first : HandlerView T) (from step : ℕ) (old new : Ports)
        (result : Result (Unit {0}) Failure)
        → let tables = trait_meaning T.Tables in IsFresh tables first
        → (fed : FeedsHandler tables first from step old new result) → T.sure fed.house.tables
        → (es : List Delivery) × LeadsList from step fed.count old new es result
        × StandsFor (words_of feed_house) T.holds
        fed.house.tables fed.house.state fresh_opening es }
{}

/// Whatever bytes are fed to `feed`: each request that is executed makes a step that takes too much of no quota; a repeat, a read
/// and what is refused before it is a command take nothing; and the shop that all leads to is sound.
pub fn what_feed_is_fed_takes_nothing_too_much()
    ensures { (from step : ℕ) (old new : Ports) (result : Result (Unit {0}) Failure)
        → Feeds from step old new result
        → (count : ℕ) × (w : ShopView) × LeadsShop from step count old new w result
        × IsSound w.state }
{}

/// Whatever bytes are fed to `feed`: there is a list of arrivals, those of the messages that were acted on, of which each was told
/// what is told of the list, or 503.
pub fn what_feed_is_fed_is_answered_once()
    ensures { (from step : ℕ) (old new : Ports) (result : Result (Unit {0}) Failure)
        → Feeds from step old new result
        → (count : ℕ) × (es : List Delivery) × LeadsList from step count old new es result }
{}

/// SQLite's memory has always returned what was written, so that what is said of a shop over sure tables holds of one in it.
pub fn memory_is_sure()
    ensures { (tables : SqlTables MemStore) → HasCleanDisk (state over_memory tables.connection) }
{}
