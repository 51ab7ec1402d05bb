//! Laws of a shop's file over crashes.

ghost use Rattle.std.specs.Prelude.{◌≡◌, ◌⊎◌, ◌+◌, ℕ, List, [], ◌∷◌, ◌++◌, IsTrue};
ghost use Rattle.sqlite.specs.Held.{state};
ghost use Rattle.base_values.specs.declared.answer.Response.{Response};
ghost use Rattle.model_rows.specs.Lists.{State, empty};
ghost use Rattle.model_commands.specs.declared.replies.Reply.{Reply};
ghost use Rattle.file_schema.specs.Tables.{schema};
ghost use Rattle.file_schema.specs.Versions.{schema_of_version};
ghost use Rattle.model_answers.specs.declared.kept.Kept.{Kept};
ghost use Rattle.model_answers.specs.House.{House};
ghost use Rattle.model_answers.specs.ShopView.{ShopView, IsSame};
ghost use Rattle.file_schema.specs.Whole.{IsWritten, LeavesWhole};
ghost use Rattle.file_tables.specs.Begun.{HasToken};
ghost use Rattle.file_tables.specs.Shops.{KnowsWhileOpen};
ghost use Rattle.file_rows.specs.declared.rows.ShopRow.{ShopRow};
ghost use Rattle.file_rows.specs.Tables.{Tables as Held};
ghost use Rattle.file_open.specs.Opened.{answers_in, shop_in, IsFaultless};
ghost use Rattle.office_deliveries.specs.Deliveries.{Delivery, Opening};
ghost use Rattle.office_deliveries.specs.Shops.{Stands, shop_after};
ghost use Rattle.office_deliveries.specs.Histories.{Event, Crashed, Running, Happens, ComesTo, Reopened, running_from};
ghost use Rattle.file_tables.specs.Made.{IsMade};
ghost use Rattle.file_tables.specs.Tokens.{house_with, token_raised, next_one};
ghost use Rattle.file_scan.specs.Rests.{IsOpenAt};
ghost use Rattle.file_open.specs.Migrated.{IsMigrated, IsOfVersion, LeavesMigrated};
ghost use Rattle.file_open.specs.Supplied.{Brings};
ghost use Rattle.file_open.specs.Upgraded.{HoldsShopAt, IsOpenedAsBefore};
ghost use Rattle.file_open.specs.Running.{Finds, HoldsShop, KnowsHouse, LeavesShop, Opens, Runs, RunsOn, ShowsSame};
ghost use Rattle.file_schema.specs.Clean.{LeavesNoMore};

use file_schema::schema_known;
use file_tables::SqlTables;
use sqlite::{Alter, Connection};

/// A shop's file that was just made runs from the opening without rows and answers.
pub fn a_made_shop_runs<S: Alter>(blank: &Connection<S>, made: &SqlTables<S>)
    ensures { (words : Reply → Response) (first : ShopRow)
        → IsMade first (state S.Store blank.now) made.now.head made.now.next_row
        (state S.Store made.now.connection)
        → Runs S.Store words made.now empty
        (running_from words (shop_after words (record { state = empty; kept = [] }) [])) }
{
    let _ = blank;
    let _ = made;
}

/// What is opened of a file after a crash is one of the shops that the crash may have left, with its answers, and nothing else: the
/// premise of the law of histories. Its tables are declared as ours, where the tables before knew a house; and it is of the same house: its
/// names, the number of each token, and the one that the next token gets.
/// So a shop that was running is running again, as it was or with one undecided write carried out; and whatever happened to it before, it
/// stands for the list of arrivals that its history comes to, with this crash in it.
pub fn a_shop_runs_on_after_a_crash<S: Alter>(
    before: &SqlTables<S>,
    fresh: &Connection<S>,
    after: &SqlTables<S>,
)
    ensures reopened { Finds S.Store before.now.connection fresh.now
        → (z : State) (o : Opens S.Store fresh.now after.now z)
        → Reopened (HoldsShop S.Store) (LeavesShop S.Store) before.now after.now
        (shop_in z o.tables) }
    ensures known { (house : House) → KnowsHouse S.Store before.now house
        → Finds S.Store before.now.connection fresh.now
        → (state S.Store fresh.now).now.schema ≡ schema }
    ensures house { (house : House) → KnowsHouse S.Store before.now house
        → Finds S.Store before.now.connection fresh.now → (z : State)
        → Opens S.Store fresh.now after.now z
        → KnowsHouse S.Store after.now house × (after.now.head.organizer ≡ house.organizer)
        × (after.now.head.event ≡ house.event) }
    ensures runs { (words : Reply → Response) (s : State) (r : Running)
        → Runs S.Store words before.now s r → Finds S.Store before.now.connection fresh.now
        → (z : State) → Opens S.Store fresh.now after.now z → RunsOn S.Store words r after.now z }
    ensures stands { (words : Reply → Response) (p : Opening) (events : List Event) (s : State)
        (r : Running) → Happens words (running_from words (shop_after words p [])) events r
        → Runs S.Store words before.now s r → Finds S.Store before.now.connection fresh.now
        → (z : State) → Opens S.Store fresh.now after.now z
        → (x : ShopView) × Happens words (running_from words (shop_after words p []))
        (events ++ Crashed ∷ []) (running_from words x)
        × Runs S.Store words after.now z (running_from words x)
        × ((whole : List Delivery) × ComesTo words p [] [] (events ++ Crashed ∷ []) whole
        × Stands words p whole x) }
{
    let _ = before;
    schema_known(fresh);
    let _ = after;
}

/// A crash while a shop's file is opened loses nothing: what `open_file` promises of a crash is that it leaves only what stood. Where the
/// file was found after a crash, is being opened, whether that came to an end or not, and the crash comes again, what is found then is
/// what was found before, and so what the first crash may have left, however often that happens. So what is opened of it in the end is
/// the shop that was running, as it was or with one undecided write carried out.
pub fn a_crash_while_opening_loses_nothing<S: Alter>(
    before: &SqlTables<S>,
    fresh: &Connection<S>,
    tried: &Connection<S>,
    again: &Connection<S>,
    after: &SqlTables<S>,
)
    ensures found { Finds S.Store before.now.connection fresh.now
        → LeavesNoMore S.Store fresh.now tried.now → Finds S.Store tried.now again.now
        → Finds S.Store before.now.connection again.now × ShowsSame S.Store fresh.now again.now }
    ensures house { (house : House) → KnowsHouse S.Store before.now house
        → Finds S.Store before.now.connection fresh.now → LeavesNoMore S.Store fresh.now tried.now
        → Finds S.Store tried.now again.now → (z : State) → Opens S.Store again.now after.now z
        → KnowsHouse S.Store after.now house }
    ensures runs { (words : Reply → Response) (s : State) (r : Running)
        → Runs S.Store words before.now s r → Finds S.Store before.now.connection fresh.now
        → LeavesNoMore S.Store fresh.now tried.now → Finds S.Store tried.now again.now → (z : State)
        → Opens S.Store again.now after.now z → RunsOn S.Store words r after.now z }
{
    schema_known(fresh);
    let _ = tried;
    schema_known(again);
    a_shop_runs_on_after_a_crash(before, again, after);
}

/// After a crash of a running shop, whose tables knew a house, its file holds a shop, and so is opened, or refused for want of memory or
/// because the store fails, and never with 60, 61 or 62.
pub fn a_crash_damages_nothing<S: Alter>(before: &SqlTables<S>, fresh: &Connection<S>)
    ensures { (house : House) → KnowsHouse S.Store before.now house
        → (words : Reply → Response) (s : State) (r : Running) → Runs S.Store words before.now s r
        → Finds S.Store before.now.connection fresh.now
        → IsFaultless (state S.Store fresh.now).now }
{
    let _ = before;
    schema_known(fresh);
}

/// A token that is added changes nothing of a running shop: what `add_token` promises of the office and the answers, and of what a crash in
/// it may leave, keeps it running.
pub fn a_token_leaves_a_shop_running<S: Alter>(old: &SqlTables<S>, new: &SqlTables<S>)
    ensures { (words : Reply → Response) (s : State) (r : Running) → Runs S.Store words old.now s r
        → ((z : State) (ks : List Kept) → HoldsShop S.Store old.now z ks
        → HoldsShop S.Store new.now z ks)
        → ((left : ShopView) → LeavesShop S.Store new.now left
        → LeavesShop S.Store old.now left
        ⊎ ((z : State) (ks : List Kept) → HoldsShop S.Store old.now z ks
        → IsSame left (record { state = z; kept = ks }))) → Runs S.Store words new.now s r }
{
    let _ = old;
    let _ = new;
}

/// After a crash while a token is added it is wholly in or out: the tables that are opened know the house that was known, or the same with
/// the new token by the number that was next, and the number after it as the next one.
pub fn a_token_is_in_or_out<S: Alter>(
    old: &SqlTables<S>,
    new: &SqlTables<S>,
    fresh: &Connection<S>,
    after: &SqlTables<S>,
)
    ensures { (digest : List ℕ) (house : House) (s : State) (ks : List Kept)
        → IsTrue (state S.Store old.now.connection).is_open → HoldsShop S.Store old.now s ks
        → KnowsWhileOpen old.now.head old.now.next_row (state S.Store old.now.connection) house
        → LeavesWhole S.Store old.now.connection new.now.connection schema
        (λ (_ : Unit {0}). HasToken (token_raised old.now.head) (next_one old.now.head digest))
        → Finds S.Store new.now.connection fresh.now → (z : State)
        → Opens S.Store fresh.now after.now z
        → KnowsHouse S.Store after.now house
        ⊎ KnowsHouse S.Store after.now
        (house_with digest old.now.head.next_token (old.now.head.next_token + 1) house) }
{
    let _ = old;
    let _ = new;
    let _ = fresh;
    let _ = after;
}

/// A file that was brought to this version is opened as the shop that it held, with its answers and its tokens. After a crash while it was,
/// it is wholly of the earlier version, as it was, or wholly of this one, and opened so.
pub fn an_upgrade_is_in_or_out<S: Alter>(
    old: &Connection<S>,
    new: &Connection<S>,
    fresh: &Connection<S>,
    opened: &Connection<S>,
)
    ensures done { (from : ℕ) (head : ShopRow) (t : Held) (s : State) (ks : List Kept)
        → HoldsShopAt from head t s ks (state S.Store old.now)
        → IsWritten (Brings from head t) (state S.Store old.now) (state S.Store new.now)
        → IsOpenedAsBefore head t s ks (state S.Store new.now).now (state S.Store opened.now) }
    ensures crash { (from : ℕ) (head : ShopRow) (t : Held) (s : State) (ks : List Kept)
        → HoldsShopAt from head t s ks (state S.Store old.now)
        → LeavesWhole S.Store old.now new.now (schema_of_version from)
        (λ (_ : Unit {0}). Brings from head t) → Finds S.Store new.now fresh.now
        → ShowsSame S.Store old.now fresh.now
        ⊎ IsOpenedAsBefore head t s ks (state S.Store fresh.now).now (state S.Store opened.now) }
{
    schema_known(old);
    let _ = new;
    schema_known(fresh);
    let _ = opened;
}

/// A file that was brought to this program's version is opened as the shop that it held, with its answers and its tokens. After a crash
/// while it was, it is as it was, or it is opened as the shop that it held.
pub fn a_migration_is_in_or_out<S: Alter>(
    old: &Connection<S>,
    new: &Connection<S>,
    fresh: &Connection<S>,
    opened: &Connection<S>,
)
    ensures done { (from : ℕ) (it : IsMigrated from (state S.Store old.now) (state S.Store new.now))
        → IsOpenedAsBefore it.head it.tables it.office (answers_in it.tables)
        (state S.Store new.now).now (state S.Store opened.now) }
    ensures crash { (from : ℕ) → IsOpenAt (state S.Store old.now).now (state S.Store old.now)
        → IsOfVersion from (state S.Store old.now).now → LeavesMigrated S.Store old.now new.now
        → Finds S.Store new.now fresh.now
        → ShowsSame S.Store old.now fresh.now
        ⊎ ((head : ShopRow) × (t : Held) × (s : State)
        × HoldsShopAt from head t s (answers_in t) (state S.Store old.now)
        × IsOpenedAsBefore head t s (answers_in t) (state S.Store fresh.now).now
        (state S.Store opened.now)) }
{
    schema_known(old);
    let _ = new;
    schema_known(fresh);
    let _ = opened;
}
