//! Laws of a shop's file.

ghost use Rattle.std.specs.Prelude.{◌≡◌, ◌≢◌, ◌≤◌, ◌⊎◌, ℕ, pos, List};
ghost use Rattle.sqlite.specs.Held.{state};
ghost use Rattle.file_schema.specs.Tables.{schema, this_version};
ghost use Rattle.model_rows.specs.Lists.{State, empty};
ghost use Rattle.model_invariant.specs.Sound.{IsSound};
ghost use Rattle.model_answers.specs.declared.kept.Kept.{Kept};
ghost use Rattle.model_answers.specs.ShopView.{IsSame};
ghost use Rattle.file_rows.specs.declared.rows.ShopRow.{ShopRow};
ghost use Rattle.file_rows.specs.Tables.{Tables};
ghost use Rattle.model_damage.specs.declared.rule.Rule.{Rule};
ghost use Rattle.file_scan.specs.declared.error.OpenError.{OpenError};
ghost use Rattle.file_scan.specs.declared.error.OpenError.TheVariants.{Version};
ghost use Rattle.file_scan.specs.Rests.{IsAt};
ghost use Rattle.file_scan.specs.Lawful.{IsOfMachine};
ghost use Rattle.file_tables.specs.Shops.{Keeps};
ghost use Rattle.file_tables.specs.Made.{first_shop, IsMade};
ghost use Rattle.file_open.specs.Opened.{IsDamagedBy, IsReason, IsOpened, shop_in, IsFaultless};
ghost use Rattle.file_open.specs.Refusals.{IsUnmigrated};
ghost use Rattle.file_open.specs.Upgraded.{HoldsShopAt};

use sqlite::{Alter, Connection};

/// A file that holds a shop shows what was committed, in tables that are declared as ours. Where the shop's box office is sound, its rows break
/// no rule, and it is refused for want of memory or because the store fails, and never with 60, 61 or 62. What it is opened as is that shop:
/// its row, its box office and its answers.
pub fn what_is_held_is_opened<S: Alter>(held: &Connection<S>, opened: &Connection<S>)
    ensures shows { (head : ShopRow) (next : ℕ) (s : State) (ks : List Kept)
        → Keeps head next (state S.Store held.now) s ks
        → IsAt (state S.Store held.now).now (state S.Store held.now)
        × ((state S.Store held.now).now.schema ≡ schema) }
    ensures whole { (head : ShopRow) (next : ℕ) (s : State) (ks : List Kept)
        → Keeps head next (state S.Store held.now) s ks → IsSound s → (rule : Rule)
        → ¬ IsDamagedBy rule (state S.Store held.now).now.trees }
    ensures no_fault { (head : ShopRow) (next : ℕ) (s : State) (ks : List Kept)
        → Keeps head next (state S.Store held.now) s ks → IsSound s
        → IsFaultless (state S.Store held.now).now }
    ensures same { (head : ShopRow) (next : ℕ) (s : State) (ks : List Kept)
        → Keeps head next (state S.Store held.now) s ks
        → (shop : ShopRow) (number : ℕ) (z : State)
        (o : IsOpened (state S.Store held.now).now.trees shop number z (state S.Store opened.now))
        → (shop ≡ head) × IsSame (shop_in z o.tables) (record { state = s; kept = ks }) }
{
    let _ = held;
    let _ = opened;
}

/// A file that was just made is declared as ours and is refused for want of memory or because the store fails, and never with 60, 61
/// or 62; what it is opened as is the empty box office under the same names.
pub fn what_is_made_is_opened<S: Alter>(
    blank: &Connection<S>,
    made: &Connection<S>,
    opened: &Connection<S>,
)
    ensures { (organizer event : List ℕ) (head : ShopRow) (next : ℕ)
        → IsMade (first_shop organizer event) (state S.Store blank.now) head next
        (state S.Store made.now) → IsAt (state S.Store made.now).now (state S.Store made.now)
        × ((state S.Store made.now).now.schema ≡ schema) × IsFaultless (state S.Store made.now).now
        × ((shop : ShopRow) (number : ℕ) (z : State)
        → IsOpened (state S.Store made.now).now.trees shop number z (state S.Store opened.now)
        → (shop ≡ first_shop organizer event) × (z ≡ empty)) }
{
    let _ = blank;
    let _ = made;
    let _ = opened;
}

/// A file of whatever version that holds a shop of another version than this program's is refused with 61, which tells the shop's version,
/// or for want of memory or because the store fails, and never with 60 or 62. So it is of one that wasn't upgraded yet.
pub fn another_version_is_told<S: Alter>(held: &Connection<S>)
    ensures { (from : ℕ) (head : ShopRow) (t : Tables) (s : State) (ks : List Kept)
        → HoldsShopAt from head t s ks (state S.Store held.now) → head.version ≢ this_version
        → (error : OpenError) → IsReason (state S.Store held.now).now error
        → (error ≡ Version (pos head.version)) ⊎ IsOfMachine error }
{
    let _ = held;
}

/// A file that holds a shop of a version of ours, which the shop's row tells, is brought to this program's, or refused for want of memory or
/// because the store fails, and never with 60, 61 or 62.
pub fn what_is_whole_is_migrated<S: Alter>(held: &Connection<S>)
    ensures { (from : ℕ) (head : ShopRow) (t : Tables) (s : State) (ks : List Kept)
        → HoldsShopAt from head t s ks (state S.Store held.now) → head.version ≡ from → 1 ≤ from
        → from ≤ this_version → (error : OpenError)
        → IsUnmigrated (state S.Store held.now).now error → IsOfMachine error }
{
    let _ = held;
}
