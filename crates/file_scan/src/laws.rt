//! Which files are opened.

ghost use Rattle.std.specs.Prelude.{◌≡◌, ◌≢◌, ◌⊎◌, ℕ, ℤ, pos, List, [], ◌∷◌};
ghost use Rattle.sqlite.specs.Effect.{Database};
ghost use Rattle.file_schema.specs.Tables.{schema, this_version};
ghost use Rattle.file_schema.specs.Versions.{schema_of_version};
ghost use Rattle.model_rows.specs.Lists.{State};
ghost use Rattle.base_values.specs.Slugs.{IsSlug};
ghost use Rattle.model_catalogue.specs.Limits.{last_id};
ghost use Rattle.model_invariant.specs.Range.{IsNextId};
ghost use Rattle.model_invariant.specs.Sound.{IsSound};
ghost use Rattle.model_answers.specs.declared.kept.Kept.{Kept};
ghost use Rattle.file_rows.specs.declared.rows.ShopRow.{ShopRow};
ghost use Rattle.file_rows.specs.Tables.{Tables, Holds, HoldsAt};
ghost use Rattle.file_meaning.specs.Stands.{Stand};
ghost use Rattle.file_meaning.specs.Typed.{AreTyped};
ghost use Rattle.file_scan.specs.declared.error.OpenError.{OpenError};
ghost use Rattle.file_scan.specs.declared.error.OpenError.TheVariants.{Version};
ghost use Rattle.file_scan.specs.Causes.{IsReadable, IsCause};
ghost use Rattle.file_scan.specs.Lawful.{AreFit, IsOfMachine};

/// A file whose tables hold one shop of this version, and values within their limits, is refused for want of memory or because the
/// store fails, and never with 60, 61 or 62.
pub fn fit_tables_are_no_fault()
    ensures { (t : Tables) (db : Database) → db.schema ≡ schema → Holds db.trees t → AreFit t
        → (e : OpenError) → IsCause db e → IsOfMachine e }
{}

/// A file that was read is refused for want of memory or because the store fails: none of 60, 61 and 62 by the first two rules has its
/// cause.
pub fn readable_files_are_no_fault()
    ensures { (db : Database) → db.schema ≡ schema → IsReadable db
        → (e : OpenError) → IsCause db e → IsOfMachine e }
{}

/// A version that is told is that of the shop's row, and not that of this program.
pub fn a_version_is_told_of_the_shop()
    ensures { (t : Tables) (db : Database) → db.schema ≡ schema → Holds db.trees t
        → (shop : ShopRow) → t.shop ≡ shop ∷ [] → (version : ℤ) → IsCause db (Version version)
        → (pos shop.version ≡ version) × (version ≢ pos this_version) }
{}

/// A file of whatever version whose tables hold one shop of another version than this program's is refused with 61, which tells the shop's
/// version, or for want of memory or because the store fails, and never with 60 or 62.
pub fn another_version_is_told()
    ensures { (from : ℕ) (t : Tables) (db : Database) → db.schema ≡ schema_of_version from
        → HoldsAt from db.trees t → (shop : ShopRow) → t.shop ≡ shop ∷ []
        → shop.version ≢ this_version → (e : OpenError) → IsCause db e
        → (e ≡ Version (pos shop.version)) ⊎ IsOfMachine e }
{}

/// The values of tables that hold a sound box office are within their limits, where their types keep what they promise.
pub fn a_sound_office_is_fit()
    ensures { (shop : ShopRow) (t : Tables) (state : State) (answers : List Kept)
        → shop.version ≡ this_version → IsSlug shop.organizer → IsSlug shop.event
        → IsNextId last_id shop.next_token → Stand shop t state answers → IsSound state → AreTyped t
        → AreFit t }
{}
