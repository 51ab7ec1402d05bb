//! Laws of what the tables of a file hold.

ghost use Rattle.std.specs.Prelude.{◌≡◌, ℕ, ◌+◌, List, Option, true, false};
ghost use Rattle.std.specs.Borrow.{Bor};
ghost use Rattle.std.specs.List.{AllByRecursion};
ghost use Rattle.model_rows.specs.Change.{Changed, changes_applied};
ghost use Rattle.model_rows.specs.CountRows.{CountRows, counts_after};
ghost use Rattle.model_rows.specs.Lists.{Lists, State};
ghost use Rattle.model_answers.specs.declared.kept.Kept.{Kept};
ghost use Rattle.model_answers.specs.ShopView.{kept_listed, with_kept};
ghost use Rattle.file_rows.specs.declared.rows.ShopRow.{ShopRow};
ghost use Rattle.file_rows.specs.Tables.{Tables};
ghost use Rattle.file_meaning.specs.Free.{IsFree};
ghost use Rattle.file_meaning.specs.Lawful.{puts_come_first};
ghost use Rattle.file_meaning.specs.Made.{commit_made, next_after};
ghost use Rattle.file_meaning.specs.Rows.{OfficeRows};
ghost use Rattle.file_meaning.specs.Stands.{AreRowsOf, AreSameRows, AreOrdered, IsRising, Stand};

/// Rows in whatever order are those of one office only.
pub fn rows_tell_one_office()
    ensures { (a b : Lists) (xs ys : OfficeRows) → AreOrdered a → AreOrdered b
        → AreRowsOf a xs → AreRowsOf b ys → AreSameRows xs ys → a ≡ b }
{}

/// Where tables hold an office and kept answers, and the counts that are handed in are those that the changes change, what a
/// commit makes of the tables holds the office after its changes, at the moment of the shop's new row, with the answer that is
/// kept, and without those that are past. The changes have to be such as a file takes.
pub fn a_commit_carries()
    ensures { (old shop : ShopRow) (changes : Changed) (counts : CountRows) (from : ℕ)
        (answer : Option (Bor Kept)) (t : Tables) (state : State) (answers : List Kept)
        → shop.next ≡ changes.next → AllByRecursion IsRising changes.list
        → puts_come_first false changes.list ≡ true
        → counts ≡ counts_after state (changes_applied changes shop.moment state)
        → Stand old t state answers → IsFree from t
        → Stand shop (commit_made shop changes.list counts from (kept_listed answer) shop.moment t)
        (changes_applied changes shop.moment state)
        (with_kept shop.moment answers (kept_listed answer)) }
{}

/// After a commit the row number that follows on those that it gave is free.
pub fn row_numbers_stay_free()
    ensures { (shop : ShopRow) (changes : Changed) (counts : CountRows) (from at : ℕ)
        (answers : List Kept) (t : Tables) → IsFree from t
        → IsFree (next_after changes.list from + 1)
        (commit_made shop changes.list counts from answers at t) }
{}
