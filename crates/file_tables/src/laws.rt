//! Laws of a shop's file that begins.

ghost use Rattle.std.specs.Prelude.{◌≡◌, ℕ, ◌+◌, List, []};
ghost use Rattle.model_rows.specs.Lists.{State, empty, first_ids};
ghost use Rattle.model_answers.specs.declared.kept.Kept.{Kept};
ghost use Rattle.file_rows.specs.declared.rows.ShopRow.{ShopRow};
ghost use Rattle.file_rows.specs.declared.rows.Token.{Token};
ghost use Rattle.file_rows.specs.Tables.{Tables};
ghost use Rattle.file_meaning.specs.Free.{IsFree};
ghost use Rattle.file_meaning.specs.Stands.{Stand};
ghost use Rattle.file_tables.specs.Begun.{first_tables, token_added};

/// The tables of a shop with its row alone hold the empty box office and no answer, and every row number is free.
pub fn a_shop_begins_empty()
    ensures stands { (shop : ShopRow) → shop.moment ≡ 0 → shop.next ≡ first_ids
        → Stand shop (first_tables shop) empty [] }
    ensures free { (shop : ShopRow) (number : ℕ) → IsFree number (first_tables shop) }
{}

/// A new token changes neither the box office nor the answers, and the row numbers that are free stay so.
pub fn a_token_changes_no_office()
    ensures stands { (old shop : ShopRow) (token : Token) (t : Tables) (state : State)
        (answers : List Kept) → shop.moment ≡ old.moment → shop.next ≡ old.next
        → Stand old t state answers → Stand shop (token_added shop token t) state answers }
    ensures free { (shop : ShopRow) (token : Token) (t : Tables) (number : ℕ)
        → IsFree number t → IsFree number (token_added shop token t) }
{}
