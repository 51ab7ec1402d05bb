//! Laws of rows that are arranged.

ghost use Rattle.std.specs.Prelude.{◌≡◌};
ghost use Rattle.model_rows.specs.Lists.{Lists};
ghost use Rattle.file_meaning.specs.Rows.{OfficeRows};
ghost use Rattle.file_meaning.specs.Stands.{AreRowsOf, AreOrdered};
ghost use Rattle.file_rebuild.specs.Arranged.{told_by};

/// Where rows in order are those of a box office, it is the one that they tell.
pub fn rows_tell_their_office()
    ensures { (lists : Lists) (rows : OfficeRows) →
        AreOrdered lists → AreOrdered (told_by rows) → AreRowsOf lists rows → told_by rows ≡ lists }
{}
