//! Amounts that stand in a table of their own, each under the id of the row that has it.

ghost use Rattle.std.specs.Prelude.{◌≡◌, ◌↔◌, ℕ, count_by, is_some, option_map, IfOk, IsTrue, IsPermutation};
ghost use Rattle.base_tables.specs.Tables.{AreInOrder, row_at};
ghost use Rattle.file_rebuild.specs.Members.{each_value, value_links, values_of};

use base_tables::{Row, place_of};
use base_values::Cents;
use file_rows::{BudgetRow, DiscountRow};
use std::alloc::{AllocError, Global};

/// A row that has an amount of another row, under that row's id.
pub trait Valued: Row {
    ghost value_of: { Self → ℕ };

    /// The amount.
    fn value(&self) -> Cents
        ensures { result ≡ value_of self.now };
}

impl Valued for BudgetRow {
    ghost value_of = { λ r. r.budget };

    fn value(&self) -> Cents {
        self.budget
    }
}

impl Valued for DiscountRow {
    ghost value_of = { λ r. r.discount };

    fn value(&self) -> Cents {
        self.discount
    }
}

// The amount under an id, if there is one.
fn value_at<V: Valued>(rows: &[V], id: u64) -> Option<Cents>
    requires { AreInOrder V.Row.key rows.now }
    ensures { result ≡ option_map V.value_of (row_at V.Row.key id rows.now) }
{
    match place_of(rows, id) {
        Ok(at) => Some(rows[at].value()),
        Err(_at) => None,
    }
}

// The amount under each id, if there is one.
fn each_value<V: Valued>(
    alloc: Global,
    ids: &[u64],
    rows: &[V],
) -> Result<Vec<Option<Cents>>, AllocError>
    requires { AreInOrder V.Row.key rows.now }
    ensures { IfOk result (λ all. all.items ≡ each_value V.Row.key V.value_of ids.now rows.now) }
{
    let mut all = Vec::new(alloc);
    for id in ids {
        all.push(value_at(rows, *id))?;
    }
    Ok(all)
}

// Whether so many of these amounts are there.
fn are_so_many(values: &[Option<Cents>], count: usize) -> bool
    ensures { IsTrue result ↔ (count_by is_some values.now ≡ count) }
{
    values.iter().filter(|value| value.is_some()).count() == count
}

/// The amounts of some rows, and whether each amount is of one of them.
#[derive(Drop)]
pub(crate) struct Values {
    pub(crate) each: Vec<Option<Cents>>,
    pub(crate) whole: bool,
}

/// The amounts under these ids. The ids have to rise, and so have those of the amounts. They are whole where each amount is under one of
/// these ids.
pub(crate) fn values_in<V: Valued>(
    alloc: Global,
    ids: &[u64],
    rows: &[V],
) -> Result<Values, AllocError>
    requires ids { AreInOrder (λ n. n) ids.now }
    requires rows { AreInOrder V.Row.key rows.now }
    ensures each { IfOk result (λ v. v.each.items
        ≡ each_value V.Row.key V.value_of ids.now rows.now) }
    ensures whole { let links = value_links V.Row.key V.value_of rows.now in
        IfOk result (λ v. IsTrue v.whole ↔ IsPermutation links (values_of ids.now links)) }
{
    let each = each_value(alloc, ids, rows)?;
    let whole = are_so_many(each.as_slice(), rows.len());
    Ok(Values { each, whole })
}
