//! Every order of what two lists say, each in its own order.

ghost use Rattle.std.specs.Prelude.{◌≡◌, ◌++◌, map, IfOk, OnOk};
ghost use Rattle.tests_callers.specs.Merges.{AddsMerges, AreMerges};

use std::alloc::{AllocError, Global};
use web_connections::Next;

/// Joins a list behind another.
pub(crate) fn joined(alloc: Global, one: &[Next], other: &[Next]) -> Result<Vec<Next>, AllocError>
    ensures { IfOk result (λ all. all.items ≡ one.now ++ other.now) }
{
    let mut all = one.to_vec(alloc)?;
    all.extend_from_slice(other)?;
    Ok(all)
}

// Adds each order of two lists, behind what was first.
fn add_merges(
    alloc: Global,
    all: &mut Vec<Vec<Next>>,
    first: &[Next],
    one: &[Next],
    other: &[Next],
) -> Result<(), AllocError>
    ensures { OnOk result (AddsMerges first.now one.now other.now
        (map (λ v. v.items) all.old.items) (map (λ v. v.items) all.new.items)) }
{
    let Some((x, xs)) = one.split_first() else {
        all.push(joined(alloc, first, other)?)?;
        return Ok(());
    };
    let Some((y, ys)) = other.split_first() else {
        all.push(joined(alloc, first, one)?)?;
        return Ok(());
    };
    add_merges(
        alloc,
        all,
        joined(alloc, first, &[*x])?.as_slice(),
        xs,
        other,
    )?;
    add_merges(alloc, all, joined(alloc, first, &[*y])?.as_slice(), one, ys)?;
    Ok(())
}

/// Every order in which all that two lists say can happen, each of them in its own order.
pub(crate) fn merges(
    alloc: Global,
    one: &[Next],
    other: &[Next],
) -> Result<Vec<Vec<Next>>, AllocError>
    ensures { IfOk result (λ all. AreMerges one.now other.now (map (λ v. v.items) all.items)) }
{
    let mut all = Vec::new(alloc);
    add_merges(alloc, &mut all, &[], one, other)?;
    Ok(all)
}
