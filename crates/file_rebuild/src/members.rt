//! The members of rows, as links tell them.

ghost use Rattle.std.specs.Prelude.{◌≡◌, ◌↔◌, ◌++◌, [], ◌∷◌, IfOk, OnOk, IsTrue, IsPermutation, List, map, flat_map, length};
ghost use Rattle.base_tables.specs.Rising.{rising};
ghost use Rattle.base_tables.specs.Tables.{AreInOrder};
ghost use Rattle.file_meaning.specs.Links.{Link};
ghost use Rattle.file_rebuild.specs.Members.{members_of, links_of, AreTold};

use crate::links::Linking;
use base_tables::{Ids, Row, place_of};
use std::alloc::{AllocError, Global};

// No members yet for each id.
fn none_told(alloc: Global, ids: &[u64]) -> Result<Vec<Vec<u64>>, AllocError>
    ensures { IfOk result (λ all. AreTold ids.now [] all.items) }
{
    let mut all = Vec::new(alloc);
    for _id in ids {
        all.push(Vec::new(alloc))?;
    }
    Ok(all)
}

// Adds the member of a link to those of its owner, if that is among the ids.
fn tell<L: Linking>(all: &mut Vec<Vec<u64>>, ids: &[u64], link: &L) -> Result<(), AllocError>
    requires order { AreInOrder (λ n. n) ids.now }
    requires length { length all.old.items ≡ length ids.now }
    ensures length { OnOk result (length all.new.items ≡ length ids.now) }
    ensures told { (before : List Link) → AreTold ids.now before all.old.items
        → OnOk result (AreTold ids.now (before ++ L.link link.now ∷ []) all.new.items) }
{
    match place_of(ids, link.owner()) {
        Ok(at) => {
            all[at].push(link.member())?;
            Ok(())
        }
        Err(_at) => Ok(()),
    }
}

// The members of each id, in the order of their links.
fn told_in<L: Linking>(alloc: Global, ids: &[u64], links: &[L]) -> Result<Vec<Vec<u64>>, AllocError>
    requires { AreInOrder (λ n. n) ids.now }
    ensures { IfOk result (λ all. AreTold ids.now (map L.link links.now) all.items) }
{
    let mut all = none_told(alloc, ids)?;
    for link in links {
        tell(&mut all, ids, link)?;
    }
    Ok(all)
}

// Each list in rising order, each id once.
fn each_sorted(alloc: Global, told: Vec<Vec<u64>>) -> Result<Vec<Ids>, AllocError>
    ensures { IfOk result (λ all. all.items ≡ map (λ v. rising v.items) told.items) }
{
    told.into_iter().map(Ids::sorted).collect(alloc)
}

// Whether there are so many members in all.
fn are_so_many(each: &[Ids], count: usize) -> bool
    ensures { IsTrue result ↔ (length (flat_map (λ m. m) each.now) ≡ count) }
{
    let mut left = count;
    for ids in each {
        let more = ids.as_slice().len();
        if more > left {
            return false;
        }
        left -= more;
    }
    left == 0
}

/// Whether both are true.
pub(crate) fn both(one: bool, other: bool) -> bool
    ensures { IsTrue result ↔ (IsTrue one × IsTrue other) }
{
    one && other
}

/// The members of some rows, and whether each link tells one of them.
#[derive(Drop)]
pub(crate) struct Members {
    pub(crate) each: Vec<Ids>,
    pub(crate) whole: bool,
}

/// The members of each id, as links tell them: in rising order, each once. The ids have to rise. They are whole where each link
/// tells a member: no link is of another row, and none comes twice.
pub(crate) fn members_in<L: Linking>(
    alloc: Global,
    ids: &[u64],
    links: &[L],
) -> Result<Members, AllocError>
    requires { AreInOrder (λ n. n) ids.now }
    ensures each { IfOk result (λ m. m.each.items
        ≡ map (λ owner. members_of owner (map L.link links.now)) ids.now) }
    ensures whole { let all = map L.link links.now in
        IfOk result (λ m. IsTrue m.whole ↔ IsPermutation all (links_of ids.now all)) }
{
    let told = told_in(alloc, ids, links)?;
    let each = each_sorted(alloc, told)?;
    let whole = are_so_many(each.as_slice(), links.len());
    Ok(Members { each, whole })
}
