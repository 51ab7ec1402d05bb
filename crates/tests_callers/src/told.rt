//! How often each outcome came, over every order.

ghost use Rattle.std.specs.Prelude.{◌≡◌, ◌++◌, IfOk};

use crate::error::TogetherError;
use crate::merges::{joined, merges};
use crate::outcomes::{Outcome, Tally, outcomes};
use crate::party::{Party, Plan, party_of, plan_of};
use std::alloc::{AllocError, Global};
use std::io::Write;
use web_connections::Next;

/// What makes houses.
pub trait Houses {
    /// What callers are told by a new server, each by its number, where all that happens is this, one after another.
    fn serve(
        &self,
        alloc: Global,
        party: &Party<'_>,
        order: &[Next],
    ) -> Result<Vec<Vec<u8>>, TogetherError>;
}

impl Plan {
    // All that happens, where what two lists say happens in this order.
    fn whole(&self, alloc: Global, order: &[Next]) -> Result<Vec<Next>, AllocError>
        ensures { IfOk result
            (λ all. all.items ≡ self.now.first.items ++ order.now ++ self.now.last.items) }
    {
        let begun = joined(alloc, self.first.as_slice(), order)?;
        joined(alloc, begun.as_slice(), self.last.as_slice())
    }
}

// How often each outcome came, over every order.
fn tally<H: Houses>(
    alloc: Global,
    houses: &H,
    party: &Party<'_>,
    plan: &Plan,
    outcomes: &[Outcome<'_>],
) -> Result<Tally, TogetherError> {
    let mut tally = Tally::new(alloc, outcomes.len())?;
    let orders = merges(alloc, plan.one.as_slice(), plan.other.as_slice())?;
    for order in &orders {
        let whole = plan.whole(alloc, order.as_slice())?;
        let told = houses.serve(alloc, party, whole.as_slice())?;
        tally.note(outcomes, &told);
    }
    Ok(tally)
}

// Tells it.
fn tell(
    alloc: Global,
    name: &str,
    outcomes: &[Outcome<'_>],
    tally: &Tally,
) -> Result<Vec<u8>, TogetherError> {
    let mut text = Vec::new(alloc);
    let (as_alone, otherwise) = (tally.sum(), tally.otherwise);
    let all = as_alone.saturating_add(otherwise);
    writeln!(
        text,
        "{name}, {all} interleavings: as on one connection alone {as_alone}, otherwise {otherwise}"
    )?;
    for (outcome, count) in outcomes.iter().zip(tally.counts.as_slice()) {
        writeln!(text, "    {count} {}", outcome.name)?;
    }
    Ok(text)
}

/// What comes of the callers that a text has, with a `~` between its parts: how many slots the server has; the moments of requests; the callers;
/// what they do, in four lines; and all that they may be told. How often each of that came, over every order of what the two lines in the middle
/// say.
pub fn together_told<H: Houses>(
    alloc: Global,
    houses: &H,
    name: &str,
    text: &str,
) -> Result<Vec<u8>, TogetherError> {
    let (slots, rest) = text.split_once('~').unwrap_or((text, ""));
    let (moments, rest) = rest.split_once('~').unwrap_or((rest, ""));
    let (guests, rest) = rest.split_once('~').unwrap_or((rest, ""));
    let (plan, told) = rest.split_once('~').unwrap_or((rest, ""));
    let party = party_of(alloc, slots, moments, guests)?;
    let plan = plan_of(alloc, plan)?;
    let outcomes = outcomes(alloc, told)?;
    let tally = tally(alloc, houses, &party, &plan, outcomes.as_slice())?;
    tell(alloc, name, outcomes.as_slice(), &tally)
}
