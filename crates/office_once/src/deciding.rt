//! What a write changes, and what it is told.

ghost use Rattle.std.specs.Prelude.{◌≡◌, ◌≤◌, IfOk, true};
ghost use Rattle.model_rows.specs.Change.{changes_applied};
ghost use Rattle.model_rows.specs.CountRows.{counts_after};
ghost use Rattle.model_invariant.specs.Sound.{IsSound};
ghost use Rattle.office_step.specs.IsStep.{HasCountDeltas};
ghost use Rattle.office_deliveries.specs.declared.arrival.Request.TheVariants.{Write};
ghost use Rattle.office_deliveries.specs.Deliveries.{is_write, request_done};
ghost use Rattle.office_once.specs.CallsLeave.{Decides};

use crate::shop::Shop;
use base_values::{Draw, Moment, Response};
use book_counts_to_write::counts_by_shifts;
use book_usage::Dues;
use model_answers::Tables;
use model_commands::Command;
use model_rows::{Changes, CountRows};
use office_deliveries::{Request, Wording, worded};
use office_step::Drafted;
use std::alloc::{AllocError, Global};

impl<T: Tables, B: Dues, W: Wording> Shop<T, B, W> {
    // What a command changes at a moment, and what is told.
    fn decide_command(
        &self,
        alloc: Global,
        at: Moment,
        draw: Draw,
        command: &Command,
    ) -> Result<(Drafted, Response), AllocError>
        requires { self.now.state.moment ≤ at }
        ensures { IfOk result (λ r. Decides (W.words self.now.wording) (Write command.now)
            at draw self.now.state r.0 r.1) }
    {
        let (drafted, reply) = self.office.decide(alloc, at, draw, command)?;
        let response = worded(&self.wording, alloc, reply)?;
        Ok((drafted, response))
    }

    // What a write changes that was refused before it was a command: its moment alone.
    fn pass(&self, alloc: Global, at: Moment) -> Drafted
        requires { self.now.state.moment ≤ at }
        ensures passed { changes_applied result.changes at self.now.state
            ≡ record self.now.state { moment = at } }
        ensures sound { IsSound (changes_applied result.changes at self.now.state) }
        ensures deltas { HasCountDeltas at self.now.state.lists result }
    {
        let next = self.office.book().next_ids();
        Drafted::plain(alloc, Changes::new(Vec::new(alloc), next))
    }

    // What a write changes at a moment, and what is told.
    fn decide(
        &self,
        alloc: Global,
        at: Moment,
        draw: Draw,
        request: Request,
    ) -> Result<(Drafted, Response), AllocError>
        requires write { is_write request ≡ true }
        requires later { self.now.state.moment ≤ at }
        ensures { IfOk result (λ r. Decides (W.words self.now.wording) request
            at draw self.now.state r.0 r.1) }
    {
        match request {
            // The command is let go by name, as a whole: part by part is a way of the proof for each of its kinds.
            Request::Write(command) => {
                let decided = self.decide_command(alloc, at, draw, &command);
                drop(command);
                decided
            }
            Request::WriteRefused(response) => {
                let drafted = self.pass(alloc, at);
                Ok((drafted, response))
            }
            Request::Read(_) => unreachable!(),
            Request::ReadRefused(_) => unreachable!(),
        }
    }

    // What a write changes at a moment, the counts that are written with that, and what is told.
    pub(crate) fn counted(
        &self,
        alloc: Global,
        at: Moment,
        draw: Draw,
        request: Request,
    ) -> Result<(Changes, CountRows, Response), AllocError>
        requires write { is_write request ≡ true }
        requires later { self.now.state.moment ≤ at }
        ensures done { IfOk result (λ r. (changes_applied r.0 at self.now.state, r.2)
            ≡ request_done (W.words self.now.wording) request at draw self.now.state) }
        ensures sound { IfOk result (λ r. IsSound (changes_applied r.0 at self.now.state)) }
        ensures counts { IfOk result (λ r. r.1
            ≡ counts_after self.now.state (changes_applied r.0 at self.now.state)) }
    {
        let (drafted, response) = self.decide(alloc, at, draw, request)?;
        let Drafted { changes, deltas } = drafted;
        let counts = counts_by_shifts(self.office.book(), alloc, &changes, &deltas, at)?;
        Ok((changes, counts, response))
    }
}
