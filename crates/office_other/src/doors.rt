//! Commands of the doors. None of them depends on its draw. A refusal is a reply, with the number that `add_list` or `redeem` of
//! decide_door gives it; the error is want of memory alone.

ghost use Rattle.std.specs.Prelude.{IfOk};
ghost use Rattle.office_step.specs.IsStep.{CanBegin, IsUndrawnStep};
ghost use Rattle.model_commands.specs.declared.requests.Command.{Command};

use base_values::Moment;
use decide_door::add_list;
use model_commands::{DoorRefusal, Kind, NewCheckinList, Refusal, Reply, Scan, Shown, Ticket};
use office_step::{Book, Drafted, close, open};
use std::alloc::{AllocError, Global};

/// Adds a check-in list.
pub fn add_checkin_list<B: Book>(
    book: &B,
    alloc: Global,
    at: Moment,
    new: &NewCheckinList,
) -> Result<(Drafted, Reply), AllocError>
    requires { CanBegin at (B.state book.now) }
    ensures { IfOk result (IsUndrawnStep (Command.AddCheckinList new.now) at (B.state book.now)) }
{
    let mut draft = open(book, alloc, at)?;
    let reply = match add_list(&mut draft, alloc, new) {
        Ok(row) => Ok(Reply::Made(Shown::CheckinList(row))),
        Err(DoorRefusal::Memory) => Err(AllocError),
        Err(refusal) => Ok(Reply::Refused(Kind::AddCheckinList, Refusal::Door(refusal))),
    };
    close(book, alloc, at, draft, reply)
}

/// Checks a ticket in or out.
#[tactic(auto, using(decide_door::proofs::Places::next_is_new))]
pub fn redeem<B: Book>(
    book: &B,
    alloc: Global,
    at: Moment,
    list: u64,
    ticket: &Ticket,
    scan: &Scan,
) -> Result<(Drafted, Reply), AllocError>
    requires { CanBegin at (B.state book.now) }
    ensures { IfOk result
        (IsUndrawnStep (Command.Redeem list ticket.now scan.now) at (B.state book.now)) }
{
    let mut draft = open(book, alloc, at)?;
    let reply = match decide_door::redeem(&mut draft, alloc, list, ticket, scan) {
        Ok(position) => Ok(Reply::Admitted(position)),
        Err(DoorRefusal::Memory) => Err(AllocError),
        Err(refusal) => Ok(Reply::Refused(Kind::Redeem, Refusal::Door(refusal))),
    };
    close(book, alloc, at, draft, reply)
}
