//! Queries of check-in lists, and of the positions that belong to them.

ghost use Rattle.std.specs.Prelude.{◌≡◌, IfOk, map, take, drop};
ghost use Rattle.office_other.specs.Machine.{belonging, list_of, one_of, show_ticket, status_told, ticket_if};
ghost use Rattle.model_rows.specs.Lists.{checkin_list_at};
ghost use Rattle.office_commands.specs.Told.{IfOkIs};

use crate::lists::no_page;
use crate::office::Office;
use base_values::List;
use book_usage::Book;
use decide_door::{belongs, position_count, positions, status, ticket_of};
use model_commands::pages::{PAGE, is_page, rows_before};
use model_commands::{DoorRefusal, Kind, ListedTicket, Page, Refusal, Reply, Resource, Shown};
use model_rows::{CheckinList, OrderPos};
use std::alloc::{AllocError, Global};

impl<B: Book> Office<B> {
    pub(crate) fn one_checkin_list(&self, alloc: Global, id: u64) -> Result<Reply, AllocError>
        ensures { IfOkIs result (one_of Resource.CheckinLists id self.now.state.lists) }
    {
        match self.book().checkin_list(id) {
            None => Ok(no_list(Kind::One)),
            Some(list) => Ok(Reply::Found(Shown::CheckinList(list.copy(alloc)?))),
        }
    }

    pub(crate) fn one_ticket(&self, alloc: Global, list: u64, id: u64) -> Result<Reply, AllocError>
        ensures { IfOk result
            (λ reply. reply ≡ one_of (Resource.Tickets list) id self.now.state.lists) }
    {
        match self.book().checkin_list(list) {
            None => Ok(no_list(Kind::One)),
            Some(list) => match self.book().position(id) {
                None => Ok(invalid()),
                Some(position) => self.ticket(alloc, list, position),
            },
        }
    }

    // A position, where it belongs to the check-in list.
    fn ticket(
        &self,
        alloc: Global,
        list: &CheckinList,
        position: &OrderPos,
    ) -> Result<Reply, AllocError>
        ensures { IfOk result
            (λ reply. reply ≡ ticket_if list.now self.now.state.lists position.now) }
    {
        if !belongs(self.book(), list, position) {
            return Ok(invalid());
        }
        let ticket = ticket_of(self.book(), alloc, list, position)?;
        Ok(Reply::Found(Shown::Ticket(ticket)))
    }

    // A page of the positions that belong to a check-in list.
    pub(crate) fn tickets_page(
        &self,
        alloc: Global,
        id: u64,
        number: u64,
    ) -> Result<Reply, AllocError>
        ensures { IfOkIs result (list_of (Resource.Tickets id) number self.now.state.lists) }
    {
        let Some(list) = self.book().checkin_list(id) else {
            return Ok(no_list(Kind::List));
        };
        let count = position_count(self.book(), list);
        if !is_page(number, count) {
            return Ok(no_page());
        }
        let rows = self.shown_tickets(alloc, list, rows_before(number, count))?;
        Ok(Reply::Listed(Page {
            resource: Resource::Tickets(id),
            number,
            count: count as u64,
            rows,
        }))
    }

    // The rows of a page of the positions that belong to a check-in list.
    fn shown_tickets(
        &self,
        alloc: Global,
        list: &CheckinList,
        before: usize,
    ) -> Result<List<Shown>, AllocError>
        ensures { IfOkIs result (let lists = self.now.state.lists in
            map (show_ticket list.now lists) (take 50 (drop before (belonging list.now lists)))) }
    {
        let tickets = positions(self.book(), alloc, list, before, PAGE)?;
        Ok(List::new(all_shown(alloc, tickets)?))
    }

    // The numbers of a check-in list.
    pub(crate) fn status(&self, alloc: Global, id: u64) -> Result<Reply, AllocError>
        ensures { IfOkIs result
            (status_told self.now.state.lists (checkin_list_at id self.now.state.lists)) }
    {
        match self.book().checkin_list(id) {
            None => Ok(no_list(Kind::Status)),
            Some(list) => Ok(Reply::Status(status(self.book(), alloc, list)?)),
        }
    }
}

fn all_shown(alloc: Global, tickets: Vec<ListedTicket>) -> Result<Vec<Shown>, AllocError>
    ensures { IfOk result (λ rows. rows.items ≡ map (λ ticket. Shown.Ticket ticket) tickets.items) }
{
    tickets.into_iter().map(Shown::Ticket).collect(alloc)
}

// There is no such check-in list.
fn no_list(kind: Kind) -> Reply
    ensures { result ≡ Reply.Refused kind (Refusal.Door DoorRefusal.NoList) }
{
    Reply::Refused(kind, Refusal::Door(DoorRefusal::NoList))
}

// No such position belongs to the list.
fn invalid() -> Reply
    ensures { result ≡ Reply.Refused Kind.One (Refusal.Door DoorRefusal.Invalid) }
{
    Reply::Refused(Kind::One, Refusal::Door(DoorRefusal::Invalid))
}
