//! Pages of lists.

ghost use Rattle.std.specs.Prelude.{◌≡◌, map};
ghost use Rattle.office_other.specs.Machine.{list_of};
ghost use Rattle.model_commands.specs.Pages.{page_listed};
ghost use Rattle.office_commands.specs.Told.{IfOkIs};

use crate::office::Office;
use crate::shown_rows::ShownRow;
use base_tables::{Row, Sparse};
use base_values::List;
use book_usage::Book;
use model_commands::pages::{is_page, page_rows, references, sparse_page_rows};
use model_commands::{Kind, Page, Refusal, Reply, Resource, Shown};
use std::alloc::{AllocError, Global};

impl<B: Book> Office<B> {
    // A page of a list.
    pub(crate) fn list(
        &self,
        alloc: Global,
        resource: Resource,
        number: u64,
    ) -> Result<Reply, AllocError>
        ensures { IfOkIs result (list_of resource number self.now.state.lists) }
    {
        let book = self.book();
        match resource {
            Resource::Items => self.page(alloc, resource, number, book.catalogue().items()),
            Resource::Quotas => self.page(alloc, resource, number, book.catalogue().quotas()),
            Resource::Vouchers => self.page(alloc, resource, number, book.vouchers()),
            Resource::Carts => self.sparse_page(alloc, resource, number, book.carts()),
            Resource::Orders => self.page(alloc, resource, number, book.orders()),
            Resource::WaitingEntries => self.sparse_page(alloc, resource, number, book.waiting()),
            Resource::CheckinLists => self.page(alloc, resource, number, book.checkin_lists()),
            Resource::Tickets(list) => self.tickets_page(alloc, list, number),
        }
    }

    // The page of that number of these rows, each as it is shown.
    fn page<R: ShownRow>(
        &self,
        alloc: Global,
        resource: Resource,
        number: u64,
        rows: &[R],
    ) -> Result<Reply, AllocError>
        ensures { IfOkIs result
            (page_listed resource (R.show self.now.state.lists) number rows.now) }
    {
        let count = rows.len();
        if !is_page(number, count) {
            return Ok(no_page());
        }
        let page = references(alloc, page_rows(rows, number))?;
        self.shown_page(alloc, resource, number, count, &page)
    }

    // Answers a page of rows that come and go: those before the page are passed one after another.
    fn sparse_page<R: ShownRow + Row + Drop>(
        &self,
        alloc: Global,
        resource: Resource,
        number: u64,
        rows: &Sparse<R>,
    ) -> Result<Reply, AllocError>
        ensures { IfOkIs result
            (page_listed resource (R.show self.now.state.lists) number rows.now.rows) }
    {
        let count = rows.len();
        if !is_page(number, count) {
            return Ok(no_page());
        }
        let page = sparse_page_rows(alloc, rows, number)?;
        self.shown_page(alloc, resource, number, count, &page)
    }

    // The page of that number with these rows, of so many.
    fn shown_page<R: ShownRow>(
        &self,
        alloc: Global,
        resource: Resource,
        number: u64,
        count: usize,
        rows: &[&R],
    ) -> Result<Reply, AllocError>
        ensures { IfOkIs result (Reply.Listed (record {
          resource = resource;
          number = number;
          count = count;
          rows = map (R.show self.now.state.lists) (map (λ r. r.now) rows.now);
        })) }
    {
        let rows = self.shown_rows(alloc, rows)?;
        Ok(Reply::Listed(Page {
            resource,
            number,
            count: count as u64,
            rows,
        }))
    }

    // Each of these rows as it is shown.
    fn shown_rows<R: ShownRow>(&self, alloc: Global, rows: &[&R]) -> Result<List<Shown>, AllocError>
        ensures { IfOkIs result (map (R.show self.now.state.lists) (map (λ r. r.now) rows.now)) }
    {
        let mut shown = Vec::new(alloc);
        for row in rows {
            shown.push(row.shown(self, alloc)?)?;
        }
        Ok(List::new(shown))
    }
}

// There is no such page.
pub(crate) fn no_page() -> Reply
    ensures { result ≡ Reply.Refused Kind.List Refusal.NoPage }
{
    Reply::Refused(Kind::List, Refusal::NoPage)
}
