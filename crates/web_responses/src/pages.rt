//! A page of a list, and the paths of the pages beside it.

ghost use Rattle.std.specs.Prelude.{◌≡◌, ◌+◌, ◌*◌, nat_lt, Some, None, IfOk, if◌then◌else◌, string_bytes};
ghost use Rattle.serde_json.specs.Data.{object, no_members};
ghost use Rattle.web_responses.specs.Pages.{resource_path, page_path, next_path, previous_path, page_members, page_body};
ghost use Rattle.web_json.specs.Rows.{shown_body};
ghost use Rattle.web_json.specs.Made.{AppendsJson, MakesJson};

use model_commands::{Page, Resource, Shown};
use serde_json::{Value, json};
use std::alloc::{AllocError, Global};
use web_json::{WriteRow, append_list_member, append_opened, append_shown, append_text};

/// The part of a list's path that is its own.
fn resource_path(alloc: Global, resource: Resource) -> Result<String, AllocError>
    ensures { IfOk result (λ s. string_bytes s ≡ resource_path resource) }
{
    match resource {
        Resource::Items => String::from_str(alloc, "/items/"),
        Resource::Quotas => String::from_str(alloc, "/quotas/"),
        Resource::Vouchers => String::from_str(alloc, "/vouchers/"),
        Resource::Carts => String::from_str(alloc, "/cartpositions/"),
        Resource::Orders => String::from_str(alloc, "/orders/"),
        Resource::WaitingEntries => String::from_str(alloc, "/waitinglistentries/"),
        Resource::CheckinLists => String::from_str(alloc, "/checkinlists/"),
        Resource::Tickets(list) => format!(in alloc; "/checkinlists/{list}/positions/"),
    }
}

/// The path of the page with that number.
#[tactic(auto, unfolding(crate::specs::Pages::page_path))]
fn page_path(
    alloc: Global,
    organizer: &str,
    event: &str,
    resource: Resource,
    number: u64,
) -> Result<String, AllocError>
    ensures { IfOk result
        (λ s. string_bytes s ≡ page_path organizer.now event.now resource number) }
{
    let path = resource_path(alloc, resource)?;
    format!(in alloc; "/api/v1/organizers/{organizer}/events/{event}{path}?page={number}")
}

/// The number of the next page of a list with that count of rows, if rows are left for it.
fn next_number(number: u64, count: u64) -> Option<u64>
    ensures { result ≡ (if nat_lt (number * 50) count then Some (number + 1) else None) }
{
    if u128::from(number) * 50 < u128::from(count) {
        Some(number + 1)
    } else {
        None
    }
}

/// The path of the next page, or null where no rows are left for one.
fn next_value(alloc: Global, organizer: &str, event: &str, page: &Page) -> Result<Value, AllocError>
    ensures { MakesJson result (next_path organizer.now event.now page.now) }
{
    match next_number(page.number, page.count) {
        Some(number) => {
            let path = page_path(alloc, organizer, event, page.resource, number)?;
            Ok(Value::String(path))
        }
        None => Ok(Value::Null),
    }
}

/// The path of the page before it, or null where it is the first one.
fn previous_value(
    alloc: Global,
    organizer: &str,
    event: &str,
    page: &Page,
) -> Result<Value, AllocError>
    ensures { MakesJson result (previous_path organizer.now event.now page.now) }
{
    if page.number > 1 {
        let path = page_path(alloc, organizer, event, page.resource, page.number - 1)?;
        Ok(Value::String(path))
    } else {
        Ok(Value::Null)
    }
}

/// Writes the rows of a page.
struct ShownWriter;

impl WriteRow<Shown> for ShownWriter {
    ghost body = { λ _ shown. shown_body shown };

    fn append(&self, alloc: Global, out: &mut Vec<u8>, row: &Shown) -> Result<(), AllocError> {
        append_shown(alloc, out, row)
    }
}

/// A page without its rows, in the shop of these slugs.
fn page_value(alloc: Global, organizer: &str, event: &str, page: &Page) -> Result<Value, AllocError>
    ensures { MakesJson result (object (page_members organizer.now event.now page.now no_members)) }
{
    let next = next_value(alloc, organizer, event, page)?;
    let previous = previous_value(alloc, organizer, event, page)?;
    json!(in alloc; {"count": page.count, "next": next, "previous": previous})
}

/// Appends a page of a list, in the shop of these slugs.
pub(crate) fn append_page(
    alloc: Global,
    out: &mut Vec<u8>,
    organizer: &str,
    event: &str,
    page: &Page,
) -> Result<(), AllocError>
    ensures { AppendsJson result out.old out.new (page_body organizer.now event.now page.now) }
{
    let value = page_value(alloc, organizer, event, page)?;
    let rows = page.rows.as_slice();
    append_opened(alloc, out, &value)?;
    append_list_member(alloc, out, "results", &ShownWriter, rows)?;
    append_text(out, "}")
}
