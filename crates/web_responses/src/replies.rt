//! The words of each reply.

ghost use Rattle.std.specs.Prelude.{◌≡◌, None, IfOk};
ghost use Rattle.std.specs.List.{list_all};
ghost use Rattle.web_responses.specs.Responses.{response};
ghost use Rattle.web_responses.specs.Results.{results_body};
ghost use Rattle.web_json.specs.Rows.{shown_body, availability_body};
ghost use Rattle.web_json.specs.WaitingRows.{periodic_body};
ghost use Rattle.web_json.specs.DoorRows.{admitted_body, door_status_body};
ghost use Rattle.web_responses.specs.Replies.{gone_response, untold, is_made, stands_alone, is_row_of, made_response, found_response, page_response, words};

use crate::pages::append_page;
use crate::refusals::refused_response;
use crate::responses::value_response;
use crate::results::append_results;
use base_values::{Body, Response, StatusCode};
use model_commands::{DoorStatus, Outcome, Page, PeriodicCounts, Reply, Resource, Shown};
use model_rows::{Availability, OrderPos};
use serde_json::json;
use std::alloc::{AllocError, Global};
use web_json::{
    admitted_value, append_shown, availability_value, door_status_value, periodic_value,
};

/// That status and that body, with no methods.
fn told(status: StatusCode, body: Vec<u8>) -> Response
    ensures { result ≡ record { status = status; allow = None; body = body.items } }
{
    Response {
        status,
        allow: None,
        body: Body::new(body),
    }
}

/// That status, and a row as it is shown.
fn row_response(alloc: Global, status: StatusCode, shown: &Shown) -> Result<Response, AllocError>
    ensures { IfOk result (λ t. t ≡ response status None (shown_body shown.now)) }
{
    let mut body = Vec::new(alloc);
    append_shown(alloc, &mut body, shown)?;
    Ok(told(status, body))
}

/// 200 `{}`, for a reply that no request leads to.
fn untold(alloc: Global) -> Result<Response, AllocError>
    ensures { IfOk result (λ t. t ≡ untold) }
{
    let value = json!(in alloc; {})?;
    value_response(alloc, StatusCode::OK, &value)
}

/// Whether a request makes a row of that kind; a check-in list's positions are made with their orders.
fn is_made(shown: &Shown) -> bool
    ensures { result ≡ is_made shown.now }
{
    !matches!(shown, Shown::Ticket(_))
}

/// 201 and a row that was made.
fn made_response(alloc: Global, shown: &Shown) -> Result<Response, AllocError>
    ensures { IfOk result (λ t. t ≡ made_response shown.now) }
{
    if is_made(shown) {
        row_response(alloc, StatusCode::CREATED, shown)
    } else {
        untold(alloc)
    }
}

/// Whether the row is ever shown by itself but where it is made.
fn stands_alone(shown: &Shown) -> bool
    ensures { result ≡ stands_alone shown.now }
{
    !matches!(shown, Shown::Variation(_) | Shown::Ticket(_))
}

/// 200 and a row that stands.
fn found_response(alloc: Global, shown: &Shown) -> Result<Response, AllocError>
    ensures { IfOk result (λ t. t ≡ found_response shown.now) }
{
    if stands_alone(shown) {
        row_response(alloc, StatusCode::OK, shown)
    } else {
        untold(alloc)
    }
}

/// Whether the list has rows of that kind.
fn is_row_of(resource: Resource, shown: &Shown) -> bool
    ensures { result ≡ is_row_of resource shown.now }
{
    match resource {
        Resource::Items => matches!(shown, Shown::Item(_)),
        Resource::Quotas => matches!(shown, Shown::Quota(_)),
        Resource::Vouchers => matches!(shown, Shown::Voucher(_, _)),
        Resource::Carts => matches!(shown, Shown::Cart(_)),
        Resource::Orders => matches!(shown, Shown::Order(_)),
        Resource::WaitingEntries => matches!(shown, Shown::Waiting(_)),
        Resource::CheckinLists => matches!(shown, Shown::CheckinList(_)),
        Resource::Tickets(_) => matches!(shown, Shown::Ticket(_)),
    }
}

/// Whether the list has rows of the kinds of all these.
fn are_rows_of(resource: Resource, rows: &[Shown]) -> bool
    ensures { result ≡ list_all (is_row_of resource) rows.now }
{
    rows.iter().all(|row| is_row_of(resource, row))
}

/// 200 and a page of a list.
fn page_response(
    alloc: Global,
    organizer: &str,
    event: &str,
    page: &Page,
) -> Result<Response, AllocError>
    ensures { IfOk result (λ t. t ≡ page_response organizer.now event.now page.now) }
{
    if !are_rows_of(page.resource, page.rows.as_slice()) {
        return untold(alloc);
    }
    let mut body = Vec::new(alloc);
    append_page(alloc, &mut body, organizer, event, page)?;
    Ok(told(StatusCode::OK, body))
}

/// 200 and what became of each entry of a bulk call.
fn results_response(alloc: Global, outcomes: &[Outcome]) -> Result<Response, AllocError>
    ensures { IfOk result (λ t. t ≡ response 200 None (results_body outcomes.now)) }
{
    let mut body = Vec::new(alloc);
    append_results(alloc, &mut body, outcomes)?;
    Ok(told(StatusCode::OK, body))
}

/// 204 with no body.
fn gone_response(alloc: Global) -> Response
    ensures { result ≡ gone_response }
{
    told(StatusCode::NO_CONTENT, Vec::new(alloc))
}

/// 200 and what is left of a quota.
fn availability_response(alloc: Global, left: &Availability) -> Result<Response, AllocError>
    ensures { IfOk result (λ t. t ≡ response 200 None (availability_body left.now)) }
{
    let value = availability_value(alloc, left)?;
    value_response(alloc, StatusCode::OK, &value)
}

/// 200 and what periodic work did.
fn periodic_response(alloc: Global, counts: PeriodicCounts) -> Result<Response, AllocError>
    ensures { IfOk result (λ t. t ≡ response 200 None (periodic_body counts)) }
{
    let value = periodic_value(alloc, counts)?;
    value_response(alloc, StatusCode::OK, &value)
}

/// 201 and the position that was let in or out.
fn admitted_response(alloc: Global, position: &OrderPos) -> Result<Response, AllocError>
    ensures { IfOk result (λ t. t ≡ response 201 None (admitted_body position.now)) }
{
    let value = admitted_value(alloc, position)?;
    value_response(alloc, StatusCode::CREATED, &value)
}

/// 200 and the numbers of a check-in list.
fn status_response(alloc: Global, door: DoorStatus) -> Result<Response, AllocError>
    ensures { IfOk result (λ t. t ≡ response 200 None (door_status_body door)) }
{
    let value = door_status_value(alloc, door)?;
    value_response(alloc, StatusCode::OK, &value)
}

/// The words of a reply, in the shop of these slugs: 201 for what was made and for a ticket that was let in or out, 200
/// for what was asked for, for a bulk call and for periodic work, 204 for what was deleted, and for a refusal its status, its number and its sentence. A reply that no request
/// leads to has 200 and `{}`.
#[tactic(auto, unfolding(crate::specs::Replies::words))]
pub fn words(
    alloc: Global,
    organizer: &str,
    event: &str,
    reply: &Reply,
) -> Result<Response, AllocError>
    ensures { IfOk result (λ response. response ≡ words organizer.now event.now reply.now) }
{
    match reply {
        Reply::Made(shown) => made_response(alloc, shown),
        Reply::Found(shown) => found_response(alloc, shown),
        Reply::Results(outcomes) => results_response(alloc, outcomes.as_slice()),
        Reply::Imported(_) => untold(alloc),
        Reply::Listed(page) => page_response(alloc, organizer, event, page),
        Reply::Gone => Ok(gone_response(alloc)),
        Reply::Availability(left) => availability_response(alloc, left),
        Reply::Periodic(counts) => periodic_response(alloc, *counts),
        Reply::Admitted(position) => admitted_response(alloc, position),
        Reply::Status(door) => status_response(alloc, *door),
        Reply::Refused(kind, refusal) => refused_response(alloc, *kind, *refusal),
    }
}
