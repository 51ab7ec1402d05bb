//! What a message asks for, and how it is refused where it asks for nothing.

ghost use Rattle.std.specs.Prelude.{◌≡◌, IfOk, option_map};
ghost use Rattle.web_bodies.specs.Body.{read_command, read_move, read_scan};
ghost use Rattle.web_api.specs.Call.{fault_response, refused_by, refused_body, write_call, missing, redeem_call, list_call, call_at, call_of};
ghost use Rattle.web_api.specs.Fit.{IsFitCall};
ghost use Rattle.web_api.specs.Page.{page_of};
ghost use Rattle.web_api.specs.Path.{bytes_of};
ghost use Rattle.web_api.specs.Verbs.{is_write, verb_of};

use crate::endpoint::{Endpoint, endpoint_of, methods_of};
use crate::page::page_of;
use crate::path::Target;
use crate::tickets::ticket_in;
use crate::verb::{Verb, verb_of};
use base_values::{Known, Response};
use model_commands::{Command, Query, Resource};
use std::alloc::{AllocError, Global};
use web_bodies::{Form, MoveName, read_command, read_move, read_scan};
use web_fields::{BodyFault, ReadError};
use web_http::Frame;
use web_responses::{
    field_fault, invalid_data, invalid_page, method_not_allowed, not_found, parse_error,
};

/// What a message asks for. A write stores its moment, refused or not; a read stores nothing, and neither does a
/// message without a known token.
#[derive(Drop)]
pub enum Call {
    /// 401: there is no token, or an unknown one.
    Unauthorized(Response),
    /// A request that only reads.
    Read(Query),
    /// 404 or 405 of a method that doesn't write, or 404 for the page of a list or for an order's code.
    ReadRefused(Response),
    /// A request that may change the box office.
    Write(Command),
    /// 404 or 405 of a POST, PATCH or DELETE, or 400 for its body, or after that 404 for an order's code.
    WriteRefused(Response),
}

impl Known for Call {
    ghost promise = { IsFitCall };

    fn recall_invariant(&self) {
        if let Call::Write(command) = self {
            command.recall_invariant();
        }
    }
}

/// The words for a body that isn't read.
fn fault_response(alloc: Global, fault: BodyFault) -> Result<Response, AllocError>
    ensures { IfOk result (λ response. response ≡ fault_response fault) }
{
    match fault {
        BodyFault::NotJson => parse_error(alloc),
        BodyFault::InvalidData => invalid_data(alloc),
        BodyFault::Field(fault) => field_fault(alloc, fault),
    }
}

/// A refusal of a request with that method.
fn refused(verb: Verb, response: Response) -> Call
    ensures { result ≡ refused_by (is_write verb) response }
{
    if verb.is_write() {
        Call::WriteRefused(response)
    } else {
        Call::ReadRefused(response)
    }
}

/// The refusal of a write whose body isn't read.
fn refused_body(alloc: Global, fault: BodyFault) -> Result<Call, AllocError>
    ensures { IfOk result (λ call. call ≡ refused_body fault) }
{
    Ok(Call::WriteRefused(fault_response(alloc, fault)?))
}

/// The command of a body of that form, or the refusal of the body.
fn write_call(alloc: Global, form: Form, body: &[u8]) -> Result<Call, AllocError>
    ensures { IfOk result (λ call. call ≡ write_call (read_command form body.now)) }
{
    match read_command(alloc, form, body) {
        Ok(command) => Ok(Call::Write(command)),
        Err(ReadError::Memory) => Err(AllocError),
        Err(ReadError::Body(fault)) => refused_body(alloc, fault),
    }
}

/// The refusal of a move of an order that there isn't: what is wrong with its body, or else 404.
fn missing(alloc: Global, name: MoveName, body: &[u8]) -> Result<Call, AllocError>
    ensures { IfOk result (λ call. call ≡ missing (read_move name body.now)) }
{
    match read_move(alloc, name, body) {
        Ok(_) => Ok(Call::WriteRefused(not_found(alloc)?)),
        Err(ReadError::Memory) => Err(AllocError),
        Err(ReadError::Body(fault)) => refused_body(alloc, fault),
    }
}

/// The scan of the ticket that the path names, at the check-in list with this id, or the refusal of its body.
fn redeem_call(
    alloc: Global,
    list: u64,
    ticket: Option<&[u8]>,
    body: &[u8],
) -> Result<Call, AllocError>
    ensures { IfOk result
        (λ call. call ≡ redeem_call list (option_map bytes_of ticket.entry) (read_scan body.now)) }
{
    match read_scan(alloc, body) {
        Ok(scan) => {
            let ticket = ticket_in(alloc, ticket)?;
            Ok(Call::Write(Command::Redeem(list, ticket, scan)))
        }
        Err(ReadError::Memory) => Err(AllocError),
        Err(ReadError::Body(fault)) => refused_body(alloc, fault),
    }
}

/// The page of a list that a target asks for, or the refusal of the page.
fn list_call(alloc: Global, resource: Resource, target: &[u8]) -> Result<Call, AllocError>
    ensures { IfOk result (λ call. call ≡ list_call resource (page_of target.now)) }
{
    match page_of(alloc, target)? {
        None => Ok(Call::ReadRefused(invalid_page(alloc)?)),
        Some(page) => Ok(Call::Read(Query::List(resource, page))),
    }
}

/// What a message asks for at a target, with the text in the place of a ticket.
fn call_at(
    alloc: Global,
    frame: &Frame<'_>,
    ticket: Option<&[u8]>,
    target: Target,
) -> Result<Call, AllocError>
    ensures { IfOk result
        (λ call. call ≡ call_at frame.now (option_map bytes_of ticket.entry) target) }
{
    let method = frame.method();
    let verb = verb_of(method);
    match endpoint_of(target, verb) {
        None => {
            let response = method_not_allowed(alloc, method, methods_of(target))?;
            Ok(refused(verb, response))
        }
        Some(Endpoint::Page(resource)) => list_call(alloc, resource, frame.target()),
        Some(Endpoint::Read(query)) => Ok(Call::Read(query)),
        Some(Endpoint::Write(form)) => write_call(alloc, form, frame.body()),
        Some(Endpoint::ReadMissing) => Ok(Call::ReadRefused(not_found(alloc)?)),
        Some(Endpoint::MoveMissing(name)) => missing(alloc, name, frame.body()),
        Some(Endpoint::Redeem(list)) => redeem_call(alloc, list, ticket, frame.body()),
    }
}

/// What a message with a known token asks for, by what its target names, and the text in the place of a ticket.
pub(crate) fn call_of(
    alloc: Global,
    frame: &Frame<'_>,
    ticket: Option<&[u8]>,
    target: Option<Target>,
) -> Result<Call, AllocError>
    ensures { IfOk result
        (λ call. call ≡ call_of frame.now (option_map bytes_of ticket.entry) target) }
{
    match target {
        None => Ok(refused(verb_of(frame.method()), not_found(alloc)?)),
        Some(target) => call_at(alloc, frame, ticket, target),
    }
}
