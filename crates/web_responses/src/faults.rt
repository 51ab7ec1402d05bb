//! The words for a request that can't be read.

ghost use Rattle.std.specs.Prelude.{◌≡◌, IfOk, string_bytes};
ghost use Rattle.web_responses.specs.Faults.{fault_body, field_fault, parse_error, invalid_data, no_credentials, invalid_token, not_found, invalid_page, method_text, method_not_allowed};
ghost use Rattle.web_json.specs.Made.{MakesJson};

use crate::responses::{detailed, response};
use base_values::{Methods, Response, StatusCode};
use model_faults::Fault;
use serde_json::{Value, json};
use std::alloc::{AllocError, Global};

/// `{"field":["text"]}`.
pub(crate) fn fault_value(alloc: Global, fault: Fault) -> Result<Value, AllocError>
    ensures { MakesJson result (fault_body fault) }
{
    let name = fault.field.name();
    let text = fault.problem.text();
    json!(in alloc; {name: [text]})
}

/// 400 `{"field":["text"]}`.
#[tactic(auto, unfolding(crate::specs::Faults::field_fault))]
pub fn field_fault(alloc: Global, fault: Fault) -> Result<Response, AllocError>
    ensures { IfOk result (λ response. response ≡ field_fault fault) }
{
    let value = fault_value(alloc, fault)?;
    response(alloc, StatusCode::BAD_REQUEST, None, &value)
}

/// 400 `JSON parse error.`: the body is no JSON.
#[tactic(auto, unfolding(crate::specs::Faults::parse_error))]
pub fn parse_error(alloc: Global) -> Result<Response, AllocError>
    ensures { IfOk result (λ response. response ≡ parse_error) }
{
    detailed(alloc, StatusCode::BAD_REQUEST, None, "JSON parse error.")
}

/// 400 `Invalid data.`: the body is JSON of another kind than the request has.
#[tactic(auto, unfolding(crate::specs::Faults::invalid_data))]
pub fn invalid_data(alloc: Global) -> Result<Response, AllocError>
    ensures { IfOk result (λ response. response ≡ invalid_data) }
{
    detailed(alloc, StatusCode::BAD_REQUEST, None, "Invalid data.")
}

/// 401 `Authentication credentials were not provided.`
#[tactic(auto, unfolding(crate::specs::Faults::no_credentials))]
pub fn no_credentials(alloc: Global) -> Result<Response, AllocError>
    ensures { IfOk result (λ response. response ≡ no_credentials) }
{
    detailed(
        alloc,
        StatusCode::UNAUTHORIZED,
        None,
        "Authentication credentials were not provided.",
    )
}

/// 401 `Invalid token.`
#[tactic(auto, unfolding(crate::specs::Faults::invalid_token))]
pub fn invalid_token(alloc: Global) -> Result<Response, AllocError>
    ensures { IfOk result (λ response. response ≡ invalid_token) }
{
    detailed(alloc, StatusCode::UNAUTHORIZED, None, "Invalid token.")
}

/// 404 `Not found.`
#[tactic(auto, unfolding(crate::specs::Faults::not_found))]
pub fn not_found(alloc: Global) -> Result<Response, AllocError>
    ensures { IfOk result (λ response. response ≡ not_found) }
{
    detailed(alloc, StatusCode::NOT_FOUND, None, "Not found.")
}

/// 404 `Invalid page.`
#[tactic(auto, unfolding(crate::specs::Faults::invalid_page))]
pub fn invalid_page(alloc: Global) -> Result<Response, AllocError>
    ensures { IfOk result (λ response. response ≡ invalid_page) }
{
    detailed(alloc, StatusCode::NOT_FOUND, None, "Invalid page.")
}

/// `Method "M" not allowed.`
fn method_text(alloc: Global, method: &[u8]) -> Result<String, AllocError>
    ensures { IfOk result (λ s. string_bytes s ≡ method_text method.now) }
{
    let method = String::from_utf8_lossy(alloc, method)?;
    format!(in alloc; "Method \"{method}\" not allowed.")
}

/// 405 `Method "M" not allowed.`, with the methods that the path has.
/// The method stands in the text as the head gives it.
#[tactic(auto, unfolding(crate::specs::Faults::method_not_allowed))]
pub fn method_not_allowed(
    alloc: Global,
    method: &[u8],
    methods: Methods,
) -> Result<Response, AllocError>
    ensures { IfOk result (λ response. response ≡ method_not_allowed method.now methods) }
{
    let text = method_text(alloc, method)?;
    detailed(
        alloc,
        StatusCode::METHOD_NOT_ALLOWED,
        Some(methods),
        text.as_str(),
    )
}
