//! What is told, from a status and a value.

ghost use Rattle.std.specs.Prelude.{◌≡◌, false, None, IfOk};
ghost use Rattle.serde_json.specs.View.{view};
ghost use Rattle.serde_json.specs.Written.{has_float};
ghost use Rattle.web_responses.specs.Responses.{response, detail_body};
ghost use Rattle.web_json.specs.Made.{MakesJson};

use base_values::{Body, Methods, Response, StatusCode};
use serde_json::{Value, json};
use std::alloc::{AllocError, Global};

/// That status, those methods, and the value as JSON without spaces.
pub(crate) fn response(
    alloc: Global,
    status: StatusCode,
    allow: Option<Methods>,
    value: &Value,
) -> Result<Response, AllocError>
    requires { has_float (view value.now) ≡ false }
    ensures { IfOk result (λ t. t ≡ response status allow (view value.now)) }
{
    let body = Body::new(value.to_vec(alloc)?);
    Ok(Response {
        status,
        allow,
        body,
    })
}

/// A response with this value as its body, and no methods.
pub(crate) fn value_response(
    alloc: Global,
    status: StatusCode,
    value: &Value,
) -> Result<Response, AllocError>
    requires { has_float (view value.now) ≡ false }
    ensures { IfOk result (λ t. t ≡ response status None (view value.now)) }
{
    response(alloc, status, None, value)
}

/// `{"detail":"text"}`.
pub(crate) fn detail_value(alloc: Global, text: &str) -> Result<Value, AllocError>
    ensures { MakesJson result (detail_body text.now) }
{
    json!(in alloc; {"detail": text})
}

/// `{"detail":"text"}` with that status and those methods.
pub(crate) fn detailed(
    alloc: Global,
    status: StatusCode,
    allow: Option<Methods>,
    text: &str,
) -> Result<Response, AllocError>
    ensures { IfOk result (λ t. t ≡ response status allow (detail_body text.now)) }
{
    let value = detail_value(alloc, text)?;
    response(alloc, status, allow, &value)
}
