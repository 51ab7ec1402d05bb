//! The status of an answer.

ghost use Rattle.std.specs.Prelude.{◌≡◌};
ghost use Rattle.base_values.specs.StatusCode.{IsStatusCode};

use std::marker::Model;

/// The status of an answer, a number of three digits.
#[derive(Clone, Copy, PartialEq, Eq)]
pub struct StatusCode {
    code: u16,
}

impl Model for StatusCode {
    ghost use Rattle.std.specs.Prelude.{ℕ};
    ghost use Rattle.base_values.specs.StatusCode.{IsStatusCode};

    ghost Value = { ℕ };

    ghost view = { λ s. s.code };

    ghost invariant = { λ s. IsStatusCode s.code };

    ghost inverse = { λ n. record { code = n } };
}

impl StatusCode {
    /// 200: it was done, or is told.
    pub const OK: StatusCode = StatusCode { code: 200 };
    /// 201: a row was made.
    pub const CREATED: StatusCode = StatusCode { code: 201 };
    /// 204: a row is gone.
    pub const NO_CONTENT: StatusCode = StatusCode { code: 204 };
    /// 400: it can't be read, or is refused.
    pub const BAD_REQUEST: StatusCode = StatusCode { code: 400 };
    /// 401: there is no token, or none that is known.
    pub const UNAUTHORIZED: StatusCode = StatusCode { code: 401 };
    /// 403: other rows forbid it.
    pub const FORBIDDEN: StatusCode = StatusCode { code: 403 };
    /// 404: there is no such path, row or page.
    pub const NOT_FOUND: StatusCode = StatusCode { code: 404 };
    /// 405: the path has other methods.
    pub const METHOD_NOT_ALLOWED: StatusCode = StatusCode { code: 405 };
    /// 413: the body is too large.
    pub const PAYLOAD_TOO_LARGE: StatusCode = StatusCode { code: 413 };
    /// 431: the head is too large.
    pub const REQUEST_HEADER_FIELDS_TOO_LARGE: StatusCode = StatusCode { code: 431 };
    /// 501: a coding that isn't known.
    pub const NOT_IMPLEMENTED: StatusCode = StatusCode { code: 501 };
    /// 503: there is no memory, or the store refused; nothing has changed.
    pub const SERVICE_UNAVAILABLE: StatusCode = StatusCode { code: 503 };

    /// The status of this number, which has three digits.
    pub fn new(code: u16) -> Self
        requires { IsStatusCode code }
        ensures { result ≡ code }
    {
        StatusCode { code }
    }

    /// Its number.
    pub fn as_u16(self) -> u16
        ensures value { result ≡ self }
        ensures valid { IsStatusCode result }
    {
        self.code
    }
}
