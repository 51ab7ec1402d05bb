//! Why a stream of messages ends.

ghost use Rattle.std.specs.Prelude.{◌≡◌};
ghost use Rattle.web_http.specs.Text.{fault_status, fault_body};

use base_values::StatusCode;

/// A fault of framing: the last answer of its stream.
#[derive(Clone, Copy, Drop, PartialEq, Eq)]
pub enum FrameFault {
    /// 400: the head is none of HTTP/1.x, or its Content-Length isn't one number of 1 to 18 digits.
    BadHead,
    /// 413: the body is more than 1,048,576 bytes.
    BodyTooLarge,
    /// 431: the head is more than 16,384 bytes or 64 fields.
    HeadTooLarge,
    /// 501: there is a Transfer-Encoding.
    UnknownCoding,
}

impl FrameFault {
    /// The status of its answer: 400, 413, 431 or 501.
    pub fn status(self) -> StatusCode
        ensures { result ≡ fault_status self }
    {
        match self {
            FrameFault::BadHead => StatusCode::BAD_REQUEST,
            FrameFault::BodyTooLarge => StatusCode::PAYLOAD_TOO_LARGE,
            FrameFault::HeadTooLarge => StatusCode::REQUEST_HEADER_FIELDS_TOO_LARGE,
            FrameFault::UnknownCoding => StatusCode::NOT_IMPLEMENTED,
        }
    }

    /// The body of its answer.
    pub fn body(self) -> &'static str
        ensures { result.now ≡ fault_body self }
    {
        match self {
            FrameFault::BadHead => "{\"detail\":\"Bad request head.\"}",
            FrameFault::BodyTooLarge => "{\"detail\":\"Body too large.\"}",
            FrameFault::HeadTooLarge => "{\"detail\":\"Request head too large.\"}",
            FrameFault::UnknownCoding => "{\"detail\":\"Transfer-Encoding is not supported.\"}",
        }
    }
}
