//! Why a body isn't read.

ghost use Rattle.std.specs.Prelude.{◌≡◌, Err};
ghost use Rattle.web_fields.specs.Reading.{fault, fault_of};
ghost use Rattle.web_fields.specs.declared.error.ReadError.TheVariants.{Memory, Body};

use model_faults::{Fault, Field, Problem};
use std::alloc::AllocError;

/// What is wrong with a body.
#[derive(Clone, Copy, PartialEq, Eq)]
pub enum BodyFault {
    /// It is no JSON or no UTF-8, or nests deeper than 127.
    NotJson,
    /// It is no object, or for a bulk call no list.
    InvalidData,
    /// A field is wrong.
    Field(Fault),
}

/// Why a body isn't read.
#[derive(Clone, Copy, PartialEq, Eq)]
pub enum ReadError {
    /// There is no memory.
    Memory,
    /// The body is wrong.
    Body(BodyFault),
}

impl From<AllocError> for ReadError {
    ghost from_gives = { λ _ e. e ≡ Memory };

    fn from(_e: AllocError) -> ReadError {
        ReadError::Memory
    }
}

impl From<BodyFault> for ReadError {
    ghost from_gives = { λ f e. e ≡ Body f };

    fn from(fault: BodyFault) -> ReadError {
        ReadError::Body(fault)
    }
}

impl BodyFault {
    /// A fault's problem, of that field, as a list names what is wrong with its entries.
    pub fn of(self, field: Field) -> Self
        ensures { result ≡ fault_of field self }
    {
        match self {
            BodyFault::Field(Fault { problem, .. }) => BodyFault::Field(Fault { field, problem }),
            other => other,
        }
    }
}

/// The fault that says what is wrong with a field.
pub(crate) fn fault<T>(field: Field, problem: Problem) -> Result<T, BodyFault>
    ensures { result ≡ Err (fault field problem) }
{
    Err(BodyFault::Field(Fault { field, problem }))
}
