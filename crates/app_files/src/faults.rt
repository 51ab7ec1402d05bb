//! Refusals of a shop's file, and of a voucher file, as the program tells them.

ghost use Rattle.std.specs.Prelude.{◌≡◌};
ghost use Rattle.app_files.specs.Faults.{fault_of_file, fault_of_making, fault_of_opening, fault_of_token};

use app_csv::FileFault;
use file_scan::OpenError;
use file_tables::{CreateError, TokenError};
use web_cli::RunFault;

/// Why a shop isn't made, as the program tells it.
pub fn fault_of_making(error: CreateError) -> RunFault
    ensures { result ≡ fault_of_making error }
{
    match error {
        CreateError::NotBlank => RunFault::NotAShop,
        CreateError::Memory => RunFault::Memory,
        CreateError::Store => RunFault::Store,
    }
}

/// Why a file isn't opened, as the program tells it.
pub fn fault_of_opening(error: OpenError) -> RunFault
    ensures { result ≡ fault_of_opening error }
{
    match error {
        OpenError::Memory => RunFault::Memory,
        OpenError::NotAShop => RunFault::NotAShop,
        OpenError::Version(_) => RunFault::Version,
        OpenError::Damaged(rule) => RunFault::Damaged(rule),
        OpenError::Store => RunFault::Store,
    }
}

/// Why a token isn't added, as the program tells it.
pub fn fault_of_token(error: TokenError) -> RunFault
    ensures { result ≡ fault_of_token error }
{
    match error {
        TokenError::Full => RunFault::Full,
        TokenError::Memory => RunFault::Memory,
        TokenError::Store => RunFault::Store,
    }
}

/// Why the vouchers of a file can't be read, as the program tells it.
pub fn fault_of_file(fault: FileFault) -> RunFault
    ensures { result ≡ fault_of_file fault }
{
    match fault {
        FileFault::Memory => RunFault::Memory,
        FileFault::Header => RunFault::Header,
        FileFault::Line(line) => RunFault::Line(line),
        FileFault::Column(line, at) => RunFault::Column(line, at),
        FileFault::TooMany => RunFault::TooManyLines,
    }
}
