//! A token is added to the shop in a database.

ghost use Rattle.std.specs.Prelude.{◌≡◌};
ghost use Rattle.sha2.specs.Sha256.{sha256};
ghost use Rattle.app_files.specs.Came.{CameTo};
ghost use Rattle.app_files.specs.Faults.{told_of_token};
ghost use Rattle.app_files.specs.Filed.{AddsOver, AddsTokenIn};

use crate::faults::fault_of_token;
use crate::filed::{Filed, Opened, connection_of};
use crate::opening::open_shop;
use book_usage::Book;
use file_tables::{TokenError, add_token};
use sha2::{Digest, Sha256};
use sqlite::{Alter, Connection};
use std::alloc::Global;
use web_cli::{Console, RunFault};

// What is told of a token.
fn told(added: Result<u64, TokenError>) -> Result<u64, RunFault>
    ensures { result ≡ told_of_token added }
{
    match added {
        Ok(number) => Ok(number),
        Err(error) => Err(fault_of_token(error)),
    }
}

// Adds a token to a shop that was opened, whose office is let go.
fn add_over<S: Alter + Drop, B: Book + Drop>(opened: Opened<S, B>, token: &str) -> Filed<S, u64>
    ensures { AddsOver S.Store opened.tables (sha256 token.now) result.connection result.outcome }
{
    let mut made = opened;
    let added = add_token(&mut made.tables, &Sha256::digest(token.as_bytes()));
    Filed {
        connection: connection_of(made),
        outcome: told(added),
    }
}

/// `token-add`: opens the shop in a database and adds a token, which is known by its SHA-256 alone; tells the token's number. One that was
/// added before keeps its number, and nothing changes. Faults: 60, 61 and 62 where the database holds no shop that is whole, each for its
/// cause alone; 16 where the token is new and the shop has 1,000,000 of them; 6 and 63. Beside a fault nothing has changed. A crash leaves
/// the shop as it was, or with the token where it is new.
pub fn add_shop_token<O: Console, S: Alter + Drop>(
    rt: &O,
    alloc: Global,
    connection: Connection<S>,
    token: &str,
) -> Filed<S, u64>
    ensures { CameTo S.Store (AddsTokenIn S.Store (sha256 token.now)) connection result }
{
    match open_shop(rt, alloc, connection) {
        Ok(opened) => add_over(opened, token),
        Err(filed) => filed,
    }
}
