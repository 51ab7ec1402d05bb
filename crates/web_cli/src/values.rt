//! The values of a line.

ghost use Rattle.std.specs.Prelude.{◌≡◌, option_map};
ghost use Rattle.std.specs.List.{list_all};
ghost use Rattle.web_cli.specs.Values.{AreServeValues, connections_of, door_by, feed_values, is_token, is_token_byte, report_of, sales_by};

use crate::argument::Argument;
use base_dates::read_moment;
use base_values::{Moment, number_of};
use std::net::SocketAddr;

/// The most seconds from one tick to the next, a year.
const MOST_STEP: u64 = 31_536_000;

/// The most connections that are counted.
const MOST_CONNECTIONS: u64 = 1_000_000;

/// The values of `--from` and `--step`: a moment, and 0 to 31536000 seconds as plain digits; or the first of the two that can't be read.
pub fn feed_values(from: &str, step: &str) -> Result<(Moment, u64), Argument>
    ensures { result ≡ feed_values from.now step.now }
{
    let Ok(from) = read_moment(from) else {
        return Err(Argument::From);
    };
    match number_of(step.as_bytes()) {
        Some(step) if step <= MOST_STEP => Ok((from, step)),
        _ => Err(Argument::Step),
    }
}

// The value of `--connections`, which is 0 where it isn't there.
fn connections_of(text: Option<&str>) -> Option<u64>
    ensures { result ≡ connections_of (option_map (λ t. t.now) text.entry) }
{
    let Some(text) = text else {
        return Some(0);
    };
    match number_of(text.as_bytes()) {
        Some(connections) if connections <= MOST_CONNECTIONS => Some(connections),
        _ => None,
    }
}

/// The values of `--listen` and `--connections`: an IP address with a port, as `SocketAddr` reads it, and 0 to 1000000 connections as
/// plain digits, 0 where they are left out; or which of the two can't be read.
pub fn read_options(listen: &str, connections: Option<&str>) -> Result<(SocketAddr, u64), Argument>
    ensures { AreServeValues listen.now (option_map (λ t. t.now) connections.entry) result }
{
    let Ok(addr) = listen.parse::<SocketAddr>() else {
        return Err(Argument::Listen);
    };
    match connections_of(connections) {
        Some(connections) => Ok((addr, connections)),
        None => Err(Argument::Connections),
    }
}

/// Which report on a shop is asked for.
#[derive(Clone, Copy, PartialEq, Eq)]
pub enum Report {
    /// What was sold.
    Sales,
    /// Who came in by the check-in list of this number.
    Door(u64),
    /// Of which version its tables are, once `migrate` has brought them to this program's.
    Version,
}

/// Why the words of a line ask for no report.
#[derive(Clone, Copy, PartialEq, Eq)]
pub enum ReportFault {
    /// There is no report of this name.
    Unknown,
    /// The report of this name has no list.
    HasNoList,
    /// The report of this name needs a list.
    NeedsList,
    /// The list's number can't be read.
    Argument,
}

// The report on what was sold, which has no list.
fn sales_by(list: Option<&str>) -> Result<Report, ReportFault>
    ensures { result ≡ sales_by (option_map (λ t. t.now) list.entry) }
{
    match list {
        None => Ok(Report::Sales),
        Some(_) => Err(ReportFault::HasNoList),
    }
}

// The report on a check-in list, which has to be there.
fn door_by(list: Option<&str>) -> Result<Report, ReportFault>
    ensures { result ≡ door_by (option_map (λ t. t.now) list.entry) }
{
    let Some(text) = list else {
        return Err(ReportFault::NeedsList);
    };
    match number_of(text.as_bytes()) {
        Some(number) => Ok(Report::Door(number)),
        None => Err(ReportFault::Argument),
    }
}

/// The report that a name and the value of `--list` ask for: `sales` without a list, `door` with one, 1 to 18 digits.
pub fn report_of(name: &str, list: Option<&str>) -> Result<Report, ReportFault>
    ensures { result ≡ report_of name.now (option_map (λ t. t.now) list.entry) }
{
    match name {
        "sales" => sales_by(list),
        "door" => door_by(list),
        _ => Err(ReportFault::Unknown),
    }
}

/// Whether a text is a token: 1 to 254 ASCII letters, digits and signs, none of them a space.
#[tactic(auto, unfolding(crate::specs::Values::is_token))]
pub fn is_token(text: &str) -> bool
    ensures { result ≡ is_token text.now }
{
    let bytes = text.as_bytes();
    !bytes.is_empty() && bytes.len() <= 254 && are_token_bytes(bytes)
}

// Whether each byte is a letter, a digit or a sign.
fn are_token_bytes(bytes: &[u8]) -> bool
    ensures { result ≡ list_all is_token_byte bytes.now }
{
    bytes.iter().all(|b| is_token_byte(*b))
}

fn is_token_byte(b: u8) -> bool
    ensures { result ≡ is_token_byte b }
{
    matches!(b, 33..=126)
}
