//! The words for a refusal.

ghost use Rattle.std.specs.Prelude.{◌≡◌, IfOk};
ghost use Rattle.std.specs.Option.{option_copied};
ghost use Rattle.web_responses.specs.Faults.{fault_body};
ghost use Rattle.web_responses.specs.Refusals.{catalogue_detail, voucher_detail, order_detail, waiting_detail, door_detail, detail, quota_of, quota_named, refusal_body, numbered_body, wrong_status_body, reason_of, door_body, sent_status, told_status, told_body, manner_of, status_in, refusal_data, refused_response};
ghost use Rattle.web_json.specs.Made.{MakesJson};

use crate::faults::fault_value;
use crate::responses::{detail_value, value_response};
use crate::table::row_of;
use base_values::{Response, StatusCode};
use model_catalogue::CatalogueRefusal;
use model_commands::{DoorRefusal, Kind, OrderRefusal, Refusal, VoucherRefusal, WaitingRefusal};
use model_faults::{Fault, Field, Problem};
use model_rows::Status;
use serde_json::{Value, json};
use std::alloc::{AllocError, Global};

/// The sentence that tells a refusal of the catalogue.
fn catalogue_detail(refusal: CatalogueRefusal) -> Option<&'static str>
    ensures { option_copied result ≡ catalogue_detail refusal }
{
    match refusal {
        CatalogueRefusal::Memory => None,
        CatalogueRefusal::NoItem => Some("Item not found."),
        CatalogueRefusal::NoVariation => Some("Variation not found."),
        CatalogueRefusal::NeedsVariation => Some("Variation needed."),
        CatalogueRefusal::NoQuota => Some("Quota not found."),
        CatalogueRefusal::BadMember => Some("Wrong members."),
        CatalogueRefusal::Inactive => Some("Not active."),
        CatalogueRefusal::Full => Some("Shop is full."),
        CatalogueRefusal::Plain => Some("Item has no variations."),
        CatalogueRefusal::NotSold => Some("In no quota."),
    }
}

/// The sentence that tells a refusal of a voucher.
fn voucher_detail(refusal: VoucherRefusal) -> Option<&'static str>
    ensures { option_copied result ≡ voucher_detail refusal }
{
    match refusal {
        VoucherRefusal::Memory => None,
        VoucherRefusal::Catalogue(refusal) => catalogue_detail(refusal),
        VoucherRefusal::TooLarge => None,
        VoucherRefusal::CodeTaken => Some("Code is taken."),
        VoucherRefusal::BadTarget => Some("Wrong target."),
        VoucherRefusal::CannotBlock => Some("Cannot block."),
        VoucherRefusal::NoVoucher => Some("Voucher not found."),
        VoucherRefusal::VoucherExpired => Some("Voucher is expired."),
        VoucherRefusal::NoHeadroom => Some("Voucher has no uses left."),
        VoucherRefusal::WrongProduct => Some("Voucher does not fit."),
        VoucherRefusal::InUse => Some("In use."),
        VoucherRefusal::SoldOut(_) => Some("Sold out."),
        VoucherRefusal::ReservedCode => Some("Code is reserved."),
        VoucherRefusal::OverBudget => Some("Voucher budget is spent."),
    }
}

/// The sentence that tells a refusal of a call on carts and orders.
fn order_detail(refusal: OrderRefusal) -> Option<&'static str>
    ensures { option_copied result ≡ order_detail refusal }
{
    match refusal {
        OrderRefusal::Memory => None,
        OrderRefusal::Voucher(refusal) => voucher_detail(refusal),
        OrderRefusal::NoPosition => None,
        OrderRefusal::NoOrder => None,
        OrderRefusal::WrongStatus(_) => None,
        OrderRefusal::Empty => Some("No positions."),
        OrderRefusal::TooMany => Some("Too many."),
        OrderRefusal::BadCart => Some("Wrong cart."),
    }
}

/// The sentence that tells a refusal of a call on the waiting list.
fn waiting_detail(refusal: WaitingRefusal) -> Option<&'static str>
    ensures { option_copied result ≡ waiting_detail refusal }
{
    match refusal {
        WaitingRefusal::Memory => None,
        WaitingRefusal::Catalogue(refusal) => catalogue_detail(refusal),
        WaitingRefusal::SoldOut(_) => Some("Sold out."),
        WaitingRefusal::StillAvailable => Some("Still available."),
        WaitingRefusal::AlreadyWaiting => Some("Already waiting."),
        WaitingRefusal::AlreadySent => Some("Already sent."),
        WaitingRefusal::NoEntry => None,
    }
}

/// The sentence that tells a refusal of a call of the doors; what they say of a ticket is no sentence but a word.
fn door_detail(refusal: DoorRefusal) -> Option<&'static str>
    ensures { option_copied result ≡ door_detail refusal }
{
    match refusal {
        DoorRefusal::Catalogue(refusal) => catalogue_detail(refusal),
        _ => None,
    }
}

/// The sentence that tells a refusal.
fn detail(refusal: Refusal) -> Option<&'static str>
    ensures { option_copied result ≡ detail refusal }
{
    match refusal {
        Refusal::Catalogue(refusal) => catalogue_detail(refusal),
        Refusal::Voucher(refusal) => voucher_detail(refusal),
        Refusal::Order(refusal) => order_detail(refusal),
        Refusal::Waiting(refusal) => waiting_detail(refusal),
        Refusal::Door(refusal) => door_detail(refusal),
        Refusal::NoPage => None,
    }
}

/// The quota that is sold out.
fn quota_of(refusal: VoucherRefusal) -> Option<u64>
    ensures { result ≡ quota_of refusal }
{
    match refusal {
        VoucherRefusal::SoldOut(quota) => Some(quota),
        _ => None,
    }
}

/// The quota that a refusal names: the one that is sold out.
fn quota_named(refusal: Refusal) -> Option<u64>
    ensures { result ≡ quota_named refusal }
{
    match refusal {
        Refusal::Voucher(refusal) => quota_of(refusal),
        Refusal::Order(OrderRefusal::Voucher(refusal)) => quota_of(refusal),
        Refusal::Waiting(WaitingRefusal::SoldOut(quota)) => Some(quota),
        _ => None,
    }
}

/// Number, sentence, and the quota that is named.
fn refusal_value(
    alloc: Global,
    number: u8,
    text: &str,
    quota: Option<u64>,
) -> Result<Value, AllocError>
    ensures { MakesJson result (refusal_body number text.now quota) }
{
    match quota {
        None => json!(in alloc; {"code": number, "detail": text}),
        Some(quota) => json!(in alloc; {"code": number, "detail": text, "quota": quota}),
    }
}

/// A refusal by its number and its sentence.
fn numbered_value(alloc: Global, refusal: Refusal) -> Result<Value, AllocError>
    ensures { MakesJson result (numbered_body refusal (detail refusal)) }
{
    let number = refusal.number();
    match detail(refusal) {
        None => json!(in alloc; {}),
        Some(text) => refusal_value(alloc, number, text, quota_named(refusal)),
    }
}

/// A voucher's value is out of range.
fn too_large(alloc: Global) -> Result<Value, AllocError>
    ensures { MakesJson result
        (fault_body (record { field = Field.Value; problem = Problem.OutOfRange })) }
{
    let fault = Fault {
        field: Field::Value,
        problem: Problem::OutOfRange,
    };
    fault_value(alloc, fault)
}

/// Number 42, its sentence, and the order's status.
fn wrong_status_value(alloc: Global, status: Status) -> Result<Value, AllocError>
    ensures { MakesJson result (wrong_status_body status) }
{
    let letter = status.letter();
    json!(in alloc; {"code": 42, "detail": "Not possible in this status.", "status": letter})
}

/// The word by which a door says why a ticket isn't let in.
fn reason_of(refusal: DoorRefusal) -> Option<&'static str>
    ensures { option_copied result ≡ reason_of refusal }
{
    match refusal {
        DoorRefusal::Invalid => Some("invalid"),
        DoorRefusal::Canceled => Some("canceled"),
        DoorRefusal::Product => Some("product"),
        DoorRefusal::Unpaid => Some("unpaid"),
        DoorRefusal::AlreadyRedeemed => Some("already_redeemed"),
        _ => None,
    }
}

/// A refusal of the doors, by its word where it has one, else by its number and its sentence.
fn door_value(alloc: Global, refusal: DoorRefusal) -> Result<Value, AllocError>
    ensures { MakesJson result (door_body refusal (reason_of refusal)) }
{
    match reason_of(refusal) {
        None => numbered_value(alloc, Refusal::Door(refusal)),
        Some(word) => json!(in alloc; {"reason": word, "status": "error"}),
    }
}

/// The status for an entry of the waiting list that was sent its voucher: 400 where it is to be sent another, and 403
/// where it is to be changed or deleted.
fn sent_status(kind: Kind) -> StatusCode
    ensures { result ≡ sent_status kind }
{
    match kind {
        Kind::SendVoucher => StatusCode::BAD_REQUEST,
        _ => StatusCode::FORBIDDEN,
    }
}

/// The status of a refusal that the kind of request can have: 404 for a page or a ticket that isn't there, 403 for what
/// is forbidden, else 400.
fn told_status(kind: Kind, refusal: Refusal) -> StatusCode
    ensures { result ≡ told_status kind refusal }
{
    match refusal {
        Refusal::NoPage => StatusCode::NOT_FOUND,
        Refusal::Door(DoorRefusal::Invalid) => StatusCode::NOT_FOUND,
        Refusal::Voucher(VoucherRefusal::InUse) => StatusCode::FORBIDDEN,
        Refusal::Waiting(WaitingRefusal::AlreadySent) => sent_status(kind),
        _ => StatusCode::BAD_REQUEST,
    }
}

/// The body for a refusal that the kind of request can have.
fn told_value(alloc: Global, refusal: Refusal) -> Result<Value, AllocError>
    ensures { MakesJson result (told_body refusal) }
{
    match refusal {
        Refusal::Voucher(VoucherRefusal::TooLarge) => too_large(alloc),
        Refusal::NoPage => detail_value(alloc, "Invalid page."),
        Refusal::Order(OrderRefusal::WrongStatus(status)) => wrong_status_value(alloc, status),
        Refusal::Door(refusal) => door_value(alloc, refusal),
        _ => numbered_value(alloc, refusal),
    }
}

/// How a request is told a refusal.
#[derive(Clone, Copy, PartialEq, Eq)]
pub(crate) enum Manner {
    /// What its path names isn't there.
    Missing,
    /// By the words of the refusal.
    Told,
    /// Not at all: no request of that kind is refused so.
    Untold,
}

/// How a request of that kind is told that refusal.
fn manner_of(kind: Kind, refusal: Refusal) -> Manner
    ensures { result ≡ manner_of kind refusal }
{
    let row = row_of(kind);
    let number = refusal.number();
    if row.missing.contains(&number) {
        Manner::Missing
    } else if row.others.contains(&number) {
        Manner::Told
    } else {
        Manner::Untold
    }
}

/// The status of a refusal that is told in that manner.
fn status_in(manner: Manner, kind: Kind, refusal: Refusal) -> StatusCode
    ensures { result ≡ status_in manner kind refusal }
{
    match manner {
        Manner::Missing => StatusCode::NOT_FOUND,
        Manner::Told => told_status(kind, refusal),
        Manner::Untold => StatusCode::OK,
    }
}

/// The body for a refusal of a request of that kind.
#[tactic(auto, unfolding(crate::specs::Refusals::refusal_data))]
pub(crate) fn refusal_data(alloc: Global, kind: Kind, refusal: Refusal) -> Result<Value, AllocError>
    ensures { MakesJson result (refusal_data kind refusal) }
{
    match manner_of(kind, refusal) {
        Manner::Missing => detail_value(alloc, "Not found."),
        Manner::Told => told_value(alloc, refusal),
        Manner::Untold => json!(in alloc; {}),
    }
}

/// The words for a refusal of a request of that kind.
#[tactic(auto, unfolding(crate::specs::Refusals::refused_response))]
pub(crate) fn refused_response(
    alloc: Global,
    kind: Kind,
    refusal: Refusal,
) -> Result<Response, AllocError>
    ensures { IfOk result (λ t. t ≡ refused_response kind refusal) }
{
    let value = refusal_data(alloc, kind, refusal)?;
    let status = status_in(manner_of(kind, refusal), kind, refusal);
    value_response(alloc, status, &value)
}
