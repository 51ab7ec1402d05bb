//! Which refusals each kind of request can have.

ghost use Rattle.std.specs.Prelude.{◌≡◌};
ghost use Rattle.web_responses.specs.Table.{row_of};

use model_commands::Kind;

/// Refusals by number, of one kind of request.
#[derive(Drop)]
pub(crate) struct KindRefusals {
    /// The refusals which say that what the path names isn't there.
    pub(crate) missing: &'static [u8],
    /// The others, in the order of the tests.
    pub(crate) others: &'static [u8],
}

fn numbers(missing: &'static [u8], others: &'static [u8]) -> KindRefusals
    ensures missing { result.missing.now ≡ missing.now }
    ensures others { result.others.now ≡ others.now }
{
    KindRefusals { missing, others }
}

/// The table. What isn't in it is told by no request.
pub(crate) fn row_of(kind: Kind) -> KindRefusals
    ensures missing { result.missing.now ≡ (row_of kind).missing }
    ensures others { result.others.now ≡ (row_of kind).others }
{
    match kind {
        Kind::AddItem => numbers(&[], &[16]),
        Kind::ChangeItem => numbers(&[10], &[]),
        Kind::AddVariation => numbers(&[10], &[17, 16]),
        Kind::AddQuota => numbers(&[], &[10, 11, 14, 16]),
        Kind::ResizeQuota => numbers(&[13], &[]),
        Kind::AddVoucher => numbers(&[], &[2, 33, 20, 10, 11, 13, 21, 22, 28, 16]),
        Kind::ChangeVoucher => numbers(&[23], &[2, 33, 20, 10, 11, 13, 21, 22, 27, 25, 34, 28]),
        Kind::DropVoucher => numbers(&[23], &[27]),
        Kind::AddCart => numbers(&[], &[45, 10, 11, 12, 15, 18, 23, 24, 26, 25, 28, 16]),
        Kind::AddCarts => numbers(&[], &[44]),
        Kind::DropCart => numbers(&[40], &[]),
        Kind::AddOrder => numbers(
            &[],
            &[43, 44, 10, 11, 12, 15, 18, 23, 24, 26, 25, 34, 28, 16],
        ),
        Kind::MoveOrder => numbers(&[41], &[42, 25, 34, 28]),
        Kind::AddWaiting => numbers(&[], &[10, 11, 12, 15, 30, 29, 16]),
        Kind::ChangeWaiting => numbers(&[32], &[31]),
        Kind::DropWaiting => numbers(&[32], &[31]),
        Kind::SendVoucher => numbers(&[32], &[31, 15, 18, 28, 16]),
        Kind::Periodic => numbers(&[], &[]),
        Kind::AddCheckinList => numbers(&[], &[10, 16]),
        Kind::Redeem => numbers(&[50], &[51, 52, 53, 54, 55, 16]),
        Kind::List => numbers(&[50], &[59]),
        Kind::One => numbers(&[10, 13, 23, 40, 41, 32, 50], &[]),
        Kind::Availability => numbers(&[13], &[]),
        Kind::Status => numbers(&[50], &[]),
    }
}
