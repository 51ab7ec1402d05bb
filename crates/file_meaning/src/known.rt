//! What types promise of changes and of an answer: nothing is done with them, and a caller learns the promise.

ghost use Rattle.std.specs.Prelude.{IfSome};
ghost use Rattle.std.specs.List.{AllByRecursion};
ghost use Rattle.std.specs.Str.{IsUtf8};
ghost use Rattle.model_answers.specs.ShopView.{kept_listed};
ghost use Rattle.file_rows.specs.Changes.{head_of_voucher, head_of_position};
ghost use Rattle.file_meaning.specs.Typed.{IsTypedVoucher, IsTypedPosition, IsTypedChange, IsTypedKept};

use base_values::{Known, Text};
use model_answers::Kept;
use model_rows::{Change, OrderPos, Voucher};

fn text_known(text: &Text)
    ensures { IsUtf8 text.now }
{
    let _bytes = text.as_str().as_bytes();
}

fn some_known(text: &Option<Text>)
    ensures { IfSome text.now IsUtf8 }
{
    if let Some(text) = text {
        text_known(text);
    }
}

fn voucher_known(row: &Voucher)
    ensures { IsTypedVoucher (head_of_voucher row.now) }
{
    text_known(&row.code);
    text_known(&row.tag);
    text_known(&row.comment);
}

fn position_known(row: &OrderPos)
    ensures { IsTypedPosition (head_of_position row.now) }
{
    let _place = row.positionid;
    text_known(&row.secret);
}

// Of the row that a change puts.
fn change_known(change: &Change)
    ensures { IsTypedChange change.now }
{
    match change {
        Change::PutItem(row) => text_known(&row.name),
        Change::PutVariation(row) => text_known(&row.name),
        Change::PutQuota(row) => text_known(&row.name),
        Change::PutVoucher(row) => voucher_known(row),
        Change::PutCart(row) => text_known(&row.cart_id),
        Change::PutOrder(row) => some_known(&row.email),
        Change::PutPosition(row) => position_known(row),
        Change::PutWaiting(row) => text_known(&row.email),
        Change::PutCheckinList(row) => text_known(&row.name),
        Change::PutCheckin(row) => some_known(&row.nonce),
        Change::DropVoucher(_) | Change::DropCart(_) | Change::DropWaiting(_) => {}
    }
}

/// What types promise of the row that each change puts.
pub fn changes_known(changes: &[Change])
    ensures { AllByRecursion IsTypedChange changes.now }
{
    for change in changes {
        change_known(change);
    }
}

/// What types promise of an answer that is kept.
pub fn answer_known(kept: Option<&Kept>)
    ensures { AllByRecursion IsTypedKept (kept_listed kept.entry) }
{
    if let Some(answer) = kept {
        answer.at.recall_invariant();
        let _status = answer.response.status.as_u16();
    }
}
