//! Laws of the decisions on vouchers.

ghost use Rattle.std.specs.Prelude.{◌≡◌, ◌≤◌, ℕ, false, None, Ok, []};
ghost use Rattle.base_values.specs.declared.draw.Draw.{Draw};
ghost use Rattle.model_catalogue.specs.declared.rows.Quota.{Quota};
ghost use Rattle.model_rows.specs.Lists.{State};
ghost use Rattle.model_rows.specs.Over.{first_over};
ghost use Rattle.model_invariant.specs.Sound.{IsSound};
ghost use Rattle.model_rows.specs.Takes.{places_used, TakesNoMore};
ghost use Rattle.model_rows.specs.Named.{voucher_of};
ghost use Rattle.base_values.specs.Draws.{IsDraw};
ghost use Rattle.model_commands.specs.FitRequests.{IsFitVoucher, IsFitVoucherPatch};
ghost use Rattle.model_invariant.specs.MadeCodes.{made_code};
ghost use Rattle.decide_vouchers.specs.Done.{VoucherMade, VoucherChanged};
ghost use Rattle.decide_vouchers.specs.Deleted.{voucher_deleted};

use base_values::Draw;

/// No voucher that is made, and that doesn't ignore quotas, leaves a quota over: what is used afterwards is within
/// the quota's size, or no more than was used before.
pub fn making_takes_no_more()
    ensures none_over { (made : VoucherMade) → made.row.allow_ignore_quota ≡ false →
        first_over made.before.lists made.after.lists made.before.moment [] ≡ None }
    ensures takes { (made : VoucherMade) → made.row.allow_ignore_quota ≡ false →
        TakesNoMore made.before made.after }
{}

/// No voucher that is changed, and that afterwards doesn't ignore quotas, leaves a quota over: what is used
/// afterwards is within the quota's size, or no more than was used before.
pub fn changing_takes_no_more()
    ensures none_over { (changed : VoucherChanged) → changed.row.allow_ignore_quota ≡ false →
        first_over changed.before.lists changed.after.lists changed.before.moment [] ≡ None }
    ensures takes { (changed : VoucherChanged) → changed.row.allow_ignore_quota ≡ false →
        TakesNoMore changed.before changed.after }
{}

/// A voucher that is deleted raises no quota's usage.
pub fn deleting_lowers()
    ensures { (id : ℕ) (before after : State) (quota : Quota) →
        voucher_deleted id before ≡ Ok after → places_used after quota ≤ places_used before quota }
{}

/// A sound box office stays sound where a voucher is made, changed or deleted. What is asked is within its limits, as that
/// of each request is: its type keeps it so.
pub fn vouchers_keep_sound()
    ensures made { (made : VoucherMade) → IsFitVoucher made.request → IsDraw made.draw →
        IsSound made.before → IsSound made.after }
    ensures changed { (changed : VoucherChanged) → IsFitVoucherPatch changed.patch →
        IsSound changed.before → IsSound changed.after }
    ensures deleted { (id : ℕ) (before after : State) →
        IsSound before → voucher_deleted id before ≡ Ok after → IsSound after }
{}

/// Each draw is sixteen bytes.
pub fn draws_are_sixteen_bytes(draw: Draw)
    ensures { IsDraw draw }
{
    let _bytes = draw.bytes;
}

/// In a sound box office no voucher has the code that the next one gets where none is given, whatever the draw.
pub fn made_codes_are_free()
    ensures { (draw : Draw) (state : State) →
        IsDraw draw → IsSound state →
        voucher_of (made_code draw state.next.voucher) state.lists ≡ None }
{}
