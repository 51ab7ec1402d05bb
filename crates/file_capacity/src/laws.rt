//! Laws of what a file takes of a sound office: its changes and its counts.

ghost use Rattle.std.specs.Prelude.{◌≤◌, ◌*◌, ℕ};
ghost use Rattle.base_values.specs.Money.{last_cents};
ghost use Rattle.model_catalogue.specs.declared.rows.Quota.{Quota};
ghost use Rattle.model_catalogue.specs.Limits.{most_rows};
ghost use Rattle.model_rows.specs.Lists.{State};
ghost use Rattle.model_rows.specs.Usage.{redeemed, spent, usage_of};
ghost use Rattle.office_runs.specs.Promises.{InEachSoundRun};
ghost use Rattle.model_invariant.specs.Sound.{IsSound};
ghost use Rattle.file_capacity.specs.Bounded.{IsBounded};
ghost use Rattle.file_capacity.specs.Taken.{TakesItsChanges};

/// Whatever commands come to a sound office, a file takes the changes of each step: the members of each quota and the items of each
/// check-in list rise, and no voucher is put after one was dropped. So no write is refused for its changes.
pub fn a_file_takes_what_a_step_changes()
    ensures { InEachSoundRun TakesItsChanges }
{}

/// No count of a sound office comes near 2^64: the rows of a table, 1,000,000 at most, count once each, and as many vouchers block at most
/// 1,000,000 places each. Of a voucher no more is spent than 99,999,999.99 for each order position. So each fits in the 64 bits in
/// which a file has it.
pub fn counts_stay_small()
    ensures quotas { (state : State) → IsSound state →
        (quota : Quota) → IsBounded (usage_of state.lists state.moment quota) }
    ensures vouchers { (state : State) → IsSound state →
        (voucher : ℕ) → redeemed voucher state.lists ≤ most_rows }
    ensures spents { (state : State) → IsSound state →
        (voucher : ℕ) → spent voucher state.lists ≤ most_rows * last_cents }
{}
