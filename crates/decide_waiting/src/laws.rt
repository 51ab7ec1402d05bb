//! Laws of the decisions on the waiting list.

ghost use Rattle.std.specs.Prelude.{◌≡◌, ◌≤◌, ◌+◌, ℕ, Ok, IsPermutation};
ghost use Rattle.std.specs.List.Sorted.{IsStrictlySortedBy};
ghost use Rattle.base_values.specs.Draws.{IsDraw};
ghost use Rattle.base_values.specs.declared.draw.Draw.{Draw};
ghost use Rattle.model_catalogue.specs.declared.rows.Quota.{Quota};
ghost use Rattle.model_rows.specs.Lists.{Lists, State};
ghost use Rattle.model_rows.specs.Takes.{places_used};
ghost use Rattle.model_rows.specs.Usage.{usage_of};
ghost use Rattle.model_rows.specs.Waits.{waiters};
ghost use Rattle.base_tables.specs.Tables.{AreInOrder};
ghost use Rattle.model_invariant.specs.Sound.{IsSound};
ghost use Rattle.model_commands.specs.FitRequests.{IsFitWaiting, IsFitWaitingPatch};
ghost use Rattle.decide_waiting.specs.Done.{EntryJoined, EntryChanged, VoucherSent};
ghost use Rattle.decide_waiting.specs.Left.{entry_left};
ghost use Rattle.decide_waiting.specs.Sending.{place_in};
ghost use Rattle.decide_waiting.specs.Steps.{TradesPlace};
ghost use Rattle.decide_waiting.specs.Serving.{all_served, queue, turn};
ghost use Rattle.decide_waiting.specs.Steps.{served_in_turn};

/// The queue has the entries without voucher, all of them and no others. Where ids rise, each entry goes before all that
/// stand behind it: by priority downward, then by the moment it was made, then by id.
pub fn the_queue_is_in_turn()
    ensures same_entries { (lists : Lists) → IsPermutation (waiters lists) (queue lists) }
    ensures earlier_first { (lists : Lists) → AreInOrder (λ e. e.id) lists.waiting →
        IsStrictlySortedBy turn (queue lists) }
{}

/// Sending a voucher to a waiting entry leaves every quota's usage as it was: one waits less, and one is blocked more,
/// in exactly the quotas of the product.
pub fn sending_keeps_usage()
    ensures trades { (sent : VoucherSent) (quota : Quota) → IsSound sent.before →
        TradesPlace quota sent.row.product
        (usage_of sent.before.lists sent.before.moment quota)
        (usage_of sent.after.lists sent.after.moment quota) }
    ensures used { (sent : VoucherSent) (quota : Quota) → IsSound sent.before →
        places_used sent.after quota ≡ places_used sent.before quota }
{}

/// Serving one after another, each tested in the box office as it then is, sends to those who are chosen at once by the box
/// office as it is before, in their order, and leads to the same box office.
pub fn serving_is_at_once()
    ensures { (draw : Draw) (state : State) →
        IsSound state → served_in_turn draw state ≡ all_served draw state }
{}

/// Serving leaves every quota's usage as it was.
pub fn serving_keeps_usage()
    ensures { (draw : Draw) (state : State) (quota : Quota) → IsSound state →
        places_used (all_served draw state).0 quota ≡ places_used state quota }
{}

/// Joining uses one place more in each quota of the product, and leaves all others as they were.
pub fn joining_takes_one()
    ensures { (joined : EntryJoined) (quota : Quota) → IsSound joined.before
        → places_used joined.after quota
        ≡ places_used joined.before quota + place_in quota joined.row.product }
{}

/// Another priority uses as much as the old one, and leaving raises no usage.
pub fn others_raise_none()
    ensures changed { (changed : EntryChanged) (quota : Quota) → IsSound changed.before →
        places_used changed.after quota ≡ places_used changed.before quota }
    ensures left { (id : ℕ) (before after : State) (quota : Quota) → IsSound before →
        entry_left id before ≡ Ok after → places_used after quota ≤ places_used before quota }
{}

/// A sound box office stays sound where somebody joins, leaves or gets another priority, where a voucher is sent to an
/// entry, and where all are served.
pub fn waiting_keeps_sound()
    ensures joined { (joined : EntryJoined) →
        IsFitWaiting joined.request → IsSound joined.before → IsSound joined.after }
    ensures changed { (changed : EntryChanged) →
        IsFitWaitingPatch changed.patch → IsSound changed.before → IsSound changed.after }
    ensures left { (id : ℕ) (before after : State) →
        IsSound before → entry_left id before ≡ Ok after → IsSound after }
    ensures sent { (sent : VoucherSent) →
        IsDraw sent.draw → IsSound sent.before → IsSound sent.after }
    ensures served { (draw : Draw) (before : State) →
        IsDraw draw → IsSound before → IsSound (all_served draw before).0 }
{}
