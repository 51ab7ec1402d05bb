//! Laws of the decisions.

ghost use Rattle.std.specs.Prelude.{◌≡◌, ◌≢◌, ℕ, ◌+◌, ◌≤◌, ◌⊎◌, true, false, List, [], ◌∷◌, ◌++◌, length, take, Some, None, Ok, Err};
ghost use Rattle.std.specs.List.{AllByRecursion};
ghost use Rattle.base_values.specs.Draws.{IsDraw};
ghost use Rattle.base_values.specs.declared.draw.Draw.{Draw};
ghost use Rattle.model_catalogue.specs.CatalogueLists.{quota_at};
ghost use Rattle.model_catalogue.specs.declared.rows.Quota.{Quota};
ghost use Rattle.model_rows.specs.Lists.{Lists, State, order_at};
ghost use Rattle.model_rows.specs.Over.{ignores};
ghost use Rattle.model_rows.specs.declared.rows.Order.{Order};
ghost use Rattle.model_rows.specs.declared.rows.OrderPos.{OrderPos};
ghost use Rattle.model_rows.specs.declared.rows.Own.{Own};
ghost use Rattle.model_rows.specs.declared.rows.Status.{Status};
ghost use Rattle.model_rows.specs.Refills.{refills};
ghost use Rattle.model_rows.specs.Usage.{spent};
ghost use Rattle.model_invariant.specs.Sound.{IsSound};
ghost use Rattle.model_rows.specs.Conditions.{is_in_force};
ghost use Rattle.model_commands.specs.FitRequests.{IsFitCart, IsFitEntry, IsFitOrder, IsFitMove};
ghost use Rattle.model_commands.specs.declared.carts.Asked.{Asked};
ghost use Rattle.model_commands.specs.declared.carts.Entry.{Entry};
ghost use Rattle.model_commands.specs.declared.carts.NewCart.{NewCart};
ghost use Rattle.model_commands.specs.declared.orders.NewOrder.{NewOrder};
ghost use Rattle.model_commands.specs.declared.carts.Outcome.{Outcome};
ghost use Rattle.model_commands.specs.declared.orders.OrderRefusal.{OrderRefusal};
ghost use Rattle.model_commands.specs.declared.vouchers.VoucherRefusal.{VoucherRefusal};
ghost use Rattle.decide_orders.specs.Bulk.{all_added, many_added};
ghost use Rattle.decide_orders.specs.Steps.{after_outcomes};
ghost use Rattle.decide_orders.specs.Carts.{position_added};
ghost use Rattle.decide_orders.specs.Created.{after_rows, order_created, order_row, rows_for, with_order_row, with_positions, rows_asked};
ghost use Rattle.decide_orders.specs.Done.{CartAdded, OrderMade, OrderMoved, IsRevival};
ghost use Rattle.decide_orders.specs.Dropped.{position_dropped};
ghost use Rattle.decide_orders.specs.Expired.{orders_expired, carts_dropped};
ghost use Rattle.decide_orders.specs.Whole.{put_whole};
ghost use Rattle.model_rows.specs.Takes.{places_used, TakesNoMore};
ghost use Rattle.decide_orders.specs.Places.{own_positions, NoneIsOver, AllHeed};

/// Each cart position that is added was weighed: it takes too much of no quota, where the position itself
/// doesn't weigh if its voucher ignores quotas.
pub fn added_none_over()
    ensures { (added : CartAdded) →
        NoneIsOver (Own.Cart added.row.id ∷ []) added.before added.after }
{}

/// Where its voucher, if it names one, heeds quotas, what is used afterwards is within each quota's size, or no
/// more than was used before.
pub fn added_takes_no_more()
    ensures { (added : CartAdded) → ignores added.after.lists added.row.voucher ≡ false →
        TakesNoMore added.before added.after }
{}

/// Each entry of a bulk call is decided by itself, after those before it: entries in two calls, one after the other,
/// add what all of them add in one, and have the same outcomes.
pub fn bulk_is_each_by_itself()
    ensures { (xs ys : List Entry) (draw : Draw) (state : State) →
        all_added (xs ++ ys) draw state ≡
        after_outcomes (all_added xs draw state).1 (all_added ys draw (all_added xs draw state).0) }
{}

/// A sound box office stays sound where cart positions are added, one or many in one call, or one is deleted: before and
/// after it no voucher is named by more order positions in force and live cart positions than it may be used.
pub fn carts_keep_sound()
    ensures added { (added : CartAdded) → IsFitCart added.request → IsDraw added.draw →
        IsSound added.before → IsSound added.after }
    ensures many { (entries : List Entry) (draw : Draw) (before after : State)
        (outcomes : List Outcome) →
        AllByRecursion IsFitEntry entries → IsDraw draw → IsSound before →
        many_added entries draw before ≡ Ok (after, outcomes) → IsSound after }
    ensures dropped { (id : ℕ) (before after : State) →
        IsSound before → position_dropped id before ≡ Ok after → IsSound after }
{}

/// A cart position that is deleted raises no quota's usage.
pub fn dropping_lowers()
    ensures { (id : ℕ) (before after : State) (quota : Quota) →
        position_dropped id before ≡ Ok after → places_used after quota ≤ places_used before quota }
{}

/// Each order that is made was weighed, without the carts that it consumes: it takes too much of no quota, where
/// a position doesn't weigh if its voucher ignores quotas.
pub fn created_none_over()
    ensures { (made : OrderMade) →
        NoneIsOver (own_positions made.rows.positions) made.before made.after }
{}

/// Where all vouchers of its positions heed quotas, what is used afterwards is within each quota's size, or no more
/// than was used before.
pub fn created_takes_no_more()
    ensures { (made : OrderMade) → AllHeed made.after.lists made.rows.positions →
        TakesNoMore made.before made.after }
{}

/// A box office in which no voucher is named too often, whose ids rise, and whose rows name what stands,
/// is still one when an order is made.
pub fn created_sound()
    ensures { (made : OrderMade) → IsFitOrder made.request → IsDraw made.draw →
        IsSound made.before → IsSound made.after }
{}

/// The uses of an order's vouchers are tested position by position, each against what those before it left. In a sound box
/// office that is one test of the whole: it refuses exactly where, with all positions put, some voucher is named more often
/// than it may be; elsewhere all of them are put.
pub fn uses_are_tested_as_a_whole()
    ensures { (new : NewOrder) (draw : Draw) (state : State) (rows : List OrderPos) →
        IsSound state → rows_asked draw state new.positions ≡ Ok rows →
        let placed = with_order_row (order_row new state) new.consume_carts state in
        with_positions rows (Ok placed) ≡ put_whole rows placed }
{}

/// The positions of an order are priced in turn: more that is asked comes behind the rows of those in front, and is priced
/// within what all of them leave of its voucher's budget. A refusal of one in front refuses all.
pub fn an_order_is_priced_in_turn()
    ensures rows { (draw : Draw) (state : State) (before rows : List OrderPos) (id number : ℕ)
        (xs ys : List Asked) →
        rows_for draw state before id number xs ≡ Ok rows →
        rows_for draw state before id number (xs ++ ys) ≡ after_rows rows
        (rows_for draw state (before ++ rows) (id + length rows) (number + length rows) ys) }
    ensures refused { (draw : Draw) (state : State) (before : List OrderPos) (id number : ℕ)
        (xs ys : List Asked) (refusal : OrderRefusal) →
        rows_for draw state before id number xs ≡ Err refusal →
        rows_for draw state before id number (xs ++ ys) ≡ Err refusal }
{}

/// An order whose positions give no price is never refused for a budget (34): in a sound box office each takes off no more than
/// is left, and all of them together stay within each budget. A given price isn't changed, and may take off too much.
pub fn asked_prices_fit()
    ensures { (new : NewOrder) (draw : Draw) (state : State) → IsSound state →
        AllByRecursion (λ asked. asked.price ≡ None) new.positions →
        order_created new draw state ≢ Err (OrderRefusal.Voucher VoucherRefusal.OverBudget) }
{}

/// A cart position is never refused for a budget, and takes nothing of one.
pub fn carts_take_no_budget()
    ensures unrefused { (new : NewCart) (draw : Draw) (state : State) →
        position_added new draw state ≢ Err (OrderRefusal.Voucher VoucherRefusal.OverBudget) }
    ensures spent { (added : CartAdded) (voucher : ℕ) →
        spent voucher added.after.lists ≡ spent voucher added.before.lists }
{}

/// Each order that comes back to life was weighed: it takes too much of no quota, where its positions don't weigh if
/// their vouchers ignore quotas. Where all of them heed quotas, what is used afterwards is within each quota's size, or
/// no more than was used before.
pub fn revivals_take_no_more()
    ensures none_over { (moved : OrderMoved) (old : Order) → IsRevival old moved →
        NoneIsOver (own_positions moved.rows.positions) moved.before moved.after }
    ensures takes { (moved : OrderMoved) (old : Order) → IsRevival old moved →
        IsSound moved.before → AllHeed moved.after.lists moved.rows.positions →
        TakesNoMore moved.before moved.after }
{}

/// In a sound box office no other move raises the usage of a quota that stands, unless it takes places of it again that exits set
/// free: a payment that is taken back, where the quota releases places, and a paid order that ends while the voucher of one who
/// has gone out blocks a place of it. Of a quota that keeps its places no move takes one again.
pub fn other_moves_lower()
    ensures lower { (moved : OrderMoved) (old : Order) (quota : Quota) → IsSound moved.before →
        quota_at quota.id moved.before.lists.catalogue ≡ Some quota →
        order_at moved.number moved.before.lists ≡ Some old →
        (is_in_force old.status ≡ true) ⊎ (is_in_force moved.rows.order.status ≡ false) →
        refills moved.before.lists moved.before.moment quota old moved.rows.order.status ≡ false →
        places_used moved.after quota ≤ places_used moved.before quota }
    ensures kept { (lists : Lists) (at : ℕ) (quota : Quota) (old : Order) (status : Status) →
        quota.release_after_exit ≡ false → refills lists at quota old status ≡ false }
{}

/// A sound box office stays sound where an order is moved, to an end that is a moment.
pub fn moves_keep_sound()
    ensures { (moved : OrderMoved) →
        IsFitMove moved.change → IsSound moved.before → IsSound moved.after }
{}

/// The first 501 entries of a bulk call, and the first 501 positions of an order, are answered as all of them are: who
/// reads a request needs to hand on no more of it.
pub fn the_first_are_enough()
    ensures entries { (entries : List Entry) (draw : Draw) (state : State) →
        many_added (take 501 entries) draw state ≡ many_added entries draw state }
    ensures positions { (new : NewOrder) (draw : Draw) (state : State) →
        order_created (record new { positions = take 501 new.positions }) draw state
        ≡ order_created new draw state }
{}

/// In a sound box office no quota that stands is used more than before where overdue orders expire, nor is any where dead
/// cart positions are deleted.
pub fn overdue_lowers()
    ensures expired { (state : State) (quota : Quota) →
        IsSound state → quota_at quota.id state.lists.catalogue ≡ Some quota →
        places_used (orders_expired state) quota ≤ places_used state quota }
    ensures dropped { (state : State) (quota : Quota) →
        IsSound state → places_used (carts_dropped state) quota ≤ places_used state quota }
{}

/// A sound box office stays sound where overdue orders expire, and where dead cart positions are deleted.
pub fn overdue_keeps_sound()
    ensures expired { (state : State) → IsSound state → IsSound (orders_expired state) }
    ensures dropped { (state : State) → IsSound state → IsSound (carts_dropped state) }
{}
