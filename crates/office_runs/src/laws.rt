//! Laws of every run of commands. Each command that comes is fit to come: its type keeps what it asks within its limits, and
//! its draw is sixteen bytes. A bulk call is the steps of its entries, and an import those of its rows: see
//! `bulk_calls_run_their_entries`.

ghost use Rattle.std.specs.Prelude.{◌≡◌, ℕ, true, is_some, List};
ghost use Rattle.std.specs.List.{AllByRecursion};
ghost use Rattle.model_catalogue.specs.declared.rows.Quota.{Quota};
ghost use Rattle.model_rows.specs.Lists.{State};
ghost use Rattle.model_invariant.specs.Sound.{IsSound};
ghost use Rattle.office_runs.specs.Changes.{MakesItsChanges};
ghost use Rattle.base_values.specs.declared.draw.Draw.{Draw};
ghost use Rattle.office_runs.specs.Imports.{AreSameAgain, FitImport, import_done};
ghost use Rattle.model_rows.specs.declared.rows.OrderPos.{OrderPos};
ghost use Rattle.model_commands.specs.declared.doors.Scan.{Scan};
ghost use Rattle.model_commands.specs.declared.doors.Ticket.{Ticket};
ghost use Rattle.model_commands.specs.declared.replies.Reply.{Reply};
ghost use Rattle.model_commands.specs.declared.requests.Command.{Command};
ghost use Rattle.decide_door.specs.Valid.{IsStillGood};
ghost use Rattle.base_values.specs.declared.answer.Response.{Response};
ghost use Rattle.office_deliveries.specs.Deliveries.{Delivery, Opening, firsts, office};
ghost use Rattle.office_deliveries.specs.Fit.{IsFitDelivery};
ghost use Rattle.office_runs.specs.NothingTooMuch.{TakesNothingTooMuch, steps};
ghost use Rattle.office_runs.specs.Promises.{HasNoncesOnce, scan_comes, AddsNothing};
ghost use Rattle.office_runs.specs.NewIds.{AllIdsGoOn};
ghost use Rattle.office_runs.specs.Takings.{fills_again};
ghost use Rattle.office_runs.specs.Runs.{Arrival, IsFitArrival, office_stepped, after_run};
ghost use Rattle.office_runs.specs.Promises.{InEachRun, InEachSoundRun, Each, NoneOver, StaysWithin, RaisesNothing, RunsItsEntries, GivesNewIds, LeavesSound, KeepsBudgets, StoresItsMoment, ChangesNothingElse, NeverGoesBack};

/// Whatever commands come, where one takes places, no quota is taken too much of: where a cart position is added, an order is
/// made, an expired order is marked paid or extended, or a voucher that then doesn't ignore quotas is made or changed. A
/// position whose voucher ignores quotas isn't weighed for its own request.
pub fn none_over()
    ensures { InEachRun (Each NoneOver) }
{}

/// Whatever commands come to a sound office, where one takes places and no voucher of its own rows ignores quotas, the usage
/// of each quota is within its size, or no more than before.
pub fn takings_stay_within()
    ensures { InEachSoundRun (Each StaysWithin) }
{}

/// Whatever commands come to a sound office, one that takes no places raises the usage of no quota that stood before: a
/// catalogue's change, what is deleted, what is refused, each move that brings no order back, periodic work, a voucher that is
/// sent, another priority, and all that is done at the doors. Only making or changing a voucher that then ignores quotas may,
/// and joining the waiting list; and, of quotas that release the places of tickets that went out alone, an entry, a payment that is
/// taken back, and a paid order that ends while a voucher of one who has gone out blocks places.
pub fn the_rest_raises_nothing()
    ensures rest { InEachSoundRun (Each RaisesNothing) }
    ensures again { (command : Command) (state : State) (quota : Quota) →
        fills_again command state quota ≡ true → quota.release_after_exit ≡ true }
{}

/// A bulk call of at most 500 entries leaves the office as its entries do, each as a command of its own at the call's moment
/// and with its draw, after those before it, where a faulty entry asks nothing. What became of each entry is what its own
/// command is answered, in order: the row, or why it was refused; of a faulty one it is its fault. So does an import: a row whose code a
/// voucher has asks nothing, and is told whether that voucher is as the row has it.
pub fn bulk_calls_run_their_entries()
    ensures { InEachRun RunsItsEntries }
{}

/// A row of an import that was added, or was the same, is the same in a next one, behind whatever rows, if no voucher has changed in
/// between: so a file can be imported again after a lost answer. A voucher file's rows all have a code.
pub fn importing_again_adds_nothing()
    ensures { (first next : FitImport) →
        next.state.lists.vouchers ≡ (import_done first).0.lists.vouchers →
        AreSameAgain next.state next.draw next.rows first.rows (import_done first).1 }
{}

/// Ids are never used again: no command lowers the next id of a table, and a row that it adds has an id that is at least the
/// next one before it, and below the next one after it. So do all of them together.
pub fn ids_are_never_used_again()
    ensures each { InEachRun GivesNewIds }
    ensures run { (arrivals : List Arrival) (state : State) →
        AllIdsGoOn state (after_run arrivals state) }
{}

/// Whatever commands come, a sound office stays sound: headroom and fit hold before and after each.
pub fn always_sound()
    ensures { InEachSoundRun LeavesSound }
{}

/// Whatever commands come to a sound office, of each voucher with a budget no more is spent than that, before and after each:
/// what its positions in pending and paid orders took off their prices.
pub fn budgets_hold()
    ensures { InEachSoundRun KeepsBudgets }
{}

/// Whatever commands come, the office's moment never falls.
pub fn time_never_falls()
    ensures { InEachRun NeverGoesBack }
{}

/// Each command stores its moment, refused or not.
pub fn moments_are_stored()
    ensures { InEachRun StoresItsMoment }
{}

/// A refused command changes the moment alone.
pub fn refused_change_nothing_else()
    ensures { InEachRun ChangesNothingElse }
{}

/// Whatever commands come to a sound office, the changes of each step can be made one after another, and lead to the rows
/// that it leaves: where a row is put, those that it names stand and no other row has its unique values, and no row names
/// one that goes. So a file takes them in this order, though it tests references and unique values at each change.
pub fn changes_can_be_made()
    ensures { InEachSoundRun MakesItsChanges }
{}

/// Whatever commands come to a sound office, no list ever has a nonce twice for a position.
pub fn nonce_once()
    ensures { InEachSoundRun HasNoncesOnce }
{}

/// A scan with a nonce that was let through is, sent again after whatever commands, told the same position and adds nothing,
/// where the position's order is paid or has the status that it had: unless it has meanwhile expired, been cancelled, or
/// become pending again.
pub fn a_scan_sent_again_adds_nothing()
    ensures { (list : ℕ) (ticket : Ticket) (scan : Scan) (position : OrderPos) (clock later : ℕ)
        (draw other : Draw) (arrivals : List Arrival) (state : State) →
        IsFitArrival (scan_comes list ticket scan clock draw) →
        AllByRecursion IsFitArrival arrivals → IsSound state → is_some scan.nonce ≡ true →
        let admitted = office_stepped (scan_comes list ticket scan clock draw) state in
        let between = after_run arrivals admitted.after in
        admitted.reply ≡ Reply.Admitted position →
        IsStillGood position.order state.lists between.lists →
        AddsNothing position (office_stepped (scan_comes list ticket scan later other) between) }
{}

/// Whatever arrivals come to a sound office, each executed command takes too much of no quota, as the laws of the office say
/// it, a bulk call by its entries; it uses no id again, and leaves the office sound; and so the office is after all of them.
pub fn nothing_is_taken_too_much()
    ensures each { (words : Reply → Response) (p : Opening) (ds : List Delivery) →
        AllByRecursion IsFitDelivery ds → IsSound p.state →
        AllByRecursion TakesNothingTooMuch (steps words p.state (firsts p ds)) }
    ensures all { (words : Reply → Response) (p : Opening) (ds : List Delivery) →
        AllByRecursion IsFitDelivery ds → IsSound p.state →
        IsSound (office words p (firsts p ds)) }
{}
