//! Laws of a shop that is served from its file, and worked on there, over crashes.

ghost use Rattle.std.specs.Prelude.{◌≡◌, ◌++◌, ℕ, List, [], ◌∷◌, None, Option, Result, codes};
ghost use Rattle.sqlite.specs.Held.{state};
ghost use Rattle.sqlite.specs.State.{HasCleanDisk};
ghost use Rattle.sqlite.specs.declared.connection.Connection.{Connection};
ghost use Rattle.base_values.specs.declared.answer.Answer.{Answer};
ghost use Rattle.base_values.specs.declared.answer.Response.{Response};
ghost use Rattle.base_values.specs.declared.draw.Draw.{Draw};
ghost use Rattle.model_commands.specs.declared.replies.Reply.{Reply};
ghost use Rattle.model_commands.specs.declared.replies.Reply.TheVariants as replies;
ghost use Rattle.model_commands.specs.declared.requests.Command.{Command};
ghost use Rattle.model_commands.specs.declared.requests.Command.TheVariants.{ImportVouchers, Periodic};
ghost use Rattle.model_commands.specs.declared.vouchers.NewVoucher.{NewVoucher};
ghost use Rattle.model_commands.specs.declared.vouchers.Verdict.{Verdict};
ghost use Rattle.model_commands.specs.declared.waiting.PeriodicCounts.{PeriodicCounts};
ghost use Rattle.web_connection.specs.Run.{AtTick};
ghost use Rattle.base_devices.specs.declared.device.Tick.{Tick};
ghost use Rattle.model_rows.specs.Lists.{State};
ghost use Rattle.model_answers.specs.House.{House};
ghost use Rattle.model_answers.specs.ShopView.{ShopView};
ghost use Rattle.app_csv.specs.VerdictLines.{verdict_lines};
ghost use Rattle.office_deliveries.specs.Deliveries.{step};
ghost use Rattle.office_deliveries.specs.Histories.{Crashed, Event, MayLeave, Running, after_act, event_of, running_from};
ghost use Rattle.office_deliveries.specs.Shops.{AreKeyless};
ghost use Rattle.web_handler.specs.Streams.{HandlerView, IsOf, Serves, ServesRunning, handler_with, words_of};
ghost use Rattle.file_open.specs.Found.{IsFound};
ghost use Rattle.file_open.specs.Opened.{IsReason};
ghost use Rattle.app_files.specs.Acting.{Acts, own_arrival, told_of};
ghost use Rattle.app_files.specs.Evening.{IsOpenedAgain, IsRunningAs, RunsSo, over};
ghost use Rattle.app_files.specs.Imported.{import_words};
ghost use Rattle.app_files.specs.Served.{IsOpenedAndServed, OpensAs};
ghost use Rattle.app_files.specs.Worked.{work_text, work_words};
ghost use Rattle.web_cli.specs.declared.fault.RunFault.{RunFault};
ghost use Rattle.file_scan.specs.Lawful.{IsOfMachine};
ghost use Rattle.file_scan.specs.declared.error.OpenError.{OpenError};
ghost use Rattle.web_arrivals.specs.Deliveries.{Delivery, Opening};
ghost use Rattle.web_arrivals.specs.Seen.{HasList};
ghost use Rattle.web_arrivals.specs.Streams.{ServesHistory, ServesList};
ghost use Rattle.web_server.specs.Rounds.{AnswersCallers, most_of};
ghost use Rattle.file_tables.specs.declared.sql.SqlTables.{SqlTables};
ghost use Rattle.web_connections.specs.Acts.{Between, between, seen_at};
ghost use Rattle.web_connections.specs.Connections.{Connections, History};
ghost use Rattle.web_arrivals.specs.HandlerView.{trait_meaning};

use base_devices::Ticks;
use file_open::crashes::{a_crash_damages_nothing, a_shop_runs_on_after_a_crash};
use file_tables::SqlTables;
use model_answers::Tables;
use office_deliveries::laws::shops_run_in_any_words;
use sqlite::{Alter, Connection};
use web_callers::laws::{callers_are_answered_once, callers_go_on_with_a_history, callers_run_on};

/// A shop that was running has answered callers, and the machine stops; its file is opened again. It is the handler of the same house: the
/// same names, the same tokens by their numbers, the same next one. It is running again, as it was or with one write carried out that had
/// no answer; so what is said of callers goes on from there (`callers_run_on`), however often that happens. Where it isn't opened, that is
/// for want of memory or because the store fails, and never told as 60, 61 or 62.
pub fn callers_go_on_after_a_crash<S: Alter, K: Ticks>(
    last: &SqlTables<S>,
    fresh: &Connection<S>,
    again: &SqlTables<S>,
)
    ensures goes_on { (house : House) (r : Running) (came : ℕ) (all : History)
        (first : Between (HandlerView (SqlTables S))) (reported : Option (List Tick))
        (organizer event : List ℕ) (s : State)
        → let tables = trait_meaning ⟦<SqlTables<S> as Tables>⟧
        in let end = between reported (handler_with last.now organizer event s)
        in Connections (AtTick K.reads (Serves tables)) came first end all
        → IsOf tables house first.handler → IsRunningAs tables house first.handler r
        → IsFound (state S.Store last.now.connection) (state S.Store fresh.now)
        → (name happening : List ℕ) (z : State)
        → OpensAs S.Store (state S.Store fresh.now) (handler_with again.now name happening z)
        → HasCleanDisk (state S.Store again.now.connection)
        → (q : Running) × (x : ShopView)
        × Connections (AtTick K.reads (ServesRunning house)) came (seen_at first r)
        (seen_at end q) all × MayLeave (words_of house) q x
        × IsOf tables house (handler_with again.now name happening z)
        × IsRunningAs tables house (handler_with again.now name happening z)
        (running_from (words_of house) x) }
    ensures unharmed { (house : House) (r : Running) (came : ℕ) (all : History)
        (first : Between (HandlerView (SqlTables S))) (reported : Option (List Tick))
        (organizer event : List ℕ) (s : State)
        → let tables = trait_meaning ⟦<SqlTables<S> as Tables>⟧
        in Connections (AtTick K.reads (Serves tables)) came first
        (between reported (handler_with last.now organizer event s)) all
        → IsOf tables house first.handler → IsRunningAs tables house first.handler r
        → IsFound (state S.Store last.now.connection) (state S.Store fresh.now)
        → (error : OpenError) → IsReason (state S.Store fresh.now).now error → IsOfMachine error }
{
    callers_run_on::<SqlTables<S>, K>();
    a_shop_runs_on_after_a_crash(last, fresh, again);
    a_crash_damages_nothing(last, fresh);
}

/// A shop was running, and its file is opened again, after a crash or because a command has ended: that is an event of its history, by which
/// nothing is undecided any more.
pub fn a_history_goes_on_after_a_crash<S: Alter, K: Ticks>(
    last: &SqlTables<S>,
    fresh: &Connection<S>,
    again: &SqlTables<S>,
)
    ensures { (house : House) (begun r : Running) (es : List Event)
        (before after : HandlerView (SqlTables S))
        → let tables = trait_meaning ⟦<SqlTables<S> as Tables>⟧
        in RunsSo tables house begun es (over last.now before) r
        → IsOpenedAgain S.Store (state S.Store last.now.connection) (state S.Store fresh.now)
        (over again.now after) → (x : ShopView)
        × RunsSo tables house begun (es ++ Crashed ∷ []) (over again.now after)
        (running_from (words_of house) x) }
{
    callers_go_on_after_a_crash::<S, K>(last, fresh, again);
}

/// A command of the program's own, whatever words tell it, is an event of a shop's history where it is carried out, as a caller's write without
/// key would be: told in the house's words, or without an answer. That holds of a shop of which no undecided write has a key, as of one that
/// was opened for that command.
pub fn a_command_goes_on_with_a_history<S: Alter>()
    ensures { (house : House) (begun r : Running) (es : List Event) (words : Reply → Response)
        (command : Command) (tick : Tick) (first last : HandlerView (SqlTables S))
        (outcome : Result (List ℕ) RunFault)
        → let tables = trait_meaning ⟦<SqlTables<S> as Tables>⟧
        in let a = own_arrival command tick in RunsSo tables house begun es first r
        → AreKeyless r.undecided → Acts words command tick tables first last outcome
        → tables.sure last.tables → (answer : Answer) × (outcome ≡ told_of answer)
        × RunsSo tables house begun (es ++ event_of (words_of house) a answer r.shop ∷ []) last
        (after_act (words_of house) a answer r) }
{
    shops_run_in_any_words::<SqlTables<S>>();
}

/// An evening is one history: callers are served; then the file is opened for a command of the program's own, periodic work or an import, which
/// is carried out; then the machine stops, the file is opened again, and callers are served. What happened is one list of events behind those
/// before it: those of the first callers' messages, a stop, the command, a stop, and those of the other callers' messages; and the shop is running
/// as they leave it. So there is one list of arrivals for which it stands (`histories_come_to_one_run`).
pub fn an_evening_is_one_history<S: Alter, K: Ticks>(
    served: &SqlTables<S>,
    closed: &Connection<S>,
    opened_for: &SqlTables<S>,
    acted: &SqlTables<S>,
    fresh: &Connection<S>,
    again: &SqlTables<S>,
)
    ensures { (house : House) (begun r : Running) (es : List Event) (n m : ℕ)
        (before after : History) (first end : Between (HandlerView (SqlTables S)))
        (reported : Option (List Tick)) (a b c d : HandlerView (SqlTables S))
        (words : Reply → Response) (command : Command) (tick : Tick)
        (outcome : Result (List ℕ) RunFault)
        → let tables = trait_meaning ⟦<SqlTables<S> as Tables>⟧
        in RunsSo tables house begun es first.handler r
        → Connections (AtTick K.reads (Serves tables)) n first
        (between reported (over served.now a)) before
        → IsOpenedAgain S.Store (state S.Store served.now.connection) (state S.Store closed.now)
        (over opened_for.now b)
        → Acts words command tick tables (over opened_for.now b) (over acted.now c) outcome
        → IsOpenedAgain S.Store (state S.Store acted.now.connection) (state S.Store fresh.now)
        (over again.now d) → Connections (AtTick K.reads (Serves tables)) m
        (between None (over again.now d)) end after
        → HasCleanDisk (state S.Store end.handler.tables.connection)
        → (fs : List Event) × (x : ShopView) × (answer : Answer) × (gs : List Event) × (q : Running)
        × Connections (AtTick K.reads (ServesHistory house)) n (seen_at first es)
        (between reported fs) before × (outcome ≡ told_of answer)
        × Connections (AtTick K.reads (ServesHistory house)) m (between None
        (((fs ++ Crashed ∷ []) ++ event_of (words_of house) (own_arrival command tick) answer x
        ∷ []) ++ Crashed ∷ [])) (seen_at end gs) after
        × RunsSo tables house begun gs end.handler q }
{
    callers_go_on_with_a_history::<SqlTables<S>, K>();
    a_history_goes_on_after_a_crash::<S, K>(served, closed, opened_for);
    a_command_goes_on_with_a_history::<S>();
    a_history_goes_on_after_a_crash::<S, K>(acted, fresh, again);
}

/// What `serve` promises, seen whole: a shop whose file was opened stood for a list of arrivals; callers came, many at once, and the connection was
/// handed back. Over a disk that returned what was written there is one list of arrivals for which it stands then, those of all messages that were
/// acted on behind the others: each caller was answered as that list has it, or 503, in its own order and with nothing of another's.
pub fn what_is_served_is_answered_once<S: Alter, K: Ticks>(file: &Connection<S>)
    ensures { (house : House) (p : Opening) (ds : List Delivery) (most : ℕ) (left : Connection S)
        (outcome : Result (Unit {0}) RunFault)
        → let tables = trait_meaning ⟦<SqlTables<S> as Tables>⟧
        in (served : IsOpenedAndServed K.reads S.Store tables most
        (state S.Store file.now) left outcome) → HasCleanDisk (state S.Store left)
        → IsOf tables house served.handler → HasList tables (words_of house) served.handler p ds
        → (es : List Delivery) × AnswersCallers (AtTick K.reads (ServesList house p)) (most_of most)
        (between None ds) (between None es) None None outcome × IsOf tables house served.leads.last
        × HasList tables (words_of house) served.leads.last p es }
{
    let _ = file;
    callers_are_answered_once::<SqlTables<S>, K>();
}

/// A shop was running, a command has ended or the machine has stopped, and `serve` opened its file again and answered callers: that is one history, and
/// the shop is running as it leaves it. What this gives is what it asks for, so that it holds of any sequence of such runs.
pub fn what_is_served_goes_on<S: Alter, K: Ticks>(
    last: &SqlTables<S>,
    fresh: &Connection<S>,
    again: &SqlTables<S>,
)
    ensures { (house : House) (begun r : Running) (es : List Event) (most : ℕ)
        (before after : HandlerView (SqlTables S)) (left : Connection S)
        (outcome : Result (Unit {0}) RunFault)
        → let tables = trait_meaning ⟦<SqlTables<S> as Tables>⟧
        in RunsSo tables house begun es (over last.now before) r
        → IsFound (state S.Store last.now.connection) (state S.Store fresh.now)
        → (served : IsOpenedAndServed K.reads S.Store tables most (state S.Store fresh.now) left
        outcome) → (served.handler ≡ over again.now after)
        → HasCleanDisk (state S.Store again.now.connection) → HasCleanDisk (state S.Store left)
        → (fs : List Event) × (q : Running)
        × AnswersCallers (AtTick K.reads (ServesHistory house)) (most_of most)
        (between None (es ++ Crashed ∷ [])) (between None fs) None None outcome
        × RunsSo tables house begun fs served.leads.last q }
{
    a_history_goes_on_after_a_crash::<S, K>(last, fresh, again);
    callers_go_on_with_a_history::<SqlTables<S>, K>();
}

/// The program's own commands tell what they did, whatever the office, the moment and the draw: periodic work its counts, an import a line
/// for each row. No run has any other reply; what would be told of one is `{}`.
pub fn own_commands_tell_what_they_did()
    ensures work { (at : ℕ) (draw : Draw) (state : State)
        → (counts : PeriodicCounts)
        × ((work_words (step Periodic at draw state).1).body ≡ work_text counts) }
    ensures imports { (given : List (List ℕ)) (vouchers : List NewVoucher) (at : ℕ) (draw : Draw)
        (state : State) → (verdicts : List Verdict)
        × ((import_words given (step (ImportVouchers vouchers) at draw state).1).body
        ≡ verdict_lines given verdicts) }
    ensures other_work { (reply : Reply)
        → ((counts : PeriodicCounts) → reply ≡ replies.Periodic counts → ⊥)
        → (work_words reply).body ≡ codes "{}" }
    ensures other_imports { (given : List (List ℕ)) (reply : Reply)
        → ((verdicts : List Verdict) → reply ≡ replies.Imported verdicts → ⊥)
        → (import_words given reply).body ≡ codes "{}" }
{}
