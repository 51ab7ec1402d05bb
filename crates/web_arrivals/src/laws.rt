//! Laws of every run of a shop over a stream.

ghost use Rattle.std.specs.Prelude.{◌≡◌, ◌≤◌, ℕ, List, Result};
ghost use Rattle.base_devices.specs.declared.device.Tick.{Tick};
ghost use Rattle.model_invariant.specs.Sound.{IsSound};
ghost use Rattle.model_answers.specs.ShopView.{ShopView};
ghost use Rattle.office_deliveries.specs.Deliveries.{Opening, Delivery};
ghost use Rattle.office_deliveries.specs.Histories.{Running};
ghost use Rattle.web_connection.specs.declared.failure.Failure.{Failure};
ghost use Rattle.web_connection.specs.Run.{Item, Runs, Devices, with_handler, RunLeads};
ghost use Rattle.web_arrivals.specs.Cuts.{RunsWhole};
ghost use Rattle.web_arrivals.specs.HandlerView.{HandlerView, House, IsOf, trait_meaning, words_of};
ghost use Rattle.web_arrivals.specs.Given.{AreGiven, ServesGiven};
ghost use Rattle.web_arrivals.specs.Seen.{HasList, HasRunning, HasShop};
ghost use Rattle.web_arrivals.specs.Served.{Serves};
ghost use Rattle.web_arrivals.specs.Streams.{Decides, ServesList, ServesRunning, ServesAndKeeps};

use model_answers::Tables;

/// Whatever a stream brings, and wherever it breaks off: a shop that stands for a list of arrivals stands at the end for that
/// list and those of the messages that were acted on behind it, each of which was told what is told of the list, or 503; and
/// what is written is the text of these answers, in order, or where the writer failed its front.
pub fn streams_are_answered_once<T: Tables>()
    ensures { (house : House) (p : Opening) (ds : List Delivery) (old new : Devices (HandlerView T))
        (result : Result (Unit {0}) Failure) → let tables = trait_meaning T.Tables in
        RunLeads (Serves tables) old new result → T.sure new.handler.tables
        → IsOf tables house old.handler → HasList tables (words_of house) old.handler p ds
        → (es : List Delivery)
        × RunLeads (ServesList house p) (with_handler old ds) (with_handler new es) result
        × IsOf tables house new.handler × HasList tables (words_of house) new.handler p es }
{}

/// A stream to a shop that is running: whatever a crash leaves of it then is the shop as it is, or with one write carried out that was
/// answered 503 since the last one that was executed.
pub fn streams_run_on<T: Tables>()
    ensures { (house : House) (r : Running) (old new : Devices (HandlerView T))
        (result : Result (Unit {0}) Failure) → let tables = trait_meaning T.Tables in
        RunLeads (Serves tables) old new result → T.sure new.handler.tables
        → IsOf tables house old.handler → HasRunning tables (words_of house) old.handler r
        → (s : Running)
        × RunLeads (ServesRunning house) (with_handler old r) (with_handler new s) result
        × IsOf tables house new.handler × HasRunning tables (words_of house) new.handler s }
{}

/// Whatever bytes come to a sound shop, each request that is executed makes a step that takes too much of no quota, as the
/// laws of the office say it by the command, of a bulk call by its entries; that uses no id again; a write that was refused
/// before it was a command changes the moment alone; a repeat, a read, and what is answered 401 or 503 change nothing; and the
/// shop stays sound.
pub fn streams_take_nothing_too_much<T: Tables>()
    ensures { (house : House) (v : ShopView) (old new : Devices (HandlerView T))
        (result : Result (Unit {0}) Failure) → let tables = trait_meaning T.Tables in
        IsSound v.state → RunLeads (Serves tables) old new result → T.sure new.handler.tables
        → IsOf tables house old.handler → HasShop tables old.handler v → (w : ShopView)
        × RunLeads (ServesAndKeeps house) (with_handler old v) (with_handler new w) result
        × IsOf tables house new.handler × HasShop tables new.handler w × IsSound w.state }
{}

/// The office's moment never falls, whatever the clock shows.
pub fn time_never_falls<T: Tables>()
    ensures { (house : House) (v : ShopView) (old new : Devices (HandlerView T))
        (result : Result (Unit {0}) Failure) → let tables = trait_meaning T.Tables in
        RunLeads (Serves tables) old new result → T.sure new.handler.tables
        → IsOf tables house old.handler → HasShop tables old.handler v
        → old.handler.state.moment ≤ new.handler.state.moment }
{}

/// Two runs over the same messages with the same ticks, from the same shop, each over tables of its own, in which nothing is
/// answered 503, write the same and lead to the same shop.
pub fn runs_are_alike<T: Tables, U: Tables>()
    ensures { (house : House) (v : ShopView) (old new : HandlerView T) (other newer : HandlerView U)
        (ticks : List Tick) (items : List Item) (a b : List ℕ)
        → let tables = trait_meaning T.Tables in let others = trait_meaning U.Tables in
        Runs (Decides tables) old ticks items a new
        → Runs (Decides others) other ticks items b newer → T.sure new.tables
        → U.sure newer.tables → IsOf tables house old → IsOf others house other
        → HasShop tables old v → HasShop others other v
        → (a ≡ b) × ((w : ShopView) × HasShop tables new w × HasShop others newer w) }
{}

/// However a stream is cut into reads: of two runs over the same bytes that end well, with the same ticks, from the same shop,
/// each over tables of its own, in which nothing is answered 503, both write the same and lead to the same shop.
pub fn cuts_are_alike<T: Tables, U: Tables>()
    ensures { (house : House) (v : ShopView) (bytes : List ℕ) (ticks : List Tick) (written : List ℕ)
        (old new : Devices (HandlerView T)) (other newer : Devices (HandlerView U))
        → let tables = trait_meaning T.Tables in let others = trait_meaning U.Tables
        in RunsWhole tables house v bytes ticks written old new
        → RunsWhole others house v bytes ticks written other newer → new.reported ≡ newer.reported
        → (new.taken ≡ newer.taken)
        × ((w : ShopView) × HasShop tables new.handler w × HasShop others newer.handler w) }
{}

/// Whatever a stream brings, and wherever it breaks off: each of its messages is answered with one of twelve statuses, where the
/// answers that the shop keeps have such statuses; and those that it keeps at the end have.
pub fn each_status_is_given<T: Tables>()
    ensures { (house : House) (v : ShopView) (old new : Devices (HandlerView T))
        (result : Result (Unit {0}) Failure) → let tables = trait_meaning T.Tables in
        AreGiven v.kept → RunLeads (Serves tables) old new result → T.sure new.handler.tables
        → IsOf tables house old.handler → HasShop tables old.handler v → (w : ShopView)
        × RunLeads (ServesGiven house) (with_handler old v) (with_handler new w) result
        × IsOf tables house new.handler × HasShop tables new.handler w × AreGiven w.kept }
{}
