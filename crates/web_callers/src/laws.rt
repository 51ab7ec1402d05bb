//! Laws of many callers at once.

ghost use Rattle.std.specs.Prelude.{ℕ, List};
ghost use Rattle.web_connection.specs.Run.{AtTick};
ghost use Rattle.model_invariant.specs.Sound.{IsSound};
ghost use Rattle.model_answers.specs.ShopView.{ShopView};
ghost use Rattle.web_arrivals.specs.Deliveries.{Delivery, Event, Happens, Opening, Running};
ghost use Rattle.web_arrivals.specs.HandlerView.{HandlerView, House, IsOf, trait_meaning, words_of};
ghost use Rattle.web_arrivals.specs.Seen.{HasList, HasRunning, HasShop};
ghost use Rattle.web_arrivals.specs.Served.{Serves};
ghost use Rattle.web_arrivals.specs.Streams.{ServesAndKeeps, ServesHistory, ServesList, ServesRunning};
ghost use Rattle.web_connections.specs.Acts.{Between, seen_at};
ghost use Rattle.web_connections.specs.Connections.{Connections, History};

use base_devices::Ticks;
use model_answers::Tables;

/// Whatever callers send, however many are there at once, in whatever order their bytes come, and wherever their connections break off: a shop
/// that is what a list of arrivals makes of it is at the end what that list makes of it with those of all messages that were acted on behind it.
/// Each of them was answered as that list has it, or 503. A request that comes again on another connection buys nothing twice. Each caller has
/// the same conversation as before: the acts of its own bytes, in order. What was known of the ticks is known of these arrivals, in this law and
/// in the others.
pub fn callers_are_answered_once<T: Tables, K: Ticks>()
    ensures { (house : House) (p : Opening) (ds : List Delivery) (came : ℕ)
        (old new : Between (HandlerView T)) (all : History)
        → let tables = trait_meaning T.Tables
        in Connections (AtTick K.reads (Serves tables)) came old new all → T.sure new.handler.tables
        → IsOf tables house old.handler → HasList tables (words_of house) old.handler p ds
        → (es : List Delivery) × Connections (AtTick K.reads (ServesList house p)) came
        (seen_at old ds) (seen_at new es) all × IsOf tables house new.handler
        × HasList tables (words_of house) new.handler p es }
{}

/// Whatever callers send to a shop that is running: what a crash leaves of it at the end is the shop as it is, or with one write carried
/// out that was answered 503 since the last one that was executed.
pub fn callers_run_on<T: Tables, K: Ticks>()
    ensures { (house : House) (r : Running) (came : ℕ) (old new : Between (HandlerView T))
        (all : History) → let tables = trait_meaning T.Tables
        in Connections (AtTick K.reads (Serves tables)) came old new all → T.sure new.handler.tables
        → IsOf tables house old.handler → HasRunning tables (words_of house) old.handler r
        → (s : Running) × Connections (AtTick K.reads (ServesRunning house)) came (seen_at old r)
        (seen_at new s) all × IsOf tables house new.handler
        × HasRunning tables (words_of house) new.handler s }
{}

/// Whatever callers send to a sound shop: each request that is executed makes a step that takes too much of no quota; a repeat, a read and what is
/// refused before it is a command take nothing; and the shop remains sound.
pub fn callers_take_nothing_too_much<T: Tables, K: Ticks>()
    ensures { (house : House) (v : ShopView) (came : ℕ) (old new : Between (HandlerView T))
        (all : History) → let tables = trait_meaning T.Tables in IsSound v.state
        → Connections (AtTick K.reads (Serves tables)) came old new all → T.sure new.handler.tables
        → IsOf tables house old.handler → HasShop tables old.handler v
        → (w : ShopView) × Connections (AtTick K.reads (ServesAndKeeps house)) came (seen_at old v)
        (seen_at new w) all × IsOf tables house new.handler × HasShop tables new.handler w
        × IsSound w.state }
{}

/// Whatever callers send goes on with a history, which may have begun long before, with crashes in it: each message that was acted on is an
/// event behind those before it, an arrival with what it was answered, or without an answer; and the shop is running as these events leave
/// it.
pub fn callers_go_on_with_a_history<T: Tables, K: Ticks>()
    ensures { (house : House) (begun q : Running) (es : List Event) (came : ℕ)
        (old new : Between (HandlerView T)) (all : History)
        → let tables = trait_meaning T.Tables
        in Connections (AtTick K.reads (Serves tables)) came old new all → T.sure new.handler.tables
        → IsOf tables house old.handler → Happens (words_of house) begun es q
        → HasRunning tables (words_of house) old.handler q
        → (fs : List Event) × (s : Running)
        × Connections (AtTick K.reads (ServesHistory house)) came (seen_at old es)
        (seen_at new fs) all × IsOf tables house new.handler × Happens (words_of house) begun fs s
        × HasRunning tables (words_of house) new.handler s }
{}
