//! Laws of many callers at one handler.

ghost use Rattle.std.specs.Prelude.{List, ℕ, None, replicate};
ghost use Rattle.web_connection.specs.Run.{AtTick};
ghost use Rattle.web_sockets.specs.Accepting.{Begun};
ghost use Rattle.web_connections.specs.Acts.{Between};
ghost use Rattle.web_connections.specs.Connections.{AreAmong, Callers, DoesAll, Connections, LeadsOn, History, callers};
ghost use Rattle.web_connections.specs.declared.turns.Next.{Next};

use base_devices::Ticks;
use web_connection::Handler;

/// Whoever comes, has turns and leaves, in whatever order: there is one list of acts at the handler, one after another, and whatever conversation
/// each caller was in, or began, is the acts that are for it, of its own bytes and in order, with nothing of another's.
pub fn callers_go_on<T: Ticks, D: Handler>()
    ensures { (from to : Between D) (came : List Begun) (old new : Callers) (order : List Next)
        → DoesAll (AtTick T.reads D.serves) from to came old new order
        → LeadsOn (AtTick T.reads D.serves) from to came old new }
{}

/// From the opening of the connections on: of all who came each has its own acts.
pub fn each_has_its_own<T: Ticks, D: Handler>()
    ensures { (from to : Between D) (came : List Begun) (count : ℕ) (now : Callers)
        (order : List Next) → DoesAll (AtTick T.reads D.serves) from to came
        (callers 0 (replicate count None)) now order
        → (all : History) × Connections (AtTick T.reads D.serves) now.came from to all
        × AreAmong all.firsts came }
{}
