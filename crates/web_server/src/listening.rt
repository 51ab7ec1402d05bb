//! A handler at an address.

ghost use Rattle.std.specs.Prelude.{◌≡◌, None, Some, OnOk};
ghost use Rattle.base_devices.specs.Blanks.{IsBlankOf};
ghost use Rattle.web_http.specs.Written.{writer_page};
ghost use Rattle.web_connection.specs.Run.{AtTick};
ghost use Rattle.web_cli.specs.Saying.{TellsListening};
ghost use Rattle.web_server.specs.Clock.{IsRead};
ghost use Rattle.web_server.specs.Rounds.{AnswersCallers, between, most_of};

use crate::clock::{ClockTicks, System};
use crate::host::Host;
use crate::log::Log;
use crate::logged::NamesCaller;
use crate::serving::run_event_loop;
use crate::tcp_network::TcpNetwork;
use base_devices::Drain;
use base_values::Steps;
use mio::Poll;
use std::alloc::Global;
use std::marker::Brand;
use std::net::{Net, TcpListener, TcpStream};
use std::sync::ledger::{Blank, Ledger};
use std::time::Clock;
use web_cli::{Console, RunFault, ServeOptions, end_said, say};
use web_connection::Handler;
use web_sockets::{Ends, Network};

// Answers the callers of a listener by the system's clock, with a ledger for the failures of its ticks.
fn run_network<
    M: Ledger,
    R: Clock + System + Console,
    E: Ends,
    N: Network<E>,
    D: Handler + NamesCaller,
>(
    host: &Host<'_, R>,
    network: &mut N,
    connections: u64,
    handler: &mut D,
    blank: Blank,
) -> Result<(), RunFault>
    requires blank { IsBlankOf M.Ledger blank }
    ensures listens { N.listens network.new ≡ N.listens network.old }
    ensures answers { AnswersCallers (AtTick (IsRead R.shows R.gives) D.serves)
        (most_of connections) (between None handler.old) (between None handler.new)
        (N.came network.old) (N.came network.new) result }
{
    let failures = Steps::<M>::new(blank);
    let rt = host.rt;
    let mut ticks = ClockTicks::<R, M> { rt, failures };
    run_event_loop(host, network, connections, &mut ticks, handler)
}

/// Listens at an address, says so, and answers the callers that come, many of them at once, by the system's clock and its draws. Faults: 81
/// where the address can't be listened at, and then nothing is said; 83 where that couldn't be said, and then nobody is answered; 81 and 6
/// as `serve_callers`.
pub fn listen_and_run<
    R: Clock + System + Console,
    E: Ends,
    N: Network<E>,
    D: Handler + NamesCaller,
    W: Drain,
>(
    host: &Host<'_, R>,
    network: &mut N,
    options: &ServeOptions<'_>,
    handler: &mut D,
    writer: &mut W,
) -> Result<(), RunFault>
    ensures said { TellsListening options.now.text.now
        (writer_page W.Drain writer.old) (writer_page W.Drain writer.new) result }
    ensures listens { OnOk result (N.listens network.new ≡ Some options.now.addr) }
    ensures leads { AnswersCallers (AtTick (IsRead R.shows R.gives) D.serves)
        (most_of options.now.connections)
        (between None handler.old) (between None handler.new)
        (N.came network.old) (N.came network.new) result }
{
    let Ok(()) = network.listen(options.addr) else {
        return Err(RunFault::Listen);
    };
    match say(writer, b"listening on ", options.text.as_bytes()) {
        Ok(()) => run_network::<Brand, R, E, N, D>(
            host,
            network,
            options.connections,
            handler,
            Blank::new(1),
        ),
        Err(refused) => end_said(Err(refused)),
    }
}

/// Listens where the line says, over the system's network, says so, and answers callers. Faults: 81 and 6 too where the network can't be
/// opened, and then nothing is said.
pub fn run_over_tcp<
    R: Net<Listener = TcpListener, Stream = TcpStream> + Clock + System + Console,
    D: Handler + NamesCaller,
    W: Drain,
>(
    rt: &R,
    alloc: Global,
    log: &Log<'_, R>,
    options: &ServeOptions<'_>,
    handler: &mut D,
    writer: &mut W,
) -> Result<(), RunFault>
    ensures said { TellsListening options.now.text.now
        (writer_page W.Drain writer.old) (writer_page W.Drain writer.new) result }
    ensures leads { AnswersCallers (AtTick (IsRead R.shows R.gives) D.serves)
        (most_of options.now.connections)
        (between None handler.old) (between None handler.new)
        None None result }
{
    let Ok(poll) = Poll::new(rt) else {
        return Err(RunFault::Listen);
    };
    let Ok(registry) = poll.registry().try_clone() else {
        return Err(RunFault::Listen);
    };
    let host = Host::new(rt, alloc, log);
    match TcpNetwork::new(alloc, rt, poll, &registry) {
        Ok(mut tcp_network) => listen_and_run(&host, &mut tcp_network, options, handler, writer),
        Err(_) => Err(RunFault::Memory),
    }
}
