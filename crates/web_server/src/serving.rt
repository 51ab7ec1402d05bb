//! Many connections at once, in one thread.

ghost use Rattle.std.specs.Prelude.{◌≡◌, ◌-◌, ◌≤◌, None, false, true, nat_le, IsOkUnless};
ghost use Rattle.base_devices.specs.Blanks.{IsBlankOf};
ghost use Rattle.web_connection.specs.Run.{AtTick};
ghost use Rattle.web_cli.specs.declared.fault.RunFault.TheVariants.{Listen};
ghost use Rattle.web_connections.specs.Acts.{between};
ghost use Rattle.web_connections.specs.Contexts.{KeepsLent};
ghost use Rattle.web_server.specs.Hosted.{HostsBy};
ghost use Rattle.web_server.specs.Timeouts.{EndsLate};
ghost use Rattle.web_server.specs.Rounds.{AnswersCallers, Clears, Hosts, RoundsEnd, most_of};

use crate::clock::System;
use crate::host::Host;
use crate::logged::NamesCaller;
use crate::server::Server;
use base_devices::{Device, Ticks};
use base_values::Steps;
use std::marker::Brand;
use std::sync::ledger::{Blank, Ledger};
use std::time::{Clock, Instant};
use web_cli::{Console, RunFault};
use web_connection::{Handler, ReadBuffer};
use web_connections::Context;
use web_sockets::{Ends, Network};

/// How much is heard at most before a server looks round.
const AT_ONCE: u32 = 256;

/// How long a server waits for an event at most, in milliseconds.
const ROUND_MS: u64 = 250;

/// The time of a server: milliseconds since it opened.
#[derive(Drop)]
struct Watch<'a, C> {
    clock: &'a C,
    start: Instant,
    now: u64,
    looked: u64,
}

impl<C: Clock> Watch<'_, C> {
    // The moment now, or the last one where the clock can't be read, or went back.
    fn look(&mut self) -> u64
        ensures now { result ≡ self.new.now }
        ensures looked { self.new.looked ≡ self.old.looked }
        ensures on { self.old.now ≤ self.new.now }
    {
        if let Ok(since) = self.start.elapsed(self.clock) {
            let seconds = since.as_secs().saturating_mul(1000);
            let now = seconds.saturating_add(since.subsec_millis() as u64);
            self.now = self.now.max(now);
        }
        self.now
    }

    // Whether a round is over since it was asked last.
    fn is_due(&mut self) -> bool
        ensures now { self.new.now ≡ self.old.now }
        ensures due { result ≡ nat_le 250 (self.old.now - self.old.looked) }
        ensures begins { result ≡ true → self.new.looked ≡ self.old.now }
        ensures goes_on { result ≡ false → self.new.looked ≡ self.old.looked }
    {
        let is_due = self.now.saturating_sub(self.looked) >= ROUND_MS;
        if is_due {
            self.looked = self.now;
        }
        is_due
    }
}

// How many callers are accepted.
fn most_of(connections: u64) -> u64
    ensures { result ≡ most_of connections }
{
    if connections == 0 {
        u64::MAX
    } else {
        connections
    }
}

// Looks round where that is due.
#[tactic(auto, using(crate::proofs::RoundLemmas::clears_none))]
fn look_if_due<R: Clock + System + Console, E: Ends, N: Network<E>>(
    watch: &mut Watch<'_, R>,
    server: &mut Server<'_, R, E>,
    network: &mut N,
    now: u64,
)
    ensures listens { N.listens network.new ≡ N.listens network.old }
    ensures late { nat_le 250 (watch.old.now - watch.old.looked) ≡ true
        → EndsLate server.old.timers.items now server.old.connections server.new.connections }
    ensures clears { Clears server.old.connections server.new.connections }
    ensures left { server.new.left ≡ server.old.left }
    ensures came { N.came network.new ≡ N.came network.old }
    ensures now { watch.new.now ≡ watch.old.now }
{
    if watch.is_due() {
        server.look_round(network, now);
    }
}

// Hears all that was to be heard.
#[tactic(auto, using(crate::proofs::RoundLemmas::happened_none))]
fn hear_all<
    R: Clock + System + Console,
    E: Ends,
    N: Network<E>,
    L: Ledger,
    M: Ledger,
    T: Ticks,
    D: Handler + NamesCaller,
>(network: &mut N, server: &mut Server<'_, R, E>, context: &mut Context<'_, L, M, T, D>, now: u64)
    ensures keeps { KeepsLent context.old context.new }
    ensures listens { N.listens network.new ≡ N.listens network.old }
    ensures hosts { HostsBy T.Ticks D.serves context.old context.new server.old server.new
        (N.came network.old) (N.came network.new) }
{
    for _ in 0..AT_ONCE {
        match network.event() {
            Some(event) => server.hear(network, event, context, now),
            None => break,
        }
    }
}

// A round: hears what happened, and accepts who is waiting to be accepted.
#[tactic(auto, using(crate::proofs::RoundLemmas::happened_none))]
fn run_round<
    R: Clock + System + Console,
    E: Ends,
    N: Network<E>,
    L: Ledger,
    M: Ledger,
    T: Ticks,
    D: Handler + NamesCaller,
>(
    watch: &mut Watch<'_, R>,
    network: &mut N,
    server: &mut Server<'_, R, E>,
    context: &mut Context<'_, L, M, T, D>,
) -> Result<(), RunFault>
    ensures keeps { KeepsLent context.old context.new }
    ensures listens { N.listens network.new ≡ N.listens network.old }
    ensures hosts { HostsBy T.Ticks D.serves context.old context.new server.old server.new
        (N.came network.old) (N.came network.new) }
    ensures ends { IsOkUnless result Listen }
{
    let most = if server.can_accept(watch.now) {
        0
    } else {
        ROUND_MS
    };
    if network.wait(most).is_err() {
        return Err(RunFault::Listen);
    }
    let now = watch.look();
    hear_all(network, server, context, now);
    look_if_due(watch, server, network, now);
    server.accept(context.alloc, network, now)
}

// Rounds, one after another, till all who were to be accepted have come and gone.
fn run_rounds<
    R: Clock + System + Console,
    E: Ends,
    N: Network<E>,
    L: Ledger,
    M: Ledger,
    T: Ticks,
    D: Handler + NamesCaller,
>(
    watch: &mut Watch<'_, R>,
    network: &mut N,
    server: &mut Server<'_, R, E>,
    context: &mut Context<'_, L, M, T, D>,
) -> Result<(), RunFault>
    ensures keeps { KeepsLent context.old context.new }
    ensures listens { N.listens network.new ≡ N.listens network.old }
    ensures hosts { HostsBy T.Ticks D.serves context.old context.new server.old server.new
        (N.came network.old) (N.came network.new) }
    ensures ends { IsOkUnless result Listen }
{
    for _ in 0..u64::MAX {
        if server.is_over(network) {
            break;
        }
        match run_round(watch, network, server, context) {
            Ok(()) => {}
            Err(fault) => return Err(fault),
        }
    }
    Ok(())
}

// Serves rounds, with room for what one read gives, and with a ledger for each count of the output on which answers are written.
#[tactic(auto, using(crate::proofs::RoundLemmas::rounds_end, crate::proofs::RoundLemmas::happened_none, crate::proofs::RoundLemmas::hosts_none))]
fn run_with_ledgers<
    R: Clock + System + Console,
    E: Ends,
    N: Network<E>,
    L: Ledger,
    M: Ledger,
    T: Ticks,
    D: Handler + NamesCaller,
>(
    host: &Host<'_, R>,
    network: &mut N,
    server: &mut Server<'_, R, E>,
    ticks: &mut T,
    handler: &mut D,
    blanks: (Blank, Blank),
) -> Result<(), RunFault>
    requires calls { IsBlankOf L.Ledger blanks.0 }
    requires failures { IsBlankOf M.Ledger blanks.1 }
    ensures listens { N.listens network.new ≡ N.listens network.old }
    ensures hosts { Hosts (AtTick T.reads D.serves)
        (between (T.reported ticks.old) handler.old) (between (T.reported ticks.new) handler.new)
        server.old.connections server.new.connections server.old.left server.new.left
        (N.came network.old) (N.came network.new) }
    ensures ends { RoundsEnd result server.old.connections server.new.connections }
{
    let Ok(start) = Instant::now(host.rt) else {
        return Err(RunFault::Listen);
    };
    let mut watch = Watch {
        clock: host.rt,
        start,
        now: 0,
        looked: 0,
    };
    let mut out = Device {
        inner: Vec::new(host.alloc),
        calls: Steps::<L>::new(blanks.0),
        failures: Steps::<M>::new(blanks.1),
    };
    let Ok(mut input) = ReadBuffer::new(host.alloc) else {
        return Err(RunFault::Memory);
    };
    let mut context = Context::new(host.alloc, &mut input, &mut out, ticks, handler);
    run_rounds(&mut watch, network, server, &mut context)
}

/// Answers so many callers, and for 0 without end, many of them at once. A caller that was gone before it was accepted counts, and what becomes of one
/// connection ends that connection alone. Each request is answered at a tick that was given for it. Faults: 6 where there is no memory for the server, and
/// nobody is answered; 81 where no more callers can be accepted, but for want of files or memory while somebody is there. The handler is told before
/// each turn whose it is, and the log of each connection that ends.
pub fn run_event_loop<
    R: Clock + System + Console,
    E: Ends,
    N: Network<E>,
    T: Ticks,
    D: Handler + NamesCaller,
>(
    host: &Host<'_, R>,
    network: &mut N,
    connections: u64,
    ticks: &mut T,
    handler: &mut D,
) -> Result<(), RunFault>
    ensures listens { N.listens network.new ≡ N.listens network.old }
    ensures answers { AnswersCallers (AtTick T.reads D.serves) (most_of connections)
        (between (T.reported ticks.old) handler.old) (between (T.reported ticks.new) handler.new)
        (N.came network.old) (N.came network.new) result }
{
    match Server::<R, E>::new(host.alloc, host.log, most_of(connections)) {
        Ok(mut server) => run_with_ledgers::<R, E, N, Brand, Brand, T, D>(
            host,
            network,
            &mut server,
            ticks,
            handler,
            (Blank::new(1), Blank::new(1)),
        ),
        Err(_) => Err(RunFault::Memory),
    }
}
