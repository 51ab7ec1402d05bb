//! A server that is open: its callers, and when they have to go.

ghost use Rattle.std.specs.Prelude.{◌≡◌, ◌+◌, ◌<◌, ◌≤◌, ℕ, [], ◌∷◌, None, Some, true, false, replicate, slice_get, unwrap_or, IfOk, IsOkUnless, OnOk};
ghost use Rattle.web_cli.specs.declared.fault.RunFault.TheVariants.{Listen};
ghost use Rattle.web_connections.specs.Contexts.{KeepsLent};
ghost use Rattle.web_connections.specs.Connections.{IsFree, AcceptsOne, at_slot, callers, slot_needs, slot_unsent, with_slot};
ghost use Rattle.web_server.specs.Hosted.{HostsBy};
ghost use Rattle.web_server.specs.GivingWay.{GoesFirst, MakesRoom, NobodyIsThere, load_at, load_to, readiness_at};
ghost use Rattle.web_server.specs.Timeouts.{Begins, EndsLate, is_late, timers_after, stays};
ghost use Rattle.web_server.specs.Waiting.{IsFull, IsShut, gives_way, leaves_behind, may_come, unless_leaves, wanted_still};
ghost use Rattle.web_server.specs.Rounds.{Clears, Rearranged, Reassigns};
ghost use Rattle.web_sockets.specs.Accepting.{as_begun};

use crate::clock::System;
use crate::log::{Closed, Log};
use crate::logged::NamesCaller;
use crate::timeouts::{Load, Timer};
use base_devices::Ticks;
use std::alloc::{AllocError, Global};
use std::sync::ledger::Ledger;
use std::time::Clock;
use web_cli::{Console, RunFault};
use web_connection::Handler;
use web_connections::{Connections, Context, Needs};
use web_sockets::{Accepted, Ends, Event, Network};

/// How many callers are there at once at most.
pub(crate) const SLOTS: usize = 128;

/// How many are accepted at most before the others have their turns.
const AT_ONCE: u32 = 16;

/// A server that is open.
#[derive(Drop)]
pub(crate) struct Server<'a, R, E: Ends> {
    log: &'a Log<'a, R>,
    connections: Connections<E>,
    timers: Vec<Timer>,
    // How many more callers are accepted.
    left: u64,
    // Whether somebody may be waiting to be accepted.
    may_accept: bool,
    // Whether the system had no file or no memory for one, lately.
    lacks_files: bool,
    // Since when one more waits for whom there is no slot.
    wanted: Option<u64>,
}

impl<'a, R: Clock + System + Console, E: Ends> Server<'a, R, E> {
    /// A server into which nobody came yet.
    pub(crate) fn new(alloc: Global, log: &'a Log<'a, R>, left: u64) -> Result<Self, AllocError>
        ensures connections { IfOk result
            (λ server. server.connections ≡ callers 0 (replicate 128 None)) }
        ensures left { IfOk result (λ server. server.left ≡ left) }
    {
        let connections = Connections::new(alloc, SLOTS)?;
        let timers = vec![in alloc; Timer::new(0); SLOTS]?;
        Ok(Server {
            log,
            connections,
            timers,
            left,
            may_accept: true,
            lacks_files: false,
            wanted: None,
        })
    }

    // Whether no caller is there, and no connection that ended either.
    fn is_empty<N: Network<E>>(&self, network: &N) -> bool
        ensures { result ≡ true → NobodyIsThere self.now.connections }
    {
        for slot in 0..SLOTS {
            if self.connections.needs(slot) != Needs::Nothing {
                return false;
            }
        }
        network.is_quiet()
    }

    /// Whether all who were to be accepted have come and gone.
    pub(crate) fn is_over<N: Network<E>>(&self, network: &N) -> bool
        ensures left { result ≡ true → self.now.left ≡ 0 }
        ensures nobody { result ≡ true → NobodyIsThere self.now.connections }
    {
        self.left == 0 && self.is_empty(network)
    }

    // Whether no slot is free.
    fn is_full(&self) -> bool
        ensures full { result ≡ true → IsFull self.now.connections }
        ensures free { result ≡ false → (slot : ℕ) × IsFree slot self.now.connections }
    {
        self.connections.free_slot().is_none()
    }

    // Whether no slot is free, and nobody goes.
    fn is_shut(&self, now: u64) -> bool
        ensures shut { result ≡ true → IsShut now self.now }
    {
        self.is_full() && self.first_to_go(now).is_none()
    }

    // Whether somebody may be waiting to be accepted whom the system may have a file for.
    fn may_come(&self) -> bool
        ensures { result ≡ may_come self.now.left self.now.may_accept self.now.lacks_files }
    {
        self.may_accept && !self.lacks_files && self.left > 0
    }

    /// Whether somebody may be waiting to be accepted for whom there is a slot, or one whose caller has to go.
    pub(crate) fn can_accept(&self, now: u64) -> bool
        ensures left { result ≡ true → 0 < self.now.left }
        ensures shut { result ≡ false
            → may_come self.now.left self.now.may_accept self.now.lacks_files ≡ true
            → IsShut now self.now }
    {
        self.may_come() && !self.is_shut(now)
    }

    // Somebody may be waiting to be accepted: if no slot is free, that one waits from now on.
    fn note_ready(&mut self, now: u64)
        ensures connections { self.new.connections ≡ self.old.connections }
        ensures timers { self.new.timers.items ≡ self.old.timers.items }
        ensures left { self.new.left ≡ self.old.left }
        ensures files { self.new.lacks_files ≡ self.old.lacks_files }
        ensures asks { self.new.may_accept ≡ true }
        ensures waits { may_come self.new.left self.new.may_accept self.new.lacks_files ≡ true
            → IsFull self.old.connections
            → self.new.wanted ≡ Some (unwrap_or self.old.wanted now) }
    {
        self.may_accept = true;
        if self.may_come() && self.is_full() {
            self.wanted = Some(self.wanted.unwrap_or(now));
        }
    }

    // The caller at a slot leaves.
    #[tactic(auto, using(crate::proofs::RoundLemmas::clears_leaves, crate::proofs::RoundLemmas::clears_none))]
    fn close<N: Network<E>>(&mut self, network: &mut N, slot: usize, why: Closed, now: u64)
        ensures leaves { self.new.connections ≡ with_slot slot None self.old.connections }
        ensures listens { N.listens network.new ≡ N.listens network.old }
        ensures timers { self.new.timers.items ≡ self.old.timers.items }
        ensures clears { Clears self.old.connections self.new.connections }
        ensures left { self.new.left ≡ self.old.left }
        ensures came { N.came network.new ≡ N.came network.old }
        ensures wanted { self.new.wanted ≡ None }
        ensures asks { self.new.may_accept ≡ self.old.may_accept }
        ensures files { self.new.lacks_files ≡ self.old.lacks_files }
    {
        self.wanted = None;
        self.log.tell_closed(self.connections.number(slot), why);
        if let Some(ends) = self.connections.leave(slot) {
            network.close(ends, now);
        }
    }

    // A load with whoever is at a slot.
    fn load_at(&self, slot: usize, load: Load) -> Load
        ensures { result ≡ load_at (slice_get self.now.timers.items slot)
            (slot_needs (at_slot slot self.now.connections)) load }
    {
        match self.timers.get(slot) {
            Some(timer) => load.with(*timer, self.connections.needs(slot)),
            None => load,
        }
    }

    // How many callers are between two requests, and how many within one.
    #[tactic(auto, using(crate::proofs::GivingWayLemmas::load_none, crate::proofs::GivingWayLemmas::load_next))]
    fn load(&self) -> Load
        ensures { result ≡ load_to self.now.timers.items self.now.connections 128 }
    {
        let mut load = Load::new();
        for slot in 0..SLOTS {
            load = self.load_at(slot, load);
        }
        load
    }

    // How readily the slot of a caller is given to another one, in the load of all.
    #[tactic(auto, unfolding(crate::specs::GivingWay::readiness_at))]
    fn readiness(&self, slot: usize, load: Load, now: u64) -> Option<u64>
        requires { load ≡ load_to self.now.timers.items self.now.connections 128 }
        ensures { result ≡ readiness_at self.now.timers.items self.now.connections now slot }
    {
        let timer = self.timers.get(slot)?;
        timer.readiness(self.connections.needs(slot), load, now)
    }

    // The slot whose caller has to go first where another one comes: one of the greater group, of those within a request and those between two.
    fn first_to_go(&self, now: u64) -> Option<usize>
        ensures { GoesFirst
            (readiness_at self.now.timers.items self.now.connections now) 128 result }
    {
        let load = self.load();
        let mut found = None;
        let mut most = 0;
        for slot in 0..SLOTS {
            if let Some(readiness) = self.readiness(slot, load, now) {
                if found.is_none() || readiness > most {
                    found = Some(slot);
                    most = readiness;
                }
            }
        }
        found
    }

    // A caller takes a slot that is free.
    #[tactic(auto, using(crate::proofs::RoundLemmas::accepts_one, crate::proofs::RoundLemmas::accepts_nobody))]
    fn assign<N: Network<E>>(
        &mut self,
        alloc: Global,
        network: &mut N,
        slot: usize,
        ends: E,
        now: u64,
    )
        requires { IsFree slot self.old.connections }
        ensures listens { N.listens network.new ≡ N.listens network.old }
        ensures accepts { AcceptsOne
            (as_begun (E.left ends) (E.taken ends) ∷ []) self.old.connections self.new.connections }
        ensures came { N.came network.new ≡ N.came network.old }
        ensures left { self.new.left ≡ self.old.left }
        ensures count { self.new.connections.came ≤ self.old.connections.came + 1 }
        ensures begins { Begins slot now self.old.timers.items self.new.timers.items
            self.old.connections self.new.connections }
        ensures wanted { self.new.wanted ≡ self.old.wanted }
        ensures asks { self.new.may_accept ≡ self.old.may_accept }
        ensures files { self.new.lacks_files ≡ self.old.lacks_files }
    {
        let mut ends = ends;
        if network.assign(slot, &mut ends).is_err() {
            return;
        }
        if self.connections.accept(alloc, slot, ends).is_ok() {
            if let Some(timer) = self.timers.get_mut(slot) {
                *timer = Timer::new(now);
            }
        }
    }

    // Where no slot is free the caller leaves who has to go first.
    #[tactic(auto, using(crate::proofs::RoundLemmas::clears_none))]
    fn make_room<N: Network<E>>(&mut self, network: &mut N, now: u64)
        ensures listens { N.listens network.new ≡ N.listens network.old }
        ensures room { MakesRoom (readiness_at self.old.timers.items self.old.connections now)
            self.old.connections self.new.connections }
        ensures clears { Clears self.old.connections self.new.connections }
        ensures left { self.new.left ≡ self.old.left }
        ensures came { N.came network.new ≡ N.came network.old }
        ensures asks { self.new.may_accept ≡ self.old.may_accept }
        ensures files { self.new.lacks_files ≡ self.old.lacks_files }
        ensures wanted { self.old.wanted ≡ None → self.new.wanted ≡ None }
    {
        if self.is_full() {
            if let Some(slot) = self.first_to_go(now) {
                self.close(network, slot, Closed::GaveWay, now);
            }
        }
    }

    // A caller comes in.
    #[tactic(auto, using(crate::proofs::RoundLemmas::cleared_comes, crate::proofs::RoundLemmas::accepts_nobody))]
    fn admit<N: Network<E>>(&mut self, alloc: Global, network: &mut N, ends: E, now: u64)
        requires { 0 < self.old.left }
        ensures listens { N.listens network.new ≡ N.listens network.old }
        ensures comes { Rearranged (as_begun (E.left ends) (E.taken ends) ∷ [])
            self.old.connections self.new.connections }
        ensures count { self.new.connections.came + self.new.left
            ≤ self.old.connections.came + self.old.left }
        ensures came { N.came network.new ≡ N.came network.old }
        ensures wanted { self.new.wanted ≡ None }
    {
        self.wanted = None;
        self.left -= 1;
        self.make_room(network, now);
        if let Some(slot) = self.connections.free_slot() {
            self.assign(alloc, network, slot, ends, now);
        }
    }

    // Accepts nobody till the next look round, where somebody is there whose leaving frees what the system lacks.
    fn wait_for_files<N: Network<E>>(&mut self, network: &N, now: u64) -> Result<bool, RunFault>
        ensures connections { self.new.connections ≡ self.old.connections }
        ensures left { self.new.left ≡ self.old.left }
        ensures ends { IsOkUnless result Listen }
        ensures wanted { OnOk result (self.new.wanted ≡ None) }
    {
        if self.is_empty(network) {
            return Err(RunFault::Listen);
        }
        self.wanted = None;
        self.lacks_files = true;
        Ok(false)
    }

    // Accepts one. Whether another one may be waiting to be accepted.
    #[tactic(auto, using(crate::proofs::RoundLemmas::reassigns_of, crate::proofs::RoundLemmas::reassigns_clears, crate::proofs::RoundLemmas::clears_none))]
    fn accept_one<N: Network<E>>(
        &mut self,
        alloc: Global,
        network: &mut N,
        now: u64,
    ) -> Result<bool, RunFault>
        requires { 0 < self.old.left }
        ensures listens { N.listens network.new ≡ N.listens network.old }
        ensures reassigns { Reassigns self.old.connections self.new.connections self.old.left
            self.new.left (N.came network.old) (N.came network.new) }
        ensures ends { IsOkUnless result Listen }
        ensures wanted { OnOk result (self.new.wanted ≡ None) }
    {
        match network.accept_next() {
            Ok(Accepted::Here(ends)) => {
                self.admit(alloc, network, ends, now);
                Ok(true)
            }
            Ok(Accepted::Gone) => {
                self.wanted = None;
                self.left -= 1;
                Ok(true)
            }
            Ok(Accepted::Nobody) => {
                self.wanted = None;
                self.may_accept = false;
                Ok(false)
            }
            Ok(Accepted::Wants) => self.wait_for_files(network, now),
            Err(_) => Err(RunFault::Listen),
        }
    }

    // Accepts who is waiting to be accepted, as long as there is a slot, or one whose caller has to go.
    fn accept_all<N: Network<E>>(
        &mut self,
        alloc: Global,
        network: &mut N,
        now: u64,
    ) -> Result<(), RunFault>
        ensures listens { N.listens network.new ≡ N.listens network.old }
        ensures reassigns { Reassigns self.old.connections self.new.connections self.old.left
            self.new.left (N.came network.old) (N.came network.new) }
        ensures ends { IsOkUnless result Listen }
    {
        for _ in 0..AT_ONCE {
            if !self.can_accept(now) {
                break;
            }
            match self.accept_one(alloc, network, now) {
                Ok(true) => {}
                Ok(false) => break,
                Err(fault) => return Err(fault),
            }
        }
        Ok(())
    }

    // Has the network tell whether one more waits, where no slot is free and nobody goes. If it can't, one does.
    fn ask_for_more<N: Network<E>>(&mut self, network: &mut N, now: u64)
        ensures listens { N.listens network.new ≡ N.listens network.old }
        ensures came { N.came network.new ≡ N.came network.old }
        ensures connections { self.new.connections ≡ self.old.connections }
        ensures left { self.new.left ≡ self.old.left }
    {
        if self.wanted.is_none() && self.may_come() && self.is_shut(now) {
            match network.listen_again() {
                Ok(()) => self.may_accept = false,
                Err(_) => self.wanted = Some(now),
            }
        }
    }

    /// Accepts who is waiting to be accepted, as long as there is a slot, or one whose caller has to go. Behind that the network is asked whether one more
    /// waits.
    pub(crate) fn accept<N: Network<E>>(
        &mut self,
        alloc: Global,
        network: &mut N,
        now: u64,
    ) -> Result<(), RunFault>
        ensures listens { N.listens network.new ≡ N.listens network.old }
        ensures reassigns { Reassigns self.old.connections self.new.connections self.old.left
            self.new.left (N.came network.old) (N.came network.new) }
        ensures ends { IsOkUnless result Listen }
    {
        match self.accept_all(alloc, network, now) {
            Ok(()) => {
                self.ask_for_more(network, now);
                Ok(())
            }
            Err(fault) => Err(fault),
        }
    }

    // Whether the caller at a slot gives way to one who waits, before it begins a further message.
    fn gives_way(&self, slot: usize, now: u64) -> bool
        ensures { result ≡ gives_way self.now.wanted (slice_get self.now.timers.items slot) now }
    {
        match (self.wanted, self.timers.get(slot)) {
            (Some(_), Some(timer)) => timer.begins_no_more(now),
            _ => false,
        }
    }

    // The caller at a slot leaves if it gives way.
    #[tactic(auto, using(crate::proofs::RoundLemmas::clears_none, crate::proofs::GivingWayLemmas::with_same))]
    fn give_way<N: Network<E>>(&mut self, network: &mut N, slot: usize, now: u64)
        ensures listens { N.listens network.new ≡ N.listens network.old }
        ensures came { N.came network.new ≡ N.came network.old }
        ensures timers { self.new.timers.items ≡ self.old.timers.items }
        ensures left { self.new.left ≡ self.old.left }
        ensures asks { self.new.may_accept ≡ self.old.may_accept }
        ensures files { self.new.lacks_files ≡ self.old.lacks_files }
        ensures stays { self.new.connections ≡ with_slot slot (unless_leaves
            (gives_way self.old.wanted (slice_get self.old.timers.items slot) now)
            (at_slot slot self.old.connections)) self.old.connections }
        ensures wanted { self.new.wanted ≡ wanted_still
            (gives_way self.old.wanted (slice_get self.old.timers.items slot) now)
            self.old.wanted }
        ensures clears { Clears self.old.connections self.new.connections }
    {
        if self.gives_way(slot, now) {
            self.close(network, slot, Closed::GaveWay, now);
        }
    }

    // Behind a turn a caller leaves whose conversation is over, or who gives way, and any other one waits for what it needs.
    #[tactic(auto, using(crate::proofs::RoundLemmas::clears_none))]
    fn note<N: Network<E>>(&mut self, network: &mut N, slot: usize, before: Needs, now: u64)
        ensures listens { N.listens network.new ≡ N.listens network.old }
        ensures clears { Clears self.old.connections self.new.connections }
        ensures left { self.new.left ≡ self.old.left }
        ensures came { N.came network.new ≡ N.came network.old }
        ensures asks { self.new.may_accept ≡ self.old.may_accept }
        ensures files { self.new.lacks_files ≡ self.old.lacks_files }
        ensures timers { self.new.timers.items ≡ timers_after slot
            (slice_get self.old.timers.items slot) before
            (slot_needs (at_slot slot self.old.connections))
            (slot_unsent (at_slot slot self.old.connections)) now self.old.timers.items }
        ensures stays { self.new.connections ≡ with_slot slot (unless_leaves
            (leaves_behind self.old.wanted (slice_get self.new.timers.items slot)
            (slot_needs (at_slot slot self.old.connections)) now)
            (at_slot slot self.old.connections)) self.old.connections }
        ensures wanted { self.new.wanted ≡ wanted_still
            (leaves_behind self.old.wanted (slice_get self.new.timers.items slot)
            (slot_needs (at_slot slot self.old.connections)) now) self.old.wanted }
    {
        let after = self.connections.needs(slot);
        let unsent = self.connections.has_unsent(slot);
        if after == Needs::Nothing {
            self.close(network, slot, Closed::Done, now);
            return;
        }
        if let Some(timer) = self.timers.get_mut(slot) {
            *timer = timer.behind(before, after, unsent, now);
        }
        self.give_way(network, slot, now);
    }

    // The caller at a slot can't be reached, and is gone.
    fn lose(&mut self, slot: usize)
        ensures connections { self.new.connections ≡ with_slot slot None self.old.connections }
        ensures timers { self.new.timers.items ≡ self.old.timers.items }
        ensures left { self.new.left ≡ self.old.left }
        ensures wanted { self.new.wanted ≡ None }
        ensures asks { self.new.may_accept ≡ self.old.may_accept }
        ensures files { self.new.lacks_files ≡ self.old.lacks_files }
    {
        self.wanted = None;
        self.log
            .tell_closed(self.connections.number(slot), Closed::Unreachable);
        let _ = self.connections.leave(slot);
    }

    // A turn of the caller at a slot, who needs something.
    fn go_on<N: Network<E>, L: Ledger, M: Ledger, T: Ticks, D: Handler + NamesCaller>(
        &mut self,
        network: &mut N,
        slot: usize,
        context: &mut Context<'_, L, M, T, D>,
        now: u64,
    )
        requires waits { gives_way self.old.wanted (slice_get self.old.timers.items slot) now
            ≡ false }
        ensures keeps { KeepsLent context.old context.new }
        ensures listens { N.listens network.new ≡ N.listens network.old }
        ensures hosts { HostsBy T.Ticks D.serves context.old context.new self.old self.new
            (N.came network.old) (N.came network.new) }
    {
        let before = self.connections.needs(slot);
        let number = self.connections.number(slot);
        context.handler.name_caller(number.unwrap_or(0));
        match self.connections.turn(slot, context) {
            Ok(()) => self.note(network, slot, before, now),
            Err(_) => self.lose(slot),
        }
    }

    // A turn of the caller at a slot, or it leaves if it gives way.
    fn turn<N: Network<E>, L: Ledger, M: Ledger, T: Ticks, D: Handler + NamesCaller>(
        &mut self,
        network: &mut N,
        slot: usize,
        context: &mut Context<'_, L, M, T, D>,
        now: u64,
    )
        ensures keeps { KeepsLent context.old context.new }
        ensures listens { N.listens network.new ≡ N.listens network.old }
        ensures hosts { HostsBy T.Ticks D.serves context.old context.new self.old self.new
            (N.came network.old) (N.came network.new) }
    {
        if self.connections.needs(slot) == Needs::Nothing {
            return;
        }
        if self.gives_way(slot, now) {
            self.close(network, slot, Closed::GaveWay, now);
            return;
        }
        self.go_on(network, slot, context, now);
    }

    /// What happened: somebody is waiting to be accepted, a caller has a turn, or a connection that ended is read.
    pub(crate) fn hear<N: Network<E>, L: Ledger, M: Ledger, T: Ticks, D: Handler + NamesCaller>(
        &mut self,
        network: &mut N,
        event: Event,
        context: &mut Context<'_, L, M, T, D>,
        now: u64,
    )
        ensures keeps { KeepsLent context.old context.new }
        ensures listens { N.listens network.new ≡ N.listens network.old }
        ensures hosts { HostsBy T.Ticks D.serves context.old context.new self.old self.new
            (N.came network.old) (N.came network.new) }
    {
        match event {
            Event::Listener => self.note_ready(now),
            Event::Slot(slot) => {
                self.turn(network, slot, context, now);
            }
            Event::Closed(parted) => {
                let input = &mut *context.input;
                network.read_away(parted, &mut input.bytes);
            }
        }
    }

    // Whether the time of whoever is at a slot is up.
    fn is_late(&self, slot: usize, now: u64) -> bool
        ensures { result ≡ is_late (slice_get self.now.timers.items slot) now
            (at_slot slot self.now.connections) }
    {
        match self.timers.get(slot) {
            Some(timer) => timer.is_up(self.connections.needs(slot), now),
            None => false,
        }
    }

    // The caller at a slot leaves if its time is up.
    #[tactic(auto, using(crate::proofs::RoundLemmas::clears_none, crate::proofs::GivingWayLemmas::with_same))]
    fn end_late<N: Network<E>>(&mut self, network: &mut N, slot: usize, now: u64)
        ensures listens { N.listens network.new ≡ N.listens network.old }
        ensures ends { self.new.connections ≡ with_slot slot
            (stays (slice_get self.old.timers.items slot) now (at_slot slot self.old.connections))
            self.old.connections }
        ensures timers { self.new.timers.items ≡ self.old.timers.items }
        ensures clears { Clears self.old.connections self.new.connections }
        ensures left { self.new.left ≡ self.old.left }
        ensures came { N.came network.new ≡ N.came network.old }
    {
        if self.is_late(slot, now) {
            self.close(network, slot, Closed::Late, now);
        }
    }

    /// Ends what takes too long, and looks waiting to be accepted again where there was no file for a caller.
    pub(crate) fn look_round<N: Network<E>>(&mut self, network: &mut N, now: u64)
        ensures listens { N.listens network.new ≡ N.listens network.old }
        ensures late { EndsLate self.old.timers.items now self.old.connections
            self.new.connections }
        ensures clears { Clears self.old.connections self.new.connections }
        ensures left { self.new.left ≡ self.old.left }
        ensures came { N.came network.new ≡ N.came network.old }
    {
        self.lacks_files = false;
        network.look_round(now);
        for slot in 0..SLOTS {
            self.end_late(network, slot, now);
        }
    }
}
