//! How long a server waits for a caller.

ghost use Rattle.std.specs.Prelude.{◌≡◌, ◌&&◌, ◌||◌, None, Some, nat_lt, IfSome};
ghost use Rattle.web_server.specs.GivingWay.{MayGo, beyond, begins_no_more, is_owed_nothing, lent, or_lent, readiness_in_group, readiness_of};
ghost use Rattle.web_server.specs.Timeouts.{load_with, is_up, sends_too_long, timer_after, timer_begun};

use web_connections::Needs;

/// How long it waits between two requests, in milliseconds.
const IDLE_TIMEOUT_MS: u64 = 60_000;

/// How long it waits from the first bytes of a request to its last; for the first request, from when the caller came.
const REQUEST_TIMEOUT_MS: u64 = 30_000;

/// How long it waits for a part of an answer to be taken.
const WRITE_TIMEOUT_MS: u64 = 10_000;

/// How long bytes may be unsent without a break.
const SEND_TIMEOUT_MS: u64 = 30_000;

/// How long a request has at least where another caller wants its slot.
const GRACE_MS: u64 = 1_000;

/// How long the next request has to come at least where another caller wants the slot.
const PAUSE_MS: u64 = 250;

/// How long a slot is its caller's own. Beyond that it is lent.
const LENT_AFTER_MS: u64 = 1_000;

/// By how much whoever is between two requests is readier to go than whoever is within one.
const IDLE_FIRST: u64 = 1 << 63;

/// By how much whoever is within a request beyond its grace is readier to go than whoever has a slot that is only lent.
const WITHIN_FIRST: u64 = 1 << 62;

/// How many callers are between two requests, and how many within one.
#[derive(Clone, Copy, Drop, PartialEq, Eq)]
pub(crate) struct Load {
    between: u64,
    within: u64,
    unsent: u64,
}

impl Load {
    /// Nobody yet.
    pub(crate) fn new() -> Load
        ensures { result ≡ record { between = 0; within = 0; unsent = 0 } }
    {
        Load {
            between: 0,
            within: 0,
            unsent: 0,
        }
    }

    /// A load with one caller more. Whoever has an answer underway is in neither group.
    pub(crate) fn with(self, timer: Timer, needs: Needs) -> Load
        ensures { result ≡ load_with timer needs self }
    {
        let mut load = self;
        match (needs, timer.began, timer.unsent) {
            (Needs::Bytes, None, _) => load.between = load.between.saturating_add(1),
            (Needs::Bytes, Some(_), _) => load.within = load.within.saturating_add(1),
            (Needs::Room, _, Some(_)) => load.unsent = load.unsent.saturating_add(1),
            _ => {}
        }
        load
    }

    // Whether another group is greater than those between two requests.
    fn is_busy(self) -> bool
        ensures { result ≡ nat_lt self.between self.within || nat_lt self.between self.unsent }
    {
        self.within > self.between || self.unsent > self.between
    }

    // Whether those who have bytes unsent are the greatest group.
    fn is_unsent(self) -> bool
        ensures { result ≡ nat_lt self.between self.unsent && nat_lt self.within self.unsent }
    {
        self.unsent > self.between && self.unsent > self.within
    }
}

/// When a caller came, since when it waits for what it waits for, since when its request is on its way, and since when it has bytes unsent. In
/// milliseconds, as all moments here.
#[derive(Clone, Copy, Drop, PartialEq, Eq)]
pub(crate) struct Timer {
    came: u64,
    waits: u64,
    began: Option<u64>,
    unsent: Option<u64>,
}

impl Timer {
    /// A caller that came at that moment. It is within its first request from then on, also where it sent nothing yet: else callers that send nothing
    /// would take the slots of those who pause between two requests.
    pub(crate) fn new(now: u64) -> Timer
        ensures { result ≡ timer_begun now }
    {
        Timer {
            came: now,
            waits: now,
            began: Some(now),
            unsent: None,
        }
    }

    /// Since when a caller waits behind a turn. Whoever waited for bytes, and does still, is within a request.
    pub(crate) fn behind(self, before: Needs, after: Needs, unsent: bool, now: u64) -> Timer
        ensures { result ≡ timer_after self before after unsent now }
    {
        let began = match (before, after) {
            (Needs::Bytes, Needs::Bytes) => Some(self.began.unwrap_or(now)),
            _ => None,
        };
        let unsent = match unsent {
            true => Some(self.unsent.unwrap_or(now)),
            false => None,
        };
        Timer {
            came: self.came,
            waits: now,
            began,
            unsent,
        }
    }

    // Whether it has had bytes unsent too long.
    fn sends_too_long(self, now: u64) -> bool
        ensures { result ≡ sends_too_long self.unsent now }
    {
        match self.unsent {
            Some(unsent) => now.saturating_sub(unsent) >= SEND_TIMEOUT_MS,
            None => false,
        }
    }

    /// Whether its time is up.
    pub(crate) fn is_up(self, needs: Needs, now: u64) -> bool
        ensures { result ≡ is_up self needs now }
    {
        match (needs, self.began) {
            (Needs::Bytes, None) => now.saturating_sub(self.waits) >= IDLE_TIMEOUT_MS,
            (Needs::Bytes, Some(began)) => now.saturating_sub(began) >= REQUEST_TIMEOUT_MS,
            (Needs::Room, _) => now.saturating_sub(self.waits) >= WRITE_TIMEOUT_MS
                || self.sends_too_long(now),
            (Needs::Nothing, _) => false,
        }
    }

    // How readily its slot is given to another caller as one of a group, none where it isn't, as within a grace. The one to go is of the greater group:
    // where more callers are within a request than between two, nobody goes who is between two, and whose request began first goes first; else whoever
    // has waited longest between two goes first, and after these whoever is within one. Whoever has bytes unsent goes only where that group is greatest.
    fn readiness_in_group(self, needs: Needs, load: Load, now: u64) -> Option<u64>
        ensures { result ≡ readiness_in_group self needs load now }
    {
        let waited = now.saturating_sub(self.waits);
        match (needs, self.began, self.unsent) {
            (Needs::Bytes, None, _) if !load.is_busy() => beyond(PAUSE_MS, IDLE_FIRST, waited),
            (Needs::Bytes, Some(began), _) => {
                beyond(GRACE_MS, WITHIN_FIRST, now.saturating_sub(began))
            }
            (Needs::Room, _, Some(unsent)) if load.is_unsent() => {
                beyond(GRACE_MS, IDLE_FIRST, now.saturating_sub(unsent))
            }
            _ => None,
        }
    }

    // Whether nothing of its answers is unsent, or it has had bytes unsent for a second.
    fn is_owed_nothing(self, now: u64) -> bool
        ensures { result ≡ is_owed_nothing self.unsent now }
    {
        match self.unsent {
            Some(unsent) => now.saturating_sub(unsent) >= GRACE_MS,
            None => true,
        }
    }

    // How readily a slot that is only lent is given to another caller: whoever came first goes first.
    fn lent(self, now: u64) -> Option<u64>
        ensures { result ≡ lent self now }
    {
        let long = now.saturating_sub(self.came);
        if long >= LENT_AFTER_MS && self.is_owed_nothing(now) {
            Some(long.min(WITHIN_FIRST - 1))
        } else {
            None
        }
    }

    /// How readily its slot is given to another caller: as one of a group, or else as one that is only lent.
    pub(crate) fn readiness(self, needs: Needs, load: Load, now: u64) -> Option<u64>
        ensures readiness { result ≡ readiness_of self needs load now }
        ensures may_go { IfSome result
            (λ readiness. MayGo load self needs now) }
    {
        if needs == Needs::Nothing {
            return None;
        }
        or_lent(self.readiness_in_group(needs, load, now), self.lent(now))
    }

    /// Whether it begins no further message while one more waits: its slot is only lent, and nothing of its answers is unsent.
    pub(crate) fn begins_no_more(self, now: u64) -> bool
        ensures { result ≡ begins_no_more self now }
    {
        self.unsent.is_none() && now.saturating_sub(self.came) >= LENT_AFTER_MS
    }
}

// How readily one goes: as one of a group, or else as one whose slot is lent.
fn or_lent(grouped: Option<u64>, lent: Option<u64>) -> Option<u64>
    ensures { result ≡ or_lent grouped lent }
{
    match grouped {
        Some(readiness) => Some(readiness),
        None => lent,
    }
}

// How readily whoever has waited that long goes: not at all within a grace, else the longer the more, with so much added.
fn beyond(grace: u64, more: u64, long: u64) -> Option<u64>
    ensures { result ≡ beyond grace more long }
{
    if long >= grace {
        Some(more.saturating_add(long))
    } else {
        None
    }
}
