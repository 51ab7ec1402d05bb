//! Messages as arrivals.

ghost use Rattle.std.specs.Prelude.{◌≡◌};
ghost use Rattle.web_arrivals.specs.Coming.{arriving, arrival_of};

use base_devices::Tick;
use base_values::Response;
use model_answers::Key;
use office_deliveries::{Arrival, Request};
use web_api::Call;

// A request that comes at a tick.
fn arriving(tick: Tick, token: u64, key: Key, request: Request) -> Arrival
    ensures { result ≡ arriving tick token key request }
{
    Arrival {
        clock: tick.clock,
        draw: tick.draw,
        token,
        key,
        request,
    }
}

/// The arrival that a call is, or else what is told without one.
pub(crate) fn arrival_of(tick: Tick, token: u64, key: Key, call: Call) -> Result<Arrival, Response>
    ensures { result ≡ arrival_of tick token key call }
{
    let request = match call {
        Call::Unauthorized(response) => return Err(response),
        Call::Read(query) => Request::Read(query),
        Call::ReadRefused(response) => Request::ReadRefused(response),
        Call::Write(command) => Request::Write(command),
        Call::WriteRefused(response) => Request::WriteRefused(response),
    };
    Ok(arriving(tick, token, key, request))
}
