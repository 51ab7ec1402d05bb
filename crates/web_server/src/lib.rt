//! How does one thread serve many callers over the network, at one handler?
#![tactic(auto)]

pub mod clock;
pub mod host;
mod lingering;
pub mod listening;
pub mod log;
pub mod logged;
mod server;
pub mod serving;
pub mod tcp_network;
mod timeouts;

pub use clock::{ClockTicks, System, read_tick};
pub use host::Host;
pub use listening::{listen_and_run, run_over_tcp};
pub use log::Log;
pub use logged::{Logged, NamesCaller};
pub use serving::run_event_loop;
pub use tcp_network::TcpNetwork;
pub use web_callers::laws;
