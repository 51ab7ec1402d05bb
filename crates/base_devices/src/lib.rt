//! What do a reader, a writer and a clock report of what passed through them?
#![tactic(auto)]

pub mod device;
pub mod std_device;

pub use device::{Drain, Refused, Source, Tick, Ticks};
pub use std_device::Device;
