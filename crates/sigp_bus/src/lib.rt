//! The states of the CPUs and the requests that are pending at them.
#![tactic(auto)]

mod request_bus;
mod signals;

pub use esa_model::machine::{CpuNo, CpuState, Request, Signals};
pub use esa_model::memory::NoMemory;
pub use esa_model::signalling::SigpAnswer;
pub use request_bus::Bus;

#[cfg(test)]
mod tests;
