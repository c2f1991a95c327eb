//! Which event is due at a CPU, and where interruptions have their PSWs.
#![tactic(auto)]

mod events_due;
mod swaps;

pub use esa_model::events::Interruption;
pub use esa_model::machine::{CpuNo, Due, Psw, Registers, Request};
pub use events_due::{due, early_fault, enabled};
pub use swaps::{Swap, places_of, swap_of};

#[cfg(test)]
mod tests;
