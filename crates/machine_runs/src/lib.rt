//! Whole runs of the machine that runs on through faults: log, trace and console from head to tail.
#![tactic(auto)]

mod cpu_turns;
mod other_turns;
mod ready;
mod twin_machine;
mod whole;

pub use ready::{Ready, make_ready};
pub use twin_machine::TwinMachine;
pub use whole::make_whole;
