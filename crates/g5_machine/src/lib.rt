//! The machine that runs on through faults of its cores: its start and its turns.
#![tactic(auto)]

mod counts;
mod keys;
mod machine;
mod resuming;
mod returning;
mod starting;
mod state;
mod turning;
mod turns;

pub use core_turns::Outcome;
pub use machine::Machine;
pub use resuming::Tally;
pub use turns::Turn;

#[cfg(test)]
mod tests;
