//! The top call: all that the program does for its words, over any files, streams and silicon.
#![tactic(auto)]

mod assembling;
mod decks;
mod generated;
mod job;
mod linking;
mod logs;
mod ready;
mod session;
mod statuses;
#[cfg(test)]
mod tests;
mod top;

pub use program_model::inputs::Input;
pub use program_model::status::Status;
pub use top::g5_top;
