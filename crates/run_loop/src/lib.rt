//! The loop over the turns of a schedule, for every fault script: an engine makes each turn, and what it
//! tells is written and counted.
#![tactic(auto)]

mod counting;
mod engine;
mod laws;
mod running;
mod turning;
mod writing;

pub use counting::{count_turn, none_made};
pub use engine::{Engine, Turn};
pub use laws::{
    counts_of_sound_turns, failures_have_strikes, front_of_turns, lawful_and_few_retries,
    pieces_of_sound_turns, texts_begin, told_by_turns,
};
pub use running::{make_run, make_runs};
pub use turning::make_turn;

#[cfg(test)]
mod tests;
