//! The input that is drawn from a number: a deck, a schedule and a fault script.
#![tactic(auto)]

mod cards;
mod code;
mod draws;
mod generating;
mod puts;
mod schedules;
mod strikes;
#[cfg(test)]
mod tests;

pub use esa_model::memory::NoMemory;
pub use generating::{Generated, generate};
