//! The bytes of a save, written into memory that was taken before.
#![tactic(auto)]

mod numbers;
mod parts;
mod room;
#[cfg(test)]
mod tests;

pub use room::{SaveRoom, write_save};
