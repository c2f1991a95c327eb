//! The inputs of a run: read whole, and accepted as what a machine starts from.
#![tactic(auto)]

mod accepting;
mod reading;
#[cfg(test)]
mod tests;

pub use accepting::{Accepted, LoadedDeck, accept, load_deck};
pub use reading::{InputBytes, read_inputs};
