//! Inputs: files read whole, up to a limit.
#![tactic(auto)]

mod inputs;
mod keys;
mod reading;
#[cfg(test)]
mod tests;

pub use inputs::read_input;
pub use keys::read_keys;
pub use reading::{ReadRefusal, read_some, read_whole};
