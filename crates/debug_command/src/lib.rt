//! A debugger's session from its files and lines to its output.
#![tactic(auto)]

mod holding;
mod preparing;

pub use holding::{Held, debug_session};
