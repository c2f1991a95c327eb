//! The definitions of what the program is asked and what it answers, and the plain types that they
//! name.
#![tactic(auto)]

pub mod commands;
mod conversions;
pub mod inputs;
pub mod questions;
pub mod refusals;
pub mod status;
