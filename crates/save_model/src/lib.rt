//! The format of a save: its definitions, the plain types that they name, and its laws.
#![tactic(auto)]

pub mod laws;
pub mod parts;
pub mod refusal;
