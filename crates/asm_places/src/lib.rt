//! From the statements of an assembler source to its first refusal, or to its program.
#![tactic(auto)]

pub mod assembling;
mod emission;
pub mod externals;
mod fields;
mod forms;
mod kinds;
pub mod naming;
pub mod places;
pub mod program;
pub mod refusals;
mod sizes;
mod spots;
#[cfg(test)]
mod tests;
mod undefined;
