//! The words of an assembler source: names, numbers and operands.
#![tactic(auto)]

pub mod cuts;
pub mod names;
pub mod numbers;
pub mod operands;
#[cfg(test)]
mod tests;
