//! The rows of control instructions, DIAGNOSE, SIGNAL PROCESSOR and clocks: their tests, their
//! operands and what they do.
#![tactic(auto)]

mod clocks;
mod control;
mod diagnose;
mod keys;
mod rows;
mod signal;

pub use rows::{effect_of, in_order, operands};

#[cfg(test)]
mod tests;
