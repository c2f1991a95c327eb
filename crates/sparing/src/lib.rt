//! The cores that no CPU has: spares, and those that are fenced.
#![tactic(auto)]

mod places;
mod pool;

pub use esa_model::memory::NoMemory;
pub use pool::Pool;
pub use run_model::faults::{CoreNo, Numbered};

#[cfg(test)]
mod tests;
