//! A save is read in one pass, and judged field by field.
#![tactic(auto)]

mod head;
mod judge;
mod reader;
mod reading;
#[cfg(test)]
mod tests;
mod values;

pub use head::cpus_in;
pub use reading::{SavedRun, read_save};
