//! The schedule: which turn follows which.
#![tactic(auto)]

mod parsing;
#[cfg(test)]
mod tests;
mod words;

pub use parsing::{Schedule, parse};
pub use run_model::schedules::{Run, RunKind, ScheduleRefusal};
