//! A machine is saved, and stood up again from a save.
#![tactic(auto)]

mod again;
mod bringing;
mod numbers;
mod placing;
mod resuming;
mod saving;
mod standing;

pub use resuming::{Resumed, resume};
pub use saved_machine::{Counts, machines_of_one_save_stand_alike};
pub use saving::{cpus, reserve, save};

#[cfg(test)]
mod tests;
