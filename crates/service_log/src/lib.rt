//! The service log: its lines written and read, and logs of version 1 brought to version 2.
#![tactic(auto)]

mod ends;
mod fields;
mod laws;
mod migrating;
mod reading;
#[cfg(test)]
mod tests;
mod writing;

pub use ends::{Ending, Heading, read_head, read_tail};
pub use laws::{ends_are_read, read_is_written, written_is_read};
pub use migrating::{migrate, next_line};
pub use reading::read;
pub use run_model::logs::{Config, Entry, LogRefusal, MigrateRefusal, What};
pub use writing::{head, tail, write};
