//! The words of the command line: which command they give, with which configuration.
#![tactic(auto)]

mod clap_words;
mod commands;
mod configuration;
mod forms;
mod numbers;
mod reading;
mod refusal;
#[cfg(test)]
mod tests;

pub use commands::{Command, JobNames, ResumeNames, SessionNames};
pub use numbers::address;
pub use reading::read_command;
pub use refusal::WordsRefused;
