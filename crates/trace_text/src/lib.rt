//! The lines of the trace: one for each commit.
#![tactic(auto)]

mod changes;
mod lines;
#[cfg(test)]
mod tests;

pub use esa_model::changes::Changed;
pub use lines::put_line;
