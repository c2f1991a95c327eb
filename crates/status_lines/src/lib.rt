//! What the program says of how it ended: the line of each status, the report and the summary.
#![tactic(auto)]

mod lines;
mod names;
mod refusals;
mod reports;
#[cfg(test)]
mod tests;
mod texts;

pub use lines::{say, say_line};
pub use names::name_of;
pub use reports::{audit_line_of, report_of, summary_of};
