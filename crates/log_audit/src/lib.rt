//! A judge of service logs of version 2: whether a log is lawful, by itself.
#![tactic(auto)]

mod auditing;
mod form;
mod judging;
mod laws;
mod lines;
mod memory;
mod points;
mod sorts;
#[cfg(test)]
mod tests;

pub use auditing::{Audited, audit};
pub use laws::{cores_in_one_place, written_logs, yes_exactly_where_lawful};
pub use program_model::refusals::AuditRefusal;
