//! The definitions of whole runs, of faults and of texts, and the plain types that they name.
#![tactic(auto)]

pub mod faults;
pub mod logs;
pub mod outputs;
pub mod readings;
pub mod schedules;
