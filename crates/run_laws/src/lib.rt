//! Laws of fault scripts, of whole runs and of logs, as clauses of functions that do nothing.
#![tactic(auto)]

pub mod lawfulness;
pub mod scripts;
pub mod whole_runs;
