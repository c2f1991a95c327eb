//! The run of a generated input: its turns are made to their end, and counted where a run with outputs would
//! write.
#![tactic(auto)]

mod counting;
mod drawn;
mod generated;
mod tallies;

pub use counting::count_runs;
pub use generated::run_generated;
pub use tallies::Tally;

#[cfg(test)]
mod tests;
