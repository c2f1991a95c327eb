//! What the program writes: the two files and the output of a run, as pieces in one order; and a file
//! that is made whole.
#![tactic(auto)]

mod making;
mod outputs;
mod starting;

pub use making::write_file;
pub use outputs::{OutputFiles, add_to_file, add_to_sink, put, put_all};
pub use run_model::outputs::Place;
pub use starting::start_files;

#[cfg(test)]
mod tests;
