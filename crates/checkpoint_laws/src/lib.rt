//! What the words of a core store, through a reading, strikes and writing, and through the turns of
//! a fate: laws, as clauses of functions that do nothing.
#![tactic(auto)]

mod readings;
mod turns;
mod writings;

pub use readings::{bounded_words_have_few_wrong, stored_words_read};
pub use turns::{
    read_as_the_fate_reads, turns_leave_other_cores, turns_of_recovering_cores,
    turns_of_running_cores,
};
pub use writings::{words_kept, words_read_back, words_struck, words_written};
