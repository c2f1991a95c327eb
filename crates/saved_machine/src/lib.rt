//! What the save of a machine holds, and that machines of one save stand for the same.
#![tactic(auto)]

mod counts;
mod laws;

pub use counts::Counts;
pub use laws::machines_of_one_save_stand_alike;
