//! A debugger's session over the command lines of a text: each line is carried out, and its answer is
//! written before the next.
#![tactic(auto)]

mod answers;
mod conversing;
mod holding;
mod laws;

pub use conversing::converse;
pub use holding::hold_session;
pub use laws::{cut_answers, first_answers, ready_to_hold, turns_of_session, whole_answers};

#[cfg(test)]
mod tests;
