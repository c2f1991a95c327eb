//! What an accepted source holds when its program is loaded.
#![tactic(auto)]

pub mod laws;
