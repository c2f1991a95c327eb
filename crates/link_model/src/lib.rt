//! The one section that stands for decks, and what it is where it is loaded.
#![tactic(auto)]

pub mod laws;
