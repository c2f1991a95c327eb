//! The definitions of object decks, and the plain types that they name.
#![tactic(auto)]

pub mod cards;
pub mod decks;
