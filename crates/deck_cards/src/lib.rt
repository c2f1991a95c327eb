//! The cards of a deck that is made: written one behind another, numbered in columns 73-80.
#![tactic(auto)]

mod cards;
pub mod laws;
mod relocations;
mod texts;

pub use cards::push_card;
pub use relocations::push_relocations;
pub use texts::push_texts;
