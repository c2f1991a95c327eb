//! The deck of an assembled program, and what it holds when it is loaded.
#![tactic(auto)]

mod cards;
mod deck;
pub mod laws;
#[cfg(test)]
mod tests;
mod text;

pub use deck::deck_of;
