//! Commands that make a deck, from files to a file: a source assembled, and decks linked into one.
#![tactic(auto)]

mod assembling;
mod linking;
mod parts;
#[cfg(test)]
mod tests;

pub use assembling::assemble_file;
pub use linking::link_files;
