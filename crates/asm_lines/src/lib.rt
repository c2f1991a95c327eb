//! The lines of an assembler source: what each says, and all of a text.
#![tactic(auto)]

pub mod heads;
pub mod lines;
pub mod mnemonics;
pub mod slots;
pub mod sources;
pub mod statements;
#[cfg(test)]
mod tests;
