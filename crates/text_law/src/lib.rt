//! What the text of an instruction is read as by the assembler's language.
#![tactic(auto)]

pub mod laws;
#[cfg(test)]
mod tests;
