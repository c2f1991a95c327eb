//! The assembler: from the text of a source to its deck, and the statement of an instruction.
#![tactic(auto)]

mod assembling;
mod refusing;
#[cfg(test)]
mod tests;
#[cfg(test)]
mod text_tests;
mod texts;

pub use assembling::assemble;
pub use texts::text;
