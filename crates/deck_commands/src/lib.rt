//! Commands on decks: the instructions of one, shown as text.
#![tactic(auto)]

mod disassembling;
#[cfg(test)]
mod tests;

pub use disassembling::disassemble_file;
