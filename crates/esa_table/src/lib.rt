//! The opcode table of the machine: decoding an instruction and encoding one.
#![tactic(auto)]

pub mod encoding;
mod fields;
mod rows;
pub mod table;
#[cfg(test)]
mod tests;

pub use encoding::encode;
pub use esa_model::instructions::{Decoded, Form, Row};
pub use esa_model::kinds::Kind;
pub use table::{Table, decode, kind, row};
