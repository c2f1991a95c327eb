//! The text of an instruction, and the lines that a storage is disassembled into.
#![tactic(auto)]

mod lines;
mod operands;
#[cfg(test)]
mod tests;
mod texts;

pub use lines::{Item, dis_line, item_from};
pub use operands::{Operand, Operands, operands_by};
pub use texts::text;
