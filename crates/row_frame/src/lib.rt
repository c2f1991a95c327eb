//! What the rows of the tables are made of: addresses, values put into registers, and effects.
#![tactic(auto)]

mod addresses;
mod bytes;
mod effect;
mod instruction;
mod operands;

pub use addresses::{after, after_coded, first_of, general_of, indexed_of, second_of, with_code};
pub use bytes::{bytes_of, half_of, listed, word_of};
pub use effect::{Effect, end, interrupts, leave, pair_value, refuse, store, value, write};
pub use instruction::Instruction;
pub use operands::{no_operands, one, two};

#[cfg(test)]
mod tests;
