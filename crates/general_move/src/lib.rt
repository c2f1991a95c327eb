//! Rows that move, combine, compare and translate strings of bytes, and the units of the long ones.
#![tactic(auto)]

mod bytes;
mod long;
#[cfg(test)]
mod tests;

pub use bytes::{code_of, combine, compare_bytes, logical, overlapped, translate_test};
pub use esa_model::long_operands::{CompareUnit, Hit, LongOperands, MoveUnit};
pub use long::{compare_unit, move_unit};
