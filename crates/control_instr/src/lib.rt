//! The control instructions but SIGNAL PROCESSOR, row by row: the rows of registers, masks,
//! prefixes and keys, the rows on clocks, and the functions of DIAGNOSE.
#![tactic(auto)]

mod clock_rows;
mod console;
mod control_registers;
mod control_row;
mod masks;
mod operands;
mod outcome;
mod prefixes;
mod storage_key;

pub use clock_rows::clock_row;
pub use console::console_call;
pub use control_row::control;
pub use esa_model::clocks::ClockRow;
pub use esa_model::instructions::Decoded;
pub use esa_model::machine::{CpuNo, Psw, Registers};
pub use operands::{boundary_of, fetched, is_aligned, stored};
pub use outcome::Controlled;

#[cfg(test)]
mod tests;
