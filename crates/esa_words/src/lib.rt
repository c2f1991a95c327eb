//! Words of 32 bits and the texts of numbers.
#![tactic(auto)]

mod decimals;
mod hexadecimals;
#[cfg(test)]
mod tests;

pub use decimals::{decimal, is_decimal, read_decimal};
pub use esa_model::words::{bits, signed32, wrap32};
pub use hexadecimals::{hex2, hex6, hex8};
