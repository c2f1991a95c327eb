//! Decimal values: packed fields as signed whole numbers below 10^31.
#![tactic(auto)]

mod fields;
mod products;
mod shifts;
mod sums;
#[cfg(test)]
mod tests;
mod values;

pub use fields::{pack, unpack, written_is_read};
pub use products::{divide, multiply};
pub use shifts::shift;
pub use sums::{add, subtract};
pub use values::{Digits, Wide};
