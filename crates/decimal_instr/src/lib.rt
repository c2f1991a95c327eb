//! The decimal instructions, packing, editing and the conversions between decimal and binary.
#![tactic(auto)]

mod binary;
mod endings;
mod halves;
mod patterns;
mod products;
mod sums;
#[cfg(test)]
mod tests;
mod two_fields;

pub use binary::{cvb, cvd};
pub use esa_model::decimals::Edited;
pub use patterns::edit;
pub use sums::srp;
pub use two_fields::two;
