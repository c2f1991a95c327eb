//! The rows on strings of bytes and on decimal fields: their tests, their operands and what they
//! do.
#![tactic(auto)]

pub mod bytes;
mod conversions;
pub mod decimals;
mod edits;
mod fields;
mod long;
mod moves;
mod registers;
mod strings;
mod table_tests;
#[cfg(test)]
mod tests;
