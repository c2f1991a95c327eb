//! The rows on words, the rows that branch, and the rows of one operand in storage, in code.
#![tactic(auto)]

pub mod branches;
mod characters;
mod lists;
mod masks;
mod multiple;
mod single_bytes;
pub mod stores;
mod swaps;
#[cfg(test)]
mod tests;
mod values;
pub mod words;
