//! The operations of the general instructions that branch or link, and those on the program mask.
#![tactic(auto)]

mod conditions;
mod links;
mod masks;
mod modes;
mod registers;
mod rows;
#[cfg(test)]
mod tests;

pub use esa_model::instructions::Decoded;
pub use esa_model::machine::{Psw, Registers};
pub use rows::branch;
