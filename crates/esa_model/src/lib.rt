//! The definitions of the machine, and the plain types that they name.
#![tactic(auto)]

pub mod changes;
pub mod clocks;
pub mod codes;
pub mod decimals;
pub mod events;
pub mod instructions;
pub mod kinds;
pub mod long_operands;
pub mod machine;
pub mod memory;
pub mod psw;
pub mod signalling;
pub mod words;
