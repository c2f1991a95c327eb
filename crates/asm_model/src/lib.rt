//! The language of the assembler: its definitions, and the plain types that they name.
#![tactic(auto)]

pub mod operands;
pub mod program;
pub mod refusal;
pub mod statements;
