//! Fault scripts: what they say, and whether they are within the premise.
#![tactic(auto)]

mod bits;
mod core_walks;
mod fields;
mod gathered;
mod lines;
mod masks;
mod order;
mod ordered;
mod parsing;
#[cfg(test)]
mod tests;
mod verdict;
mod walking;
mod words;

pub use order::is_brief_strike;
pub use parsing::parse;
pub use run_model::faults::{ScriptRefusal, Strike, Unit};
pub use verdict::{Script, within};
pub use walking::Walk;
