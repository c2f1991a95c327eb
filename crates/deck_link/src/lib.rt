//! One deck of one section for a deck of many modules.
#![tactic(auto)]

mod cards;
mod clashes;
mod constants;
mod counting;
mod labels;
mod linking;
mod parts;
mod section;
#[cfg(test)]
mod tests;

pub use linking::link;
pub use program_model::refusals::LinkRefusal;
