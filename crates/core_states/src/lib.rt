//! The typed states of a core: where a fault is found, and undone.
#![tactic(auto)]

mod cores;
mod holding;
mod latches;
mod laws;
mod resumed;
mod states;
mod tried;
mod words;

pub use cores::{
    Attempt, FencedCore, HandedOver, Recovered, RecoveringCore, RunningCore, SpareCore,
};
pub use laws::{one_cause, passes_unstruck};
pub use words::Notes;

#[cfg(test)]
mod tests;
