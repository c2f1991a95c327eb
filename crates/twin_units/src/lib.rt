//! Units of operation over any row of the tables, the latch and the packet of the event that is due.
#![tactic(auto)]

mod computing;
mod done;
mod exceptions;
mod interruptions;
mod latching;
mod operation;
mod results;
mod rows;
mod telling;

pub use computing::compute;
pub use latching::latch;
pub use results::{FixedUnit, PlainUnit, ResultUnit};

#[cfg(test)]
mod tests;
