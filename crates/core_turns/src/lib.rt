//! What a turn of one CPU does, over the parts of a machine.
#![tactic(auto)]

mod clock;
mod ends;
mod held;
mod idling;
mod journal;
mod laws;
mod outcomes;
mod recovering;
mod registers;
mod running;
mod turning;

pub use clock::advance_clock;
pub use held::{Held, SparePool, Turned};
pub use journal::Stamp;
pub use laws::{cores_stand_in_one_place, other_cpus_stand};
pub use outcomes::Outcome;
pub use registers::are_registers;
pub use turning::turn_held;

#[cfg(test)]
mod tests;
