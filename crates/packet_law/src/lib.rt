//! The law of packets: applying the packet of an event is the step of the machine.
#![tactic(auto)]

mod laws;
#[cfg(test)]
mod tests;
mod typed;

pub use laws::{applied_is_next, fields_fit, reads_back, sound_interruptions, sound_rows};
pub use result_packet::{Fields, Packet};
pub use typed::told;
