//! The result packet with its latches, and what stands beside the storage when one is made or
//! applied.
#![tactic(auto)]

mod apply;
mod apply_rest;
mod change_log;
mod codes;
mod console;
mod fetched;
mod fields;
mod latches;
mod laws;
mod notes;
mod numbers;
mod packet;
mod packet_fields;
mod pieces;
mod side;
mod swap_bytes;
mod taken;
mod told;
mod written;

pub use codes::{
    interruption_number, interruption_of, key_block, key_byte, key_set_of, order_number,
    order_target, sender_number, taken_number, taken_of, taken_sender,
};
pub use console::Console;
pub use esa_model::changes::Changed;
pub use fetched::psw_left;
pub use fields::{Fields, packed, registers_of};
pub use latches::{FetchLatch, StoreLatch};
pub use laws::{fields_stand_apart, latches_tell_one_bit};
pub use packet::Packet;
pub use pieces::Piece;
pub use side::Side;
pub use swap_bytes::{identification_bytes, old_psw_bytes};
pub use written::Written;

#[cfg(test)]
mod tests;
