//! Operands in storage: their addresses, whether their bytes may be accessed, these bytes, and the
//! blocks in which they lie.
#![tactic(auto)]

mod addresses;
mod blocks;
mod bytes;
mod fetch;
mod operands;
mod protection;

pub use abs_storage::View;
pub use addresses::{effective, place_of, relative};
pub use blocks::{note_operand, note_operands};
pub use bytes::{byte_after, byte_at, gather, overlaid};
pub use fetch::{Fetched, instruction};
pub use operands::{Operand, Operands, none, whole};
pub use protection::{operand_code, refused, refused_of};

#[cfg(test)]
mod tests;
