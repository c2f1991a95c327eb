//! The image of an object deck in the storage, or the deck's first violation.
#![tactic(auto)]

mod accepting;
mod bytes;
mod checks;
mod ends;
mod entry;
mod index;
mod keys;
mod listing;
mod loading;
mod lookup;
mod place;
mod pushes;
#[cfg(test)]
mod tests;
mod write;

pub use accepting::{Accepted, accept_lists};
pub use bytes::byte_at;
pub use deck_model::decks::{DeckRefusal, Loaded};
pub use listing::{Lists, read_deck};
pub use loading::{carry_out, load};
pub use lookup::{item_by_id, item_by_name, section_by_id};
pub use write::{constant_place, load_address_of, text_place};
