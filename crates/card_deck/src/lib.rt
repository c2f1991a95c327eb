//! One card of an object deck: read from its 80 bytes, and written.
#![tactic(auto)]

mod columns;
mod fitting;
mod read;
mod read_rld;
#[cfg(test)]
mod tests;
mod write;

pub use deck_model::cards::{
    Card, CardRefusal, EntryPoint, EsdCard, EsdItem, Kind, RldCard, RldItem, Sort, TxtCard,
};
pub use fitting::fits;
pub use read::read_card;
pub use write::write_card;
