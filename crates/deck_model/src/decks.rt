ghost use Rattle.std.specs.Prelude.{◌≡◌};
ghost use Rattle.deck_model.specs.declared.decks.DeckRefusal.TheVariants.{NoMemory};

use crate::cards::{Card, EsdItem, RldItem};
use arrayvec::ArrayVec;
use std::alloc::AllocError;
use thiserror::Error;

/// A card of a deck, with its number from 1 and that of its module from 0.
#[derive(Debug, Drop, PartialEq)]
pub struct Numbered {
    pub number: u32,
    pub owner: u32,
    pub card: Card,
}

/// An ESD item of a deck, with the numbers of its card and its module, and its ESDID.
#[derive(Clone, Copy, Debug, PartialEq, Eq)]
pub struct Item {
    pub number: u32,
    pub owner: u32,
    pub id: u32,
    pub item: EsdItem,
}

/// The text of a card.
#[derive(Debug, Drop, PartialEq)]
pub struct Text {
    pub number: u32,
    pub owner: u32,
    pub id: u32,
    pub address: u32,
    pub bytes: ArrayVec<u8, 56>,
}

/// A relocation of a deck.
#[derive(Clone, Copy, Debug, PartialEq, Eq)]
pub struct Relocation {
    pub number: u32,
    pub owner: u32,
    pub item: RldItem,
}

/// An entry that an END card of a deck names.
#[derive(Clone, Copy, Debug, PartialEq, Eq)]
pub struct Entry {
    pub number: u32,
    pub owner: u32,
    pub address: u32,
    pub id: u32,
}

/// A use of an ESDID: by a pointer that may name any item, or where only a section will do.
#[derive(Clone, Copy, Debug, PartialEq, Eq)]
pub struct Use {
    pub number: u32,
    pub owner: u32,
    pub id: u32,
    pub any: bool,
}

/// A section with its length and its load address.
#[derive(Clone, Copy, Debug, PartialEq, Eq)]
pub struct Placed {
    pub item: Item,
    pub length: u64,
    pub at: u64,
}

/// Why a deck has no image, in the order in which the refusals are tested; the number is that of
/// the card, from 1. Want of memory comes at any point.
#[derive(Clone, Copy, Debug, Error, PartialEq, Eq)]
pub enum DeckRefusal {
    #[error("the deck is no list of cards of 80 bytes")]
    NotCards,
    #[error("card {0} does not begin with X'02'")]
    BadFirstByte(u32),
    #[error("card {0} is of an unknown type")]
    UnknownCard(u32),
    #[error("card {0} has a count that its type has not")]
    BadCount(u32),
    #[error("card {0} is not supported")]
    Unsupported(u32),
    #[error("the deck does not end with an END card")]
    NoEnd,
    #[error("card {0} has an ESDID that its module has already")]
    DuplicateId(u32),
    #[error("card {0} defines a name that the deck has already")]
    DuplicateName(u32),
    #[error("card {0} names an ESDID that its module has not")]
    UnknownId(u32),
    #[error("card {0} has text outside its section")]
    TextOutside(u32),
    #[error("card {0} relocates a constant outside its section")]
    RldOutside(u32),
    #[error("the entry is outside its section")]
    EntryOutside,
    #[error("card {0} has a name that nothing defines")]
    Unresolved(u32),
    #[error("the sections do not fit into the storage")]
    NoRoom,
    #[error("no memory")]
    NoMemory,
}

impl From<AllocError> for DeckRefusal {
    ghost from_gives = { λ _ e. e ≡ NoMemory };

    fn from(_: AllocError) -> DeckRefusal {
        DeckRefusal::NoMemory
    }
}

/// A deck that stands in the storage: its entry.
#[derive(Clone, Copy, Debug, PartialEq, Eq)]
pub struct Loaded {
    pub address: u32,
}
