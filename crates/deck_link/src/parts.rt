//! What the linked deck is made of.
ghost use Rattle.std.specs.Prelude.{◌≡◌, ℕ, ◌%◌, ◌<◌, ◌≤◌, length, slice_index, replicate, IfOk};
ghost use Rattle.deck_model.specs.Image.{image_byte};
ghost use Rattle.deck_loader.specs.Accepted.{AcceptedAs, FitsInto};
ghost use Rattle.deck_loader.specs.Listed.{listed};
ghost use Rattle.link_model.specs.Linked.{whole_length};
ghost use Rattle.deck_link.specs.Answers.{most_length};
ghost use Rattle.deck_link.specs.Constants.{constants_for};
ghost use Rattle.deck_link.specs.Parts.{ArePartsOf};
ghost use Rattle.deck_link.specs.Sound.{Sound};

use crate::constants::{Constant, moving_items};
use crate::labels::labels_of;
use crate::section::standing;
use abs_storage::AbsStorage;
use card_deck::{EsdItem, RldItem};
use deck_loader::{Accepted, carry_out};
use std::alloc::{AllocError, Global};

/// The parts of the linked deck: a label for each name, the image at origin 0, how many bytes of it
/// the one section has and on which of them something stands, the relocations, and the entry.
#[derive(Drop)]
pub struct Parts {
    pub labels: Vec<EsdItem>,
    pub storage: AbsStorage,
    pub extent: usize,
    pub stands: Vec<bool>,
    pub items: Vec<RldItem>,
    pub entry: u32,
}

fn zeros(alloc: Global, size: u32) -> Result<AbsStorage, AllocError>
    requires pages { size % 4096 ≡ 0 }
    requires small { size ≤ 16777216 }
    ensures { IfOk result (λ s. s ≡ replicate size 0) }
{
    match AbsStorage::new(alloc, size) {
        Ok(storage) => Ok(storage),
        Err(_) => Err(AllocError),
    }
}

// The image at origin 0, in a storage of so many bytes.
fn image_of(alloc: Global, deck: &Accepted, size: u32) -> Result<AbsStorage, AllocError>
    requires fits { FitsInto size deck.now }
    requires pages { size % 4096 ≡ 0 }
    requires small { size ≤ 16777216 }
    ensures long { IfOk result (λ s. length s ≡ size) }
    ensures bytes { IfOk result (λ s. (k : ℕ) → k < size → slice_index s k
        ≡ image_byte (listed deck.now.lists) deck.now.placed.items k) }
{
    let mut storage = zeros(alloc, size)?;
    carry_out(&mut storage, deck);
    Ok(storage)
}

/// The parts of the linked deck of a deck that nothing refuses but its length, with its constants
/// and the farthest end of its sections.
pub fn parts_of(
    alloc: Global,
    deck: &Accepted,
    extent: usize,
    constants: &[Constant],
) -> Result<Parts, AllocError>
    requires accepted { AcceptedAs 0 most_length (listed deck.now.lists) deck.now }
    requires sound { Sound (listed deck.now.lists) deck.now.entry }
    requires extent { extent ≡ whole_length deck.now.placed.items }
    requires constants { constants.now
        ≡ constants_for deck.now.lists.items.items deck.now.placed.items
        deck.now.lists.relocations.items }
    ensures { IfOk result (λ p. ArePartsOf (listed deck.now.lists) deck.now.entry p) }
{
    let labels = labels_of(alloc, deck)?;
    let storage = image_of(alloc, deck, 0xFF_0000)?;
    let stands = standing(alloc, deck, extent, constants)?;
    let items = moving_items(alloc, constants)?;
    Ok(Parts {
        labels,
        storage,
        extent,
        stands,
        items,
        entry: deck.entry as u32,
    })
}
