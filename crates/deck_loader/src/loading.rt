//! A deck loaded into a storage.
ghost use Rattle.std.specs.Prelude.{◌≡◌, ◌<◌, ◌≤◌, ◌^◌, length, replicate, IfOk, Ok};
ghost use Rattle.deck_model.specs.Image.{image, image_of, image_byte, bytes_from};
ghost use Rattle.deck_loader.specs.Accepted.{FitsInto};
ghost use Rattle.deck_loader.specs.Listed.{listed, WidthsFit, TextsAreUsed};
ghost use Rattle.deck_loader.specs.Loaded.{Loads};

use crate::accepting::{Accepted, accept_lists};
use crate::listing::{Lists, read_deck};
use crate::write::{relocate_all, write_texts};
use abs_storage::AbsStorage;
use deck_model::decks::{DeckRefusal, Loaded};
use std::alloc::Global;

/// Writes the texts of an accepted deck into a storage of zeros, and then its relocations.
pub fn carry_out(storage: &mut AbsStorage, deck: &Accepted)
    requires fits { FitsInto (length storage.old) deck.now }
    requires most { length storage.old ≤ 16777216 }
    requires zero { storage.old ≡ replicate (length storage.old) 0 }
    ensures { storage.new
        ≡ bytes_from (image_byte (listed deck.now.lists) deck.now.placed.items) 0
        (length storage.old) }
{
    write_texts(storage, &deck.placed, &deck.sections, &deck.lists.texts);
    relocate_all(
        storage,
        &deck.lists.items,
        &deck.ids,
        &deck.by_name,
        &deck.placed,
        &deck.sections,
        &deck.lists.relocations,
    );
}

fn load_lists(alloc: Global, lists: Lists, storage: &mut AbsStorage) -> Result<Loaded, DeckRefusal>
    requires few { length lists.items.items ≤ 268435456 }
    requires widths { WidthsFit lists.relocations.items }
    requires used { TextsAreUsed (listed lists) }
    requires zero { storage.old ≡ replicate (length storage.old) 0 }
    ensures image { Loads (image_of 65536 (length storage.old) (Ok (listed lists)))
        storage.old storage.new result }
    ensures inside { IfOk result (λ l. l.address < length storage.old) }
{
    let deck = accept_lists(alloc, 0x1_0000, storage.size(), lists)?;
    carry_out(storage, &deck);
    Ok(Loaded {
        address: deck.entry as u32,
    })
}

/// Puts the image of a deck into a storage of zeros, from X'10000' on, and gives its entry; or
/// gives the first violation of the deck and leaves the storage. Memory may be wanting at any
/// point.
pub fn load(alloc: Global, deck: &[u8], storage: &mut AbsStorage) -> Result<Loaded, DeckRefusal>
    requires deck { length deck.now < 2 ^ 32 }
    requires zero { storage.old ≡ replicate (length storage.old) 0 }
    ensures image { Loads (image (length storage.old) deck.now) storage.old storage.new result }
    ensures inside { IfOk result (λ l. l.address < length storage.old) }
{
    let lists = read_deck(alloc, deck)?;
    load_lists(alloc, lists, storage)
}
