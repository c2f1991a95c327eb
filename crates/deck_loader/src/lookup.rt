//! Items and sections found by their ESDIDs and names.
ghost use Rattle.std.specs.Prelude.{◌≡◌, ◌<◌, ◌^◌, All, IfOk, IfErr, MatchResult, None};
ghost use Rattle.std.specs.List.{find};
ghost use Rattle.deck_model.specs.Image.{has_id, defines, section, or_nowhere, item_number, first_doubled, same_id, same_name};
ghost use Rattle.deck_loader.specs.Keys.{at_place};
ghost use Rattle.deck_loader.specs.Indexed.{IndexesIds, IndexesNames, IndexesSections};
ghost use Rattle.deck_loader.specs.Listed.{IdsOrDoubled, NamesOrDoubled};

use crate::index::index_of;
use crate::keys::{id_keys, key_of, name_keys, placed_keys};
use deck_model::cards::{EsdItem, Sort};
use deck_model::decks::{DeckRefusal, Item, Placed};
use std::alloc::{AllocError, Global};
use std::collections::BTreeMap;

/// The index of the ESDIDs, or the refusal of the first that its module has already.
pub fn index_ids(alloc: Global, items: &[Item]) -> Result<BTreeMap<u64, usize>, DeckRefusal>
    ensures { IdsOrDoubled items.now result }
{
    let keys = id_keys(alloc, items)?;
    let index = index_of(alloc, &keys)?;
    match index.doubled {
        Some(i) => Err(DeckRefusal::DuplicateId(items[i].number)),
        None => Ok(index.places),
    }
}

/// The index of the names, or the refusal of the first that is defined already.
pub fn index_names(alloc: Global, items: &[Item]) -> Result<BTreeMap<u64, usize>, DeckRefusal>
    ensures { NamesOrDoubled items.now result }
{
    let keys = name_keys(alloc, items)?;
    let index = index_of(alloc, &keys)?;
    match index.doubled {
        Some(i) => Err(DeckRefusal::DuplicateName(items[i].number)),
        None => Ok(index.places),
    }
}

/// The index of the sections, whose ESDIDs are none twice.
pub fn index_sections(alloc: Global, placed: &[Placed]) -> Result<BTreeMap<u64, usize>, AllocError>
    requires { All (λ p. p.at < 2 ^ 63) placed.now }
    ensures { IfOk result (λ m. IndexesSections placed.now m) }
{
    let keys = placed_keys(alloc, placed)?;
    let index = index_of(alloc, &keys)?;
    Ok(index.places)
}

fn item_at(items: &[Item], place: Option<usize>) -> Option<Item>
    ensures { result ≡ at_place items.now place }
{
    match place {
        Some(place) => items.get(place).copied(),
        None => None,
    }
}

/// The item of an ESDID.
pub fn item_by_id(items: &[Item], ids: &BTreeMap<u64, usize>, owner: u32, id: u32) -> Option<Item>
    requires { IndexesIds items.now ids.now }
    ensures { result ≡ find (has_id owner id) items.now }
{
    item_at(items, ids.get(&key_of(owner, id)).copied())
}

/// The item that defines a name.
pub fn item_by_name(items: &[Item], by_name: &BTreeMap<u64, usize>, name: u64) -> Option<Item>
    requires { IndexesNames items.now by_name.now }
    ensures { result ≡ find (defines name) items.now }
{
    item_at(items, by_name.get(&name).copied())
}

// A section of length 0 at 0, where none is found.
fn placed_at(placed: &[Placed], place: Option<usize>) -> Placed
    requires { All (λ p. p.at < 2 ^ 63) placed.now }
    ensures value { result ≡ or_nowhere (at_place placed.now place) }
    ensures low { result.at < 2 ^ 63 }
{
    match place {
        Some(place) => match placed.get(place) {
            Some(p) => *p,
            None => nowhere(),
        },
        None => nowhere(),
    }
}

fn nowhere() -> Placed
    ensures value { result ≡ or_nowhere None }
    ensures low { result.at ≡ 0 }
{
    Placed {
        item: Item {
            number: 0,
            owner: 0,
            id: 0,
            item: EsdItem {
                name: [0; 8],
                sort: Sort::Section,
                address: 0,
                extent: 0,
            },
        },
        length: 0,
        at: 0,
    }
}

/// The section of an ESDID at its place.
pub fn section_by_id(
    placed: &[Placed],
    sections: &BTreeMap<u64, usize>,
    owner: u32,
    id: u32,
) -> Placed
    requires { IndexesSections placed.now sections.now }
    ensures value { result ≡ section placed.now owner id }
    ensures low { result.at < 2 ^ 63 }
{
    placed_at(placed, sections.get(&key_of(owner, id)).copied())
}
