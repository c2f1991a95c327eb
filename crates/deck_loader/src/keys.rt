//! The keys of items and sections.
ghost use Rattle.std.specs.Prelude.{◌≡◌, ◌<◌, map, All, IfOk, OnOk};
ghost use Rattle.deck_loader.specs.Keys.{item_key};
ghost use Rattle.deck_loader.specs.ItemKeys.{id_key, name_key, placed_key};

use byteorder::{BigEndian, ByteOrder};
use deck_model::cards::Sort;
use deck_model::decks::{Item, Placed};
use std::alloc::{AllocError, Global};

/// An ESDID with its module as one number.
pub fn key_of(owner: u32, id: u32) -> u64
    ensures { result ≡ item_key owner id }
{
    u64::from(owner) * 0x1_0000_0000 + u64::from(id)
}

fn id_key_of(i: &Item) -> Option<u64>
    ensures key { result ≡ id_key i.now }
    ensures id { i.now.id < 4294967296 }
{
    let id = i.id;
    if i.item.sort == Sort::Label {
        return None;
    }
    Some(key_of(i.owner, id))
}

fn name_key_of(i: &Item) -> Option<u64>
    ensures { result ≡ name_key i.now }
{
    match i.item.sort {
        Sort::Section | Sort::Label => {
            let name = BigEndian::read_u64(&i.item.name);
            if name == 0x4040_4040_4040_4040 {
                None
            } else {
                Some(name)
            }
        }
        Sort::Private | Sort::External | Sort::Weak => None,
    }
}

fn placed_key_of(p: &Placed) -> Option<u64>
    ensures key { result ≡ placed_key p.now }
    ensures id { p.now.item.id < 4294967296 }
{
    Some(key_of(p.item.owner, p.item.id))
}

/// The key of each item's ESDID; a label has none.
pub fn id_keys(alloc: Global, items: &[Item]) -> Result<Vec<Option<u64>>, AllocError>
    ensures keys { IfOk result (λ v. v.items ≡ map id_key items.now) }
    ensures ids { OnOk result (All (λ i. i.id < 4294967296) items.now) }
{
    let mut keys = Vec::new(alloc);
    for i in items {
        keys.push(id_key_of(i))?;
    }
    Ok(keys)
}

/// The key of each name that an item defines.
pub fn name_keys(alloc: Global, items: &[Item]) -> Result<Vec<Option<u64>>, AllocError>
    ensures { IfOk result (λ v. v.items ≡ map name_key items.now) }
{
    let mut keys = Vec::new(alloc);
    for i in items {
        keys.push(name_key_of(i))?;
    }
    Ok(keys)
}

/// The key of each section.
pub fn placed_keys(alloc: Global, placed: &[Placed]) -> Result<Vec<Option<u64>>, AllocError>
    ensures keys { IfOk result (λ v. v.items ≡ map placed_key placed.now) }
    ensures ids { OnOk result (All (λ p. p.item.id < 4294967296) placed.now) }
{
    let mut keys = Vec::new(alloc);
    for p in placed {
        keys.push(placed_key_of(p))?;
    }
    Ok(keys)
}
