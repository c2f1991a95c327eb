//! Texts and relocations carried out on the storage.
ghost use Rattle.std.specs.Prelude.{◌≡◌, ◌≤◌, length};
ghost use Rattle.deck_model.specs.Image.{text_at, constant_at, load_address, defined_at, value_by, value};
ghost use Rattle.deck_loader.specs.Indexed.{IndexesIds, IndexesNames, IndexesSections};
ghost use Rattle.deck_loader.specs.Written.{written, relocate, AreInside, ConstantsAreInside};

use crate::bytes::{relocate_one, store_all};
use crate::lookup::{item_by_id, item_by_name, section_by_id};
use abs_storage::AbsStorage;
use byteorder::{BigEndian, ByteOrder};
use deck_model::cards::Sort;
use deck_model::decks::{Item, Placed, Relocation, Text};
use std::collections::BTreeMap;

/// Where a text lies in the storage.
pub fn text_place(placed: &[Placed], sections: &BTreeMap<u64, usize>, t: &Text) -> u64
    requires { IndexesSections placed.now sections.now }
    ensures { result ≡ text_at placed.now t.now }
{
    let p = section_by_id(placed, sections, t.owner, t.id);
    p.at + u64::from(t.address.saturating_sub(p.item.item.address))
}

/// Where a constant lies in the storage.
pub fn constant_place(placed: &[Placed], sections: &BTreeMap<u64, usize>, r: &Relocation) -> u64
    requires { IndexesSections placed.now sections.now }
    ensures { result ≡ constant_at placed.now r.now }
{
    let p = section_by_id(placed, sections, r.owner, u32::from(r.item.place));
    p.at + u64::from(r.item.address.saturating_sub(p.item.item.address))
}

/// All texts, in the order of the deck.
pub fn write_texts(
    storage: &mut AbsStorage,
    placed: &[Placed],
    sections: &BTreeMap<u64, usize>,
    texts: &[Text],
)
    requires index { IndexesSections placed.now sections.now }
    requires inside { AreInside placed.now (length storage.old) texts.now }
    requires most { length storage.old ≤ 16777216 }
    ensures value { storage.new ≡ written placed.now texts.now storage.old }
    ensures long { length storage.new ≡ length storage.old }
{
    let mut rest = texts;
    while let Some((t, after)) = rest.split_first() {
        let at = text_place(placed, sections, t) as u32;
        store_all(storage, at, &t.bytes);
        rest = after;
    }
}

/// The load address of an item that defines a name; 2^32 is added to that of a label.
pub fn load_address_of(placed: &[Placed], sections: &BTreeMap<u64, usize>, i: &Item) -> u64
    requires { IndexesSections placed.now sections.now }
    ensures { result ≡ load_address placed.now i.now }
{
    match i.item.sort {
        Sort::Label => {
            let p = section_by_id(placed, sections, i.owner, i.item.extent);
            p.at + 0x1_0000_0000 + u64::from(i.item.address) - u64::from(p.item.item.address)
        }
        Sort::Section | Sort::Private | Sort::External | Sort::Weak => section_by_id(
            placed, sections, i.owner, i.id,
        ).at,
    }
}

fn defined_address(placed: &[Placed], sections: &BTreeMap<u64, usize>, found: Option<Item>) -> u64
    requires { IndexesSections placed.now sections.now }
    ensures { result ≡ defined_at placed.now found }
{
    match found {
        Some(i) => load_address_of(placed, sections, &i),
        None => 0,
    }
}

fn item_value(
    items: &[Item],
    by_name: &BTreeMap<u64, usize>,
    placed: &[Placed],
    sections: &BTreeMap<u64, usize>,
    i: &Item,
) -> u64
    requires sections { IndexesSections placed.now sections.now }
    requires names { IndexesNames items.now by_name.now }
    ensures { result ≡ value_by items.now placed.now i.now.item.sort i.now }
{
    let name = BigEndian::read_u64(&i.item.name);
    match i.item.sort {
        Sort::Section | Sort::Private => section_by_id(placed, sections, i.owner, i.id).at
            + 0x1_0000_0000
            - u64::from(i.item.address),
        Sort::Label => 0,
        Sort::External | Sort::Weak => defined_address(
            placed,
            sections,
            item_by_name(items, by_name, name),
        ),
    }
}

fn value_at(
    items: &[Item],
    ids: &BTreeMap<u64, usize>,
    by_name: &BTreeMap<u64, usize>,
    placed: &[Placed],
    sections: &BTreeMap<u64, usize>,
    r: &Relocation,
) -> u64
    requires sections { IndexesSections placed.now sections.now }
    requires ids { IndexesIds items.now ids.now }
    requires names { IndexesNames items.now by_name.now }
    ensures { result ≡ value items.now placed.now r.now }
{
    match item_by_id(items, ids, r.owner, u32::from(r.item.target)) {
        Some(i) => item_value(items, by_name, placed, sections, &i),
        None => 0,
    }
}

/// All relocations, in the order of the deck.
pub fn relocate_all(
    storage: &mut AbsStorage,
    items: &[Item],
    ids: &BTreeMap<u64, usize>,
    by_name: &BTreeMap<u64, usize>,
    placed: &[Placed],
    sections: &BTreeMap<u64, usize>,
    relocations: &[Relocation],
)
    requires sections { IndexesSections placed.now sections.now }
    requires ids { IndexesIds items.now ids.now }
    requires names { IndexesNames items.now by_name.now }
    requires inside { ConstantsAreInside placed.now (length storage.old) relocations.now }
    requires most { length storage.old ≤ 16777216 }
    ensures { storage.new ≡ relocate items.now placed.now relocations.now storage.old }
{
    let mut rest = relocations;
    while let Some((r, after)) = rest.split_first() {
        let value = value_at(items, ids, by_name, placed, sections, r);
        let at = constant_place(placed, sections, r) as u32;
        relocate_one(storage, at, r.item.width, r.item.minus, value);
        rest = after;
    }
}
