//! The refusals past those of doubled ESDIDs and names, each the first of its list.
ghost use Rattle.std.specs.Prelude.{◌≡◌, IfOk, IfErr, OnOk, Some, None};
ghost use Rattle.std.specs.List.{find, list_any};
ghost use Rattle.deck_model.specs.Image.{is_section_found, is_unknown, is_unresolved, is_text_outside, is_constant_outside, entry, has_no_room, use_number, item_number, text_number, relocation_number, later_violation};
ghost use Rattle.deck_loader.specs.Indexed.{IndexesIds, IndexesNames, IndexesSections};
ghost use Rattle.deck_loader.specs.Listed.{listed};

use crate::entry::entry_in;
use crate::listing::Lists;
use crate::lookup::{item_by_id, item_by_name, section_by_id};
use crate::place::is_section_sort;
use byteorder::{BigEndian, ByteOrder};
use deck_model::cards::Sort;
use deck_model::decks::{DeckRefusal, Item, Placed, Relocation, Text, Use};
use std::collections::BTreeMap;

fn is_section_item(found: Option<Item>) -> bool
    ensures { result ≡ is_section_found found }
{
    match found {
        Some(i) => is_section_sort(i.item.sort),
        None => false,
    }
}

fn is_unknown_use(items: &[Item], ids: &BTreeMap<u64, usize>, u: &Use) -> bool
    requires { IndexesIds items.now ids.now }
    ensures { result ≡ is_unknown items.now u.now }
{
    let found = item_by_id(items, ids, u.owner, u.id);
    if u.any {
        found.is_none()
    } else {
        !is_section_item(found)
    }
}

fn first_unknown(items: &[Item], ids: &BTreeMap<u64, usize>, uses: &[Use]) -> Option<u32>
    requires { IndexesIds items.now ids.now }
    ensures { result ≡ use_number (find (is_unknown items.now) uses.now) }
{
    for u in uses {
        if is_unknown_use(items, ids, u) {
            return Some(u.number);
        }
    }
    None
}

fn is_outside(placed: &[Placed], sections: &BTreeMap<u64, usize>, t: &Text) -> bool
    requires { IndexesSections placed.now sections.now }
    ensures { result ≡ is_text_outside placed.now t.now }
{
    let p = section_by_id(placed, sections, t.owner, t.id);
    if t.address < p.item.item.address {
        return true;
    }
    p.item.item.extent != 0
        && u64::from(p.item.item.extent)
            < u64::from(t.address) + t.bytes.len() as u64 - u64::from(p.item.item.address)
}

fn first_text_outside(
    placed: &[Placed],
    sections: &BTreeMap<u64, usize>,
    texts: &[Text],
) -> Option<u32>
    requires { IndexesSections placed.now sections.now }
    ensures { result ≡ text_number (find (is_text_outside placed.now) texts.now) }
{
    for t in texts {
        if is_outside(placed, sections, t) {
            return Some(t.number);
        }
    }
    None
}

fn is_relocation_outside(placed: &[Placed], sections: &BTreeMap<u64, usize>, r: &Relocation) -> bool
    requires { IndexesSections placed.now sections.now }
    ensures { result ≡ is_constant_outside placed.now r.now }
{
    let p = section_by_id(placed, sections, r.owner, u32::from(r.item.place));
    if r.item.address < p.item.item.address {
        return true;
    }
    p.length < u64::from(r.item.address) + u64::from(r.item.width) - u64::from(p.item.item.address)
}

fn first_constant_outside(
    placed: &[Placed],
    sections: &BTreeMap<u64, usize>,
    relocations: &[Relocation],
) -> Option<u32>
    requires { IndexesSections placed.now sections.now }
    ensures { result ≡ relocation_number (find (is_constant_outside placed.now) relocations.now) }
{
    for r in relocations {
        if is_relocation_outside(placed, sections, r) {
            return Some(r.number);
        }
    }
    None
}

fn is_unresolved_item(items: &[Item], by_name: &BTreeMap<u64, usize>, i: &Item) -> bool
    requires { IndexesNames items.now by_name.now }
    ensures { result ≡ is_unresolved items.now i.now }
{
    let name = BigEndian::read_u64(&i.item.name);
    match i.item.sort {
        Sort::External => item_by_name(items, by_name, name).is_none(),
        Sort::Section | Sort::Private | Sort::Label | Sort::Weak => false,
    }
}

fn first_unresolved(items: &[Item], by_name: &BTreeMap<u64, usize>, among: &[Item]) -> Option<u32>
    requires { IndexesNames items.now by_name.now }
    ensures { result ≡ item_number (find (is_unresolved items.now) among.now) }
{
    for i in among {
        if is_unresolved_item(items, by_name, i) {
            return Some(i.number);
        }
    }
    None
}

fn no_room(size: u32, placed: &[Placed]) -> bool
    ensures { result ≡ list_any (has_no_room size) placed.now }
{
    placed.iter().any(|p| u128::from(size) < u128::from(p.at) + u128::from(p.length))
}

/// The entry, or the first refusal past those of doubled ESDIDs and names.
#[tactic(auto, unfolding(deck_model::specs::Image::later_violation))]
pub fn checked_entry(
    size: u32,
    lists: &Lists,
    placed: &[Placed],
    sections: &BTreeMap<u64, usize>,
    ids: &BTreeMap<u64, usize>,
    by_name: &BTreeMap<u64, usize>,
) -> Result<u64, DeckRefusal>
    requires sections { IndexesSections placed.now sections.now }
    requires ids { IndexesIds lists.now.items.items ids.now }
    requires names { IndexesNames lists.now.items.items by_name.now }
    ensures refused { IfErr result (λ r.
        later_violation size (listed lists.now) placed.now ≡ Some r) }
    ensures accepted { OnOk result (later_violation size (listed lists.now) placed.now ≡ None) }
    ensures entry { IfOk result (λ e. entry placed.now lists.now.entries.items ≡ Some e) }
{
    if let Some(n) = first_unknown(&lists.items, ids, &lists.uses) {
        return Err(DeckRefusal::UnknownId(n));
    }
    if let Some(n) = first_text_outside(placed, sections, &lists.texts) {
        return Err(DeckRefusal::TextOutside(n));
    }
    if let Some(n) = first_constant_outside(placed, sections, &lists.relocations) {
        return Err(DeckRefusal::RldOutside(n));
    }
    let entry = match entry_in(placed, sections, &lists.entries) {
        Some(entry) => entry,
        None => return Err(DeckRefusal::EntryOutside),
    };
    if let Some(n) = first_unresolved(&lists.items, by_name, &lists.items) {
        return Err(DeckRefusal::Unresolved(n));
    }
    if no_room(size, placed) {
        return Err(DeckRefusal::NoRoom);
    }
    Ok(entry)
}
