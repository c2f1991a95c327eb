//! The relocated constants of a deck by their places in the one section.
ghost use Rattle.std.specs.Prelude.{◌≡◌, ◌<◌, ◌≤◌, ◌+◌, true, IfOk};
ghost use Rattle.deck_cards.specs.RelocationCards.{SharePointers};
ghost use Rattle.deck_loader.specs.Accepted.{FitsInto};
ghost use Rattle.link_model.specs.Linked.{moves, moves_by};
ghost use Rattle.deck_link.specs.Answers.{most_length};
ghost use Rattle.deck_link.specs.Constants.{constant_for, constants_for, constant_item, constant_items, ConstantsIn};

use byteorder::{BigEndian, ByteOrder};
use card_deck::{RldItem, Sort};
use deck_loader::{Accepted, constant_place, item_by_id, item_by_name};
use deck_model::decks::{Item, Relocation};
use std::alloc::{AllocError, Global};

/// A relocated constant: the number of its card, its place in the one section, its width, type and
/// sign, and whether its value moves with the origin.
#[derive(Clone, Copy)]
pub struct Constant {
    pub number: u32,
    pub at: u64,
    pub width: u8,
    pub v_type: bool,
    pub minus: bool,
    pub moves: bool,
}

fn is_moved(deck: &Accepted, i: &Item) -> bool
    requires { FitsInto most_length deck.now }
    ensures { result ≡ moves_by deck.now.lists.items.items i.now.item.sort i.now }
{
    let name = BigEndian::read_u64(&i.item.name);
    match i.item.sort {
        Sort::Section | Sort::Private => true,
        Sort::Label => false,
        Sort::External | Sort::Weak => item_by_name(
            &deck.lists.items,
            &deck.by_name,
            name,
        ).is_some(),
    }
}

fn moves_of(deck: &Accepted, r: &Relocation) -> bool
    requires { FitsInto most_length deck.now }
    ensures { result ≡ moves deck.now.lists.items.items r.now }
{
    match item_by_id(
        &deck.lists.items,
        &deck.ids,
        r.owner,
        u32::from(r.item.target),
    ) {
        Some(i) => is_moved(deck, &i),
        None => false,
    }
}

fn constant_of(deck: &Accepted, r: &Relocation) -> Constant
    requires { FitsInto most_length deck.now }
    ensures { result ≡ constant_for deck.now.lists.items.items deck.now.placed.items r.now }
{
    Constant {
        number: r.number,
        at: constant_place(&deck.placed, &deck.sections, r),
        width: r.item.width,
        v_type: r.item.v_type,
        minus: r.item.minus,
        moves: moves_of(deck, r),
    }
}

fn constants_among(
    alloc: Global,
    deck: &Accepted,
    relocations: &[Relocation],
) -> Result<Vec<Constant>, AllocError>
    requires { FitsInto most_length deck.now }
    ensures { IfOk result (λ v. v.items
        ≡ constants_for deck.now.lists.items.items deck.now.placed.items relocations.now) }
{
    let mut constants = Vec::new(alloc);
    for r in relocations {
        constants.push(constant_of(deck, r))?;
    }
    Ok(constants)
}

/// The constants of all relocations, in the order of the deck.
pub fn constants_of(alloc: Global, deck: &Accepted) -> Result<Vec<Constant>, AllocError>
    requires { FitsInto most_length deck.now }
    ensures { IfOk result (λ v. v.items
        ≡ constants_for deck.now.lists.items.items deck.now.placed.items
        deck.now.lists.relocations.items) }
{
    let constants = constants_among(alloc, deck, &deck.lists.relocations)?;
    Ok(constants)
}

fn item_of(c: &Constant) -> RldItem
    requires low { 1 ≤ c.now.width }
    requires high { c.now.width ≤ 4 }
    requires inside { c.now.at + c.now.width ≤ most_length }
    ensures { result ≡ constant_item c.now }
{
    RldItem {
        target: 1,
        place: 1,
        v_type: c.v_type,
        width: c.width,
        minus: c.minus,
        address: c.at as u32,
    }
}

fn items_among(alloc: Global, constants: &[Constant]) -> Result<Vec<RldItem>, AllocError>
    requires { ConstantsIn most_length constants.now }
    ensures { IfOk result (λ v. v.items ≡ constant_items constants.now) }
{
    let mut items = Vec::new(alloc);
    let mut rest = constants;
    while let Some((first, after)) = rest.split_first() {
        rest = after;
        if first.moves {
            items.push(item_of(first))?;
        }
    }
    Ok(items)
}

/// The relocations by the one section: those of the constants whose values move with the origin.
pub fn moving_items(alloc: Global, constants: &[Constant]) -> Result<Vec<RldItem>, AllocError>
    requires { ConstantsIn most_length constants.now }
    ensures items { IfOk result (λ v. v.items ≡ constant_items constants.now) }
    ensures shared { IfOk result (λ v. SharePointers 1 1 v.items) }
{
    let items = items_among(alloc, constants)?;
    Ok(items)
}
