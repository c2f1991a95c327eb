//! The labels of the one section: a name of a deck each.
ghost use Rattle.std.specs.Prelude.{◌≡◌, ◌==◌, ◌≤◌, true, false, None, IfOk};
ghost use Rattle.std.specs.List.{find};
ghost use Rattle.deck_model.specs.Deck.{is_label};
ghost use Rattle.deck_model.specs.Image.{names, name_of, blank_name, item_number};
ghost use Rattle.deck_loader.specs.Accepted.{FitsInto};
ghost use Rattle.link_model.specs.Link.{is_far_label};
ghost use Rattle.link_model.specs.Linked.{whole_length, is_named, name_place, label_of, name_labels};
ghost use Rattle.deck_link.specs.Answers.{most_length};

use byteorder::{BigEndian, ByteOrder};
use card_deck::{EsdItem, Sort};
use deck_loader::{Accepted, load_address_of};
use deck_model::decks::Item;
use std::alloc::{AllocError, Global};

// What is added to the load address of a label.
const RAISED: u64 = 0x1_0000_0000;

fn is_label_sort(sort: Sort) -> bool
    ensures { result ≡ is_label sort }
{
    match sort {
        Sort::Label => true,
        Sort::Section | Sort::Private | Sort::External | Sort::Weak => false,
    }
}

fn is_naming_sort(sort: Sort) -> bool
    ensures { result ≡ names sort }
{
    match sort {
        Sort::Section | Sort::Label => true,
        Sort::Private | Sort::External | Sort::Weak => false,
    }
}

fn is_blank(i: &Item) -> bool
    ensures { result ≡ (name_of i.now == blank_name) }
{
    BigEndian::read_u64(&i.item.name) == 0x4040_4040_4040_4040
}

fn is_far(deck: &Accepted, i: &Item) -> bool
    requires { FitsInto most_length deck.now }
    ensures { result ≡ is_far_label deck.now.placed.items i.now }
{
    if !is_label_sort(i.item.sort) || is_blank(i) {
        return false;
    }
    let at = load_address_of(&deck.placed, &deck.sections, i);
    at < RAISED || RAISED + 0xFF_FFFF < at
}

fn first_far(deck: &Accepted, items: &[Item]) -> Option<u32>
    requires { FitsInto most_length deck.now }
    ensures { result ≡ item_number (find (is_far_label deck.now.placed.items) items.now) }
{
    for i in items {
        if is_far(deck, i) {
            return Some(i.number);
        }
    }
    None
}

/// The number of the card of the first label that lies before the first section, or too far behind
/// its begin.
pub fn first_far_label(deck: &Accepted) -> Option<u32>
    requires { FitsInto most_length deck.now }
    ensures { result
        ≡ item_number (find (is_far_label deck.now.placed.items) deck.now.lists.items.items) }
{
    first_far(deck, &deck.lists.items)
}

fn is_named_item(i: &Item) -> bool
    ensures { result ≡ is_named i.now }
{
    is_naming_sort(i.item.sort) && !is_blank(i)
}

fn name_place_for(deck: &Accepted, i: &Item) -> u64
    requires fits { FitsInto most_length deck.now }
    requires named { is_named i.now ≡ true }
    requires near { is_far_label deck.now.placed.items i.now ≡ false }
    ensures { result ≡ name_place deck.now.placed.items i.now }
{
    let at = load_address_of(&deck.placed, &deck.sections, i);
    if is_label_sort(i.item.sort) {
        at - RAISED
    } else {
        at
    }
}

fn label_for(deck: &Accepted, i: &Item) -> EsdItem
    requires fits { FitsInto most_length deck.now }
    requires small { whole_length deck.now.placed.items ≤ most_length }
    requires named { is_named i.now ≡ true }
    requires near { is_far_label deck.now.placed.items i.now ≡ false }
    ensures { result ≡ label_of deck.now.placed.items i.now }
{
    EsdItem {
        name: i.item.name,
        sort: Sort::Label,
        address: name_place_for(deck, i) as u32,
        extent: 1,
    }
}

fn labels_among(alloc: Global, deck: &Accepted, items: &[Item]) -> Result<Vec<EsdItem>, AllocError>
    requires fits { FitsInto most_length deck.now }
    requires small { whole_length deck.now.placed.items ≤ most_length }
    requires near { find (is_far_label deck.now.placed.items) items.now ≡ None }
    ensures { IfOk result (λ v. v.items ≡ name_labels deck.now.placed.items items.now) }
{
    let mut labels = Vec::new(alloc);
    let mut rest = items;
    while let Some((first, after)) = rest.split_first() {
        rest = after;
        if is_named_item(first) {
            labels.push(label_for(deck, first))?;
        }
    }
    Ok(labels)
}

/// A label for each name that the deck defines, in its order.
pub fn labels_of(alloc: Global, deck: &Accepted) -> Result<Vec<EsdItem>, AllocError>
    requires fits { FitsInto most_length deck.now }
    requires small { whole_length deck.now.placed.items ≤ most_length }
    requires near { find (is_far_label deck.now.placed.items) deck.now.lists.items.items ≡ None }
    ensures { IfOk result (λ v. v.items
        ≡ name_labels deck.now.placed.items deck.now.lists.items.items) }
{
    let labels = labels_among(alloc, deck, &deck.lists.items)?;
    Ok(labels)
}
