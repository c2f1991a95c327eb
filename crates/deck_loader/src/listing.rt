//! A deck read card by card.
ghost use Rattle.std.specs.Prelude.{◌≡◌, ◌+◌, ◌-◌, ◌*◌, ◌/◌, ◌%◌, ◌<◌, ◌≤◌, ◌^◌, length, take, drop, IfOk, IsTrue, false, if◌then◌else◌};
ghost use Rattle.deck_model.specs.Card.{card_of};
ghost use Rattle.deck_model.specs.CardWriting.{card_fits};
ghost use Rattle.deck_model.specs.Deck.{is_end, card_refusal, listing};
ghost use Rattle.deck_loader.specs.Listed.{listed, no_listing, with_card, with_entry, ItemsTyped, ReadsAs, WidthsFit};

use crate::pushes::{push_items, push_label_uses, push_pointer_uses, push_relocations};
use card_deck::read_card;
use deck_model::cards::{Card, CardRefusal, EntryPoint};
use deck_model::decks::{DeckRefusal, Entry, Item, Relocation, Text, Use};
use std::alloc::{AllocError, Global};

/// A deck as lists.
#[derive(Drop)]
pub struct Lists {
    pub items: Vec<Item>,
    pub texts: Vec<Text>,
    pub relocations: Vec<Relocation>,
    pub entries: Vec<Entry>,
    pub uses: Vec<Use>,
}

fn is_end_card(card: &Card) -> bool
    ensures { result ≡ is_end card.now }
{
    match card {
        Card::End(_) => true,
        Card::Esd(_) | Card::Txt(_) | Card::Rld(_) | Card::Sym => false,
    }
}

fn add_entry(lists: Lists, number: u32, owner: u32, e: EntryPoint) -> Result<Lists, AllocError>
    ensures lists { IfOk result (λ l. listed l ≡ with_entry number owner (listed lists) (Some e)) }
    ensures few { IfOk result (λ l. length l.items.items ≡ length lists.items.items) }
    ensures items { IfOk result (λ l. l.items.items ≡ lists.items.items) }
    ensures relocations { IfOk result (λ l. l.relocations.items ≡ lists.relocations.items) }
{
    let mut lists = lists;
    lists.entries.push(Entry {
        number,
        owner,
        address: e.address,
        id: u32::from(e.id),
    })?;
    lists.uses.push(Use {
        number,
        owner,
        id: u32::from(e.id),
        any: false,
    })?;
    Ok(lists)
}

fn add_card(lists: Lists, number: u32, owner: u32, card: Card) -> Result<Lists, AllocError>
    requires fits { IsTrue (card_fits card) }
    requires typed { ItemsTyped lists.items.items }
    requires widths { WidthsFit lists.relocations.items }
    ensures lists { IfOk result (λ l. listed l ≡ with_card number owner (listed lists) card) }
    ensures few { IfOk result (λ l. length l.items.items ≤ length lists.items.items + 3) }
    ensures typed { IfOk result (λ l. ItemsTyped l.items.items) }
    ensures widths { IfOk result (λ l. WidthsFit l.relocations.items) }
{
    let mut lists = lists;
    match card {
        Card::Esd(c) => {
            push_items(&mut lists.items, number, owner, c.first_id, &c.items)?;
            push_label_uses(&mut lists.uses, number, owner, &c.items)?;
            Ok(lists)
        }
        Card::Txt(c) => {
            lists.uses.push(Use {
                number,
                owner,
                id: u32::from(c.id),
                any: false,
            })?;
            lists.texts.push(Text {
                number,
                owner,
                id: u32::from(c.id),
                address: c.address,
                bytes: c.bytes,
            })?;
            Ok(lists)
        }
        Card::Rld(c) => {
            push_relocations(&mut lists.relocations, number, owner, &c.items)?;
            push_pointer_uses(&mut lists.uses, number, owner, &c.items)?;
            Ok(lists)
        }
        Card::End(Some(e)) => add_entry(lists, number, owner, e),
        Card::End(None) => Ok(lists),
        Card::Sym => Ok(lists),
    }
}

fn refusal_of(number: u32, r: CardRefusal) -> DeckRefusal
    ensures { result ≡ card_refusal number r }
{
    match r {
        CardRefusal::BadFirstByte => DeckRefusal::BadFirstByte(number),
        CardRefusal::UnknownCard => DeckRefusal::UnknownCard(number),
        CardRefusal::BadCount => DeckRefusal::BadCount(number),
        CardRefusal::Unsupported(_) => DeckRefusal::Unsupported(number),
    }
}

fn read_next(rest: &[u8]) -> Result<Card, CardRefusal>
    requires { 80 ≤ length rest.now }
    ensures card { result ≡ card_of (take 80 rest.now) }
    ensures fits { IfOk result (λ c. IsTrue (card_fits c)) }
{
    let mut card = [0; 80];
    card.copy_from_slice(&rest[..80]);
    read_card(&card)
}

fn after_card(rest: &[u8]) -> &[u8]
    requires { 80 ≤ length rest.now }
    ensures value { result.now ≡ drop 80 rest.now }
    ensures long { length result.now + 80 ≡ length rest.now }
{
    rest.split_at(80).1
}

fn next_owner(owner: u32, end: bool) -> u32
    requires { owner < 4294967295 }
    ensures value { result ≡ (if end then owner + 1 else owner) }
    ensures small { result ≤ owner + 1 }
{
    if end { owner + 1 } else { owner }
}

fn empty_lists(alloc: Global) -> Lists
    ensures lists { listed result ≡ no_listing }
    ensures none { length result.items.items ≡ 0 }
    ensures typed { ItemsTyped result.items.items }
    ensures widths { WidthsFit result.relocations.items }
{
    Lists {
        items: Vec::new(alloc),
        texts: Vec::new(alloc),
        relocations: Vec::new(alloc),
        entries: Vec::new(alloc),
        uses: Vec::new(alloc),
    }
}

/// The lists of a deck, or the first refusal that reading its cards gives.
pub fn read_deck(alloc: Global, deck: &[u8]) -> Result<Lists, DeckRefusal>
    requires { length deck.now < 2 ^ 32 }
    ensures lists { ReadsAs (listing deck.now) result }
    ensures few { IfOk result (λ l. length l.items.items ≤ 268435456) }
    ensures typed { IfOk result (λ l. ItemsTyped l.items.items) }
    ensures widths { IfOk result (λ l. WidthsFit l.relocations.items) }
{
    if deck.len() % 80 != 0 {
        return Err(DeckRefusal::NotCards);
    }
    let count = deck.len() / 80;
    let mut lists = empty_lists(alloc);
    let mut number: u32 = 1;
    let mut owner: u32 = 0;
    let mut ended = false;
    let mut rest = deck;
    for i in 0..count {
        let card = match read_next(rest) {
            Ok(card) => card,
            Err(r) => return Err(refusal_of(number, r)),
        };
        let end = is_end_card(&card);
        lists = add_card(lists, number, owner, card)?;
        owner = next_owner(owner, end);
        number += 1;
        ended = end;
        rest = after_card(rest);
    }
    if !ended {
        return Err(DeckRefusal::NoEnd);
    }
    Ok(lists)
}
