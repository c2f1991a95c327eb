//! A card read from its columns.
ghost use Rattle.std.specs.Prelude.{◌≡◌, ◌-◌, ◌*◌, ◌<◌, ◌≤◌, [], length, take, drop, IfOk, IsTrue};
ghost use Rattle.std.specs.List.{list_all};
ghost use Rattle.deck_model.specs.Card.{sort_of, address_read, extent_read, esd_item, esd_items, esd_card, esd_of, txt_of, end_of, card_of};
ghost use Rattle.deck_model.specs.CardWriting.{card_fits, extents_fit, esd_item_fits};
ghost use Rattle.card_deck.specs.Results.{listed, EsdFit};

use crate::columns::{data_of, first_of, three_at, two_at};
use crate::read_rld::rld_in;
use arrayvec::ArrayVec;
use deck_model::cards::{Card, CardRefusal, EntryPoint, EsdCard, EsdItem, Kind, Sort, TxtCard};

fn sort_in(b: u8) -> Option<Sort>
    ensures { result ≡ sort_of b }
{
    match b {
        0 => Some(Sort::Section),
        1 => Some(Sort::Label),
        2 => Some(Sort::External),
        4 => Some(Sort::Private),
        10 => Some(Sort::Weak),
        _ => None,
    }
}

// The address and the extent of an item of this sort.
fn fields_in(sort: Sort, bytes: &[u8]) -> (u32, u32)
    requires { 16 ≤ length bytes.now }
    ensures address { result.0 ≡ address_read sort bytes.now }
    ensures extent { result.1 ≡ extent_read sort bytes.now }
    ensures fit { IsTrue (extents_fit sort result.0 result.1) }
{
    match sort {
        Sort::Section | Sort::Private => (three_at(bytes, 9), three_at(bytes, 13)),
        Sort::Label => (three_at(bytes, 9), u32::from(two_at(bytes, 14))),
        Sort::External | Sort::Weak => (0, 0),
    }
}

// An item of an ESD card, or the sort that is none.
#[tactic(auto, unfolding(deck_model::specs::Card::esd_item))]
fn esd_item_in(bytes: &[u8]) -> Result<EsdItem, u8>
    requires { 16 ≤ length bytes.now }
    ensures item { result ≡ esd_item bytes.now }
    ensures fits { IfOk result (λ i. IsTrue (esd_item_fits i)) }
{
    let sort = match sort_in(bytes[8]) {
        Some(sort) => sort,
        None => return Err(bytes[8]),
    };
    let mut name = [0; 8];
    name.copy_from_slice(&bytes[..8]);
    let (address, extent) = fields_in(sort, bytes);
    Ok(EsdItem {
        name,
        sort,
        address,
        extent,
    })
}

fn esd_items_in(count: usize, bytes: &[u8]) -> Result<ArrayVec<EsdItem, 3>, u8>
    requires some { 0 < count }
    requires few { count ≤ 3 }
    requires long { 16 * count ≤ length bytes.now }
    ensures items { listed result ≡ esd_items count [] bytes.now }
    ensures fit { IfOk result (λ v. EsdFit v.items) }
{
    let mut items = ArrayVec::new();
    let mut rest = bytes;
    for i in 0..count {
        let item = match esd_item_in(rest) {
            Ok(item) => item,
            Err(sort) => return Err(sort),
        };
        items.push(item);
        rest = &rest[16..];
    }
    Ok(items)
}

fn esd_card_of(first_id: u16, items: Result<ArrayVec<EsdItem, 3>, u8>) -> Result<Card, CardRefusal>
    requires { IfOk items (λ v. EsdFit v.items) }
    ensures card { result ≡ esd_card first_id (listed items) }
    ensures fits { IfOk result (λ c. IsTrue (card_fits c)) }
{
    match items {
        Ok(items) => Ok(Card::Esd(EsdCard { first_id, items })),
        Err(sort) => Err(CardRefusal::Unsupported(Kind::EsdItem(sort))),
    }
}

#[tactic(auto, unfolding(deck_model::specs::Card::esd_of))]
fn esd_in(card: &[u8; 80]) -> Result<Card, CardRefusal>
    ensures card { result ≡ esd_of card.now }
    ensures fits { IfOk result (λ c. IsTrue (card_fits c)) }
{
    let count = two_at(card, 10);
    if count == 16 || count == 32 || count == 48 {
        let items = esd_items_in(usize::from(count / 16), data_of(card));
        esd_card_of(two_at(card, 14), items)
    } else {
        Err(CardRefusal::BadCount)
    }
}

// The first bytes, as many as a card can have.
fn bytes_of(from: &[u8], count: usize) -> ArrayVec<u8, 56>
    requires few { count ≤ 56 }
    requires long { count ≤ length from.now }
    ensures bytes { result.items ≡ take count from.now }
    ensures long { length result.items ≡ count }
{
    let mut bytes = ArrayVec::new();
    for b in first_of(from, count) {
        bytes.push(*b);
    }
    bytes
}

#[tactic(auto, unfolding(deck_model::specs::Card::txt_of))]
fn txt_in(card: &[u8; 80]) -> Result<Card, CardRefusal>
    ensures card { result ≡ txt_of card.now }
    ensures fits { IfOk result (λ c. IsTrue (card_fits c)) }
{
    let count = two_at(card, 10);
    if count == 0 || count > 56 {
        return Err(CardRefusal::BadCount);
    }
    let bytes = bytes_of(data_of(card), usize::from(count));
    Ok(Card::Txt(TxtCard {
        id: two_at(card, 14),
        address: three_at(card, 5),
        bytes,
    }))
}

#[tactic(auto, unfolding(deck_model::specs::Card::end_of))]
fn end_in(card: &[u8; 80]) -> Card
    ensures card { result ≡ end_of card.now }
    ensures fits { IsTrue (card_fits result) }
{
    let address = three_at(card, 5);
    if address == 0x404040 {
        return Card::End(None);
    }
    Card::End(Some(EntryPoint {
        address,
        id: two_at(card, 14),
    }))
}

/// Reads a card from its 80 columns (IBM object deck layout). A refusal is the first of a first
/// byte other than X'02', an unknown type, a count that the type has not, and what is not
/// supported.
#[tactic(auto, unfolding(deck_model::specs::Card::card_of))]
pub fn read_card(card: &[u8; 80]) -> Result<Card, CardRefusal>
    ensures card { result ≡ card_of card.now }
    ensures fits { IfOk result (λ c. IsTrue (card_fits c)) }
{
    let kind = three_at(card, 1);
    if card[0] != 2 {
        return Err(CardRefusal::BadFirstByte);
    }
    match kind {
        0xC5E2C4 => esd_in(card),
        0xE3E7E3 => txt_in(card),
        0xD9D3C4 => rld_in(card),
        0xC5D5C4 => Ok(end_in(card)),
        0xE2E8D4 => Ok(Card::Sym),
        0xE7E2C4 => Err(CardRefusal::Unsupported(Kind::Xsd)),
        _ => Err(CardRefusal::UnknownCard),
    }
}
