//! The relocations of an RLD card.
ghost use Rattle.std.specs.Prelude.{◌≡◌, ◌+◌, ◌<◌, ◌≤◌, [], length, drop, map, IfOk, IfSome, IsTrue, if◌then◌else◌};
ghost use Rattle.deck_model.specs.Card.{rld_of, whole_item, short_item, raw_item, rld_raws, rld_item, rld_items, rld_card, rld_filled};
ghost use Rattle.deck_model.specs.CardWriting.{card_fits};
ghost use Rattle.card_deck.specs.Results.{listed, raws_listed, RldFit};

use crate::columns::{data_of, first_of, three_at, two_at};
use arrayvec::ArrayVec;
use deck_model::cards::{Card, CardRefusal, Kind, RawItem, RldCard, RldItem};

fn whole_item_in(bytes: &[u8]) -> RawItem
    requires { 8 ≤ length bytes.now }
    ensures item { result ≡ whole_item bytes.now }
    ensures small { result.address < 16777216 }
{
    RawItem {
        target: two_at(bytes, 0),
        place: two_at(bytes, 2),
        flag: bytes[4],
        address: three_at(bytes, 5),
    }
}

fn short_item_in(before: RawItem, bytes: &[u8]) -> RawItem
    requires { 4 ≤ length bytes.now }
    ensures item { result ≡ short_item before bytes.now }
    ensures small { result.address < 16777216 }
{
    RawItem {
        flag: bytes[0],
        address: three_at(bytes, 1),
        ..before
    }
}

// The bytes after such an item.
fn after_item(bytes: &[u8], omits: bool) -> &[u8]
    requires { (if omits then 4 else 8) ≤ length bytes.now }
    ensures { result.now ≡ drop (if omits then 4 else 8) bytes.now }
{
    if omits { &bytes[4..] } else { &bytes[8..] }
}

// The item that begins the bytes, None where they are too few.
fn raw_item_in(bytes: &[u8], omits: bool, before: RawItem) -> Option<RawItem>
    ensures item { result ≡ raw_item omits before bytes.now }
    ensures small { IfSome result (λ i. i.address < 16777216) }
{
    if bytes.len() < (if omits { 4 } else { 8 }) {
        return None;
    }
    Some(if omits {
        short_item_in(before, bytes)
    } else {
        whole_item_in(bytes)
    })
}

// The items that fill the bytes, None where they do not.
fn raw_items_in(bytes: &[u8]) -> Option<ArrayVec<RawItem, 13>>
    requires { 0 < length bytes.now }
    ensures items { raws_listed result ≡ rld_raws bytes.now }
    ensures fit { IfSome result (λ v. RldFit (length bytes.now) (map rld_item v.items)) }
{
    let mut items = ArrayVec::new();
    let mut before = RawItem {
        target: 0,
        place: 0,
        flag: 0,
        address: 0,
    };
    let mut omits = false;
    let mut rest = bytes;
    for i in 0..13usize {
        if rest.len() == 0 {
            return Some(items);
        }
        let item = match raw_item_in(rest, omits, before) {
            Some(item) => item,
            None => return None,
        };
        rest = after_item(rest, omits);
        omits = item.flag % 2 == 1;
        before = item;
        items.push(item);
    }
    if rest.len() == 0 { Some(items) } else { None }
}

// The items with their sorts read, or the first sort that is none.
fn rld_items_in(raws: &[RawItem]) -> Result<ArrayVec<RldItem, 13>, u8>
    requires { length raws.now ≤ 13 }
    ensures items { listed result ≡ rld_items [] raws.now }
    ensures each { IfOk result (λ v. v.items ≡ map rld_item raws.now) }
{
    let mut items = ArrayVec::new();
    for raw in raws {
        if raw.flag / 16 > 1 {
            return Err(raw.flag / 16);
        }
        items.push(RldItem {
            target: raw.target,
            place: raw.place,
            v_type: raw.flag / 16 == 1,
            width: raw.flag / 4 % 4 + 1,
            minus: raw.flag / 2 % 2 == 1,
            address: raw.address,
        });
    }
    Ok(items)
}

fn rld_card_of(items: Result<ArrayVec<RldItem, 13>, u8>) -> Result<Card, CardRefusal>
    requires { IfOk items (λ v. RldFit 56 v.items) }
    ensures card { result ≡ rld_card (listed items) }
    ensures fits { IfOk result (λ c. IsTrue (card_fits c)) }
{
    match items {
        Ok(items) => Ok(Card::Rld(RldCard { items })),
        Err(sort) => Err(CardRefusal::Unsupported(Kind::RldSort(sort))),
    }
}

fn rld_filled_of(raws: Option<ArrayVec<RawItem, 13>>) -> Result<Card, CardRefusal>
    requires { IfSome raws (λ v. RldFit 56 (map rld_item v.items)) }
    ensures card { result ≡ rld_filled (raws_listed raws) }
    ensures fits { IfOk result (λ c. IsTrue (card_fits c)) }
{
    match raws {
        Some(raws) => rld_card_of(rld_items_in(&raws)),
        None => Err(CardRefusal::BadCount),
    }
}

#[tactic(auto, unfolding(deck_model::specs::Card::rld_of))]
pub fn rld_in(card: &[u8; 80]) -> Result<Card, CardRefusal>
    ensures card { result ≡ rld_of card.now }
    ensures fits { IfOk result (λ c. IsTrue (card_fits c)) }
{
    let count = two_at(card, 10);
    if count < 8 || count > 56 {
        return Err(CardRefusal::BadCount);
    }
    let data = data_of(card);
    rld_filled_of(raw_items_in(first_of(data, usize::from(count))))
}
