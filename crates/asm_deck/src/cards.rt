//! The cards of a program that have no text, one item on each.
ghost use Rattle.std.specs.Prelude.{◌≡◌, ℕ, ◌+◌, ◌<◌, ◌≤◌, ◌++◌, List, [], ◌∷◌, length, IsTrue, OnOk, IfOk};
ghost use Rattle.byteorder.specs.Endian.{big_bytes};
ghost use Rattle.deck_model.specs.Card.{esd, rld};
ghost use Rattle.deck_model.specs.CardWriting.{card_fits};
ghost use Rattle.deck_model.specs.declared.cards.Card.{Card as SpecCard};
ghost use Rattle.deck_cards.specs.NumberedCards.{deck_bytes};
ghost use Rattle.asm_deck.specs.AssembledCards.{section_item, section_cards, external_item, external_cards, constant_item, constant_cards, end_card};
ghost use Rattle.asm_deck.specs.Accepted.{LengthsFit};
ghost use Rattle.asm_deck.specs.Writable.{ColumnsFit, EntryColumnsFit};

use arrayvec::ArrayVec;
use asm_model::program::{Constant, Defined, Section};
use byteorder::{BigEndian, ByteOrder};
use card_deck::{Card, EntryPoint, EsdCard, EsdItem, RldCard, RldItem, Sort};
use deck_cards::push_card;
use std::alloc::AllocError;

fn name_bytes(name: u64) -> [u8; 8]
    ensures { result ≡ big_bytes 8 name }
{
    let mut bytes = [0; 8];
    BigEndian::write_u64(&mut bytes, name);
    bytes
}

fn esd_card(id: u16, item: EsdItem) -> Card
    ensures { result ≡ esd id (item ∷ []) }
{
    let mut items = ArrayVec::new();
    items.push(item);
    Card::Esd(EsdCard {
        first_id: id,
        items,
    })
}

fn section_card(id: u16, section: &Section) -> Card
    requires { length section.now.bytes ≤ 1048576 }
    ensures card { result ≡ esd id (section_item section.now ∷ []) }
    ensures fits { IsTrue (card_fits result) }
{
    esd_card(
        id,
        EsdItem {
            name: name_bytes(section.name),
            sort: Sort::Section,
            address: 0,
            extent: section.bytes.len() as u32,
        },
    )
}

fn external_card(id: u16, name: u64) -> Card
    ensures card { result ≡ esd id (external_item name ∷ []) }
    ensures fits { IsTrue (card_fits result) }
{
    esd_card(
        id,
        EsdItem {
            name: name_bytes(name),
            sort: Sort::External,
            address: 0,
            extent: 0,
        },
    )
}

fn constant_card(c: Constant) -> Card
    requires section { c.section < 65536 }
    requires target { c.target < 65536 }
    requires offset { c.offset < 16777216 }
    ensures card { result ≡ rld (constant_item c ∷ []) }
    ensures fits { IsTrue (card_fits result) }
{
    let mut items = ArrayVec::new();
    items.push(RldItem {
        target: c.target as u16,
        place: c.section as u16,
        v_type: c.external,
        width: 4,
        minus: false,
        address: c.offset as u32,
    });
    Card::Rld(RldCard { items })
}

fn last_card(entry: Option<Defined>) -> Card
    requires { EntryColumnsFit entry }
    ensures card { result ≡ end_card entry }
    ensures fits { IsTrue (card_fits result) }
{
    match entry {
        None => Card::End(None),
        Some(d) => Card::End(Some(EntryPoint {
            address: d.offset as u32,
            id: d.section as u16,
        })),
    }
}

/// Puts a card for each section. ESDIDs and numbers of cards count from `number`.
pub fn push_sections(
    out: &mut Vec<u8>,
    number: u32,
    sections: &[Section],
) -> Result<u32, AllocError>
    requires count { number + length sections.now ≤ 65536 }
    requires lengths { LengthsFit sections.now }
    ensures cards { IfOk result (λ r. (rest : List SpecCard)
        → out.new.items ++ deck_bytes r rest
        ≡ out.old.items ++ deck_bytes number (section_cards number sections.now ++ rest)) }
    ensures number { IfOk result (λ r. r ≡ number + length sections.now) }
{
    let mut id = number;
    let mut rest = sections;
    while let Some((first, after)) = rest.split_first() {
        push_card(out, id, &section_card(id as u16, first))?;
        id += 1;
        rest = after;
    }
    Ok(id)
}

/// Puts a card for each external name. ESDIDs and numbers of cards count from `number`.
pub fn push_externals(out: &mut Vec<u8>, number: u32, names: &[u64]) -> Result<u32, AllocError>
    requires count { number + length names.now ≤ 65536 }
    ensures cards { IfOk result (λ r. (rest : List SpecCard)
        → out.new.items ++ deck_bytes r rest
        ≡ out.old.items ++ deck_bytes number (external_cards number names.now ++ rest)) }
    ensures number { IfOk result (λ r. r ≡ number + length names.now) }
{
    let mut id = number;
    let mut rest = names;
    while let Some((first, after)) = rest.split_first() {
        push_card(out, id, &external_card(id as u16, *first))?;
        id += 1;
        rest = after;
    }
    Ok(id)
}

/// Puts a card for each address constant, the first of them with this number.
pub fn push_constants(
    out: &mut Vec<u8>,
    number: u32,
    constants: &[Constant],
) -> Result<u32, AllocError>
    requires numbers { number + length constants.now < 4294967296 }
    requires columns { ColumnsFit constants.now }
    ensures cards { IfOk result (λ r. (rest : List SpecCard)
        → out.new.items ++ deck_bytes r rest
        ≡ out.old.items ++ deck_bytes number (constant_cards constants.now ++ rest)) }
    ensures number { IfOk result (λ r. r ≡ number + length constants.now) }
{
    let mut next = number;
    let mut rest = constants;
    while let Some((first, after)) = rest.split_first() {
        push_card(out, next, &constant_card(*first))?;
        next += 1;
        rest = after;
    }
    Ok(next)
}

/// Puts the END card.
pub fn push_end(out: &mut Vec<u8>, number: u32, entry: Option<Defined>) -> Result<(), AllocError>
    requires { EntryColumnsFit entry }
    ensures { OnOk result (out.new.items
        ≡ out.old.items ++ deck_bytes number (end_card entry ∷ [])) }
{
    push_card(out, number, &last_card(entry))?;
    Ok(())
}
