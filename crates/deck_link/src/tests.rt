//! Decks linked by hand. Letters are names of one letter, in EBCDIC.
ghost use Rattle.std.specs.Prelude.{◌≡◌, ◌≤◌, ◌*◌, ◌%◌, length, replicate, IfOk};

use crate::{LinkRefusal, link};
use abs_storage::AbsStorage;
use arrayvec::ArrayVec;
use card_deck::{
    Card, EntryPoint, EsdCard, EsdItem, RldCard, RldItem, Sort, TxtCard, fits, write_card,
};
use deck_loader::{DeckRefusal, load};
use std::alloc::{AllocError, Global};
use std::test::Fail;

const A: u8 = 0xC1;

const B: u8 = 0xC2;

const S: u8 = 0xE2;

const BLANK: u8 = 0x40;

const STORAGE: u32 = 0x2_0000;

fn item(letter: u8, sort: Sort, address: u32, extent: u32) -> EsdItem {
    let mut name = [BLANK; 8];
    name[0] = letter;
    EsdItem {
        name,
        sort,
        address,
        extent,
    }
}

fn section(letter: u8, address: u32, extent: u32) -> EsdItem {
    item(letter, Sort::Section, address, extent)
}

fn esd(first_id: u16, list: &[EsdItem]) -> Card {
    let mut items = ArrayVec::new();
    for item in list {
        if !items.is_full() {
            items.push(*item);
        }
    }
    Card::Esd(EsdCard { first_id, items })
}

// The section of a linked deck.
fn whole(extent: u32) -> Card {
    esd(1, &[section(BLANK, 0, extent)])
}

// A label of a linked deck.
fn label(letter: u8, address: u32) -> Card {
    esd(0, &[item(letter, Sort::Label, address, 1)])
}

fn txt(address: u32, list: &[u8]) -> Card {
    let mut bytes = ArrayVec::new();
    for b in list {
        if !bytes.is_full() {
            bytes.push(*b);
        }
    }
    Card::Txt(TxtCard {
        id: 1,
        address,
        bytes,
    })
}

// A constant of the first section.
fn constant(target: u16, address: u32, width: u8, minus: bool) -> RldItem {
    RldItem {
        target,
        place: 1,
        v_type: false,
        width,
        minus,
        address,
    }
}

fn rld(list: &[RldItem]) -> Card {
    let mut items = ArrayVec::new();
    for item in list {
        if !items.is_full() {
            items.push(*item);
        }
    }
    Card::Rld(RldCard { items })
}

fn end(address: u32, id: u16) -> Card {
    Card::End(Some(EntryPoint { address, id }))
}

const END: Card = Card::End(None);

fn push(deck: &mut Vec<u8>, card: &Card, columns: &[u8; 8]) -> Result<(), AllocError> {
    if fits(card) {
        for b in &write_card(card, columns) {
            deck.push(*b)?;
        }
    }
    Ok(())
}

// The cards, each with the same columns 73-80.
fn deck_of(alloc: Global, cards: &[Card]) -> Result<Vec<u8>, AllocError> {
    let mut deck = Vec::new(alloc);
    for card in cards {
        push(&mut deck, card, b"MAIN0001")?;
    }
    Ok(deck)
}

// At most nine cards, numbered in columns 73-80.
fn numbered(alloc: Global, cards: &[Card]) -> Result<Vec<u8>, AllocError> {
    let mut deck = Vec::new(alloc);
    for (card, digit) in cards.iter().zip(0xF1..0xFAu8) {
        push(
            &mut deck,
            card,
            &[0xF0, 0xF0, 0xF0, 0xF0, 0xF0, 0xF0, 0xF0, digit],
        )?;
    }
    Ok(deck)
}

fn linked(alloc: Global, deck: &[u8]) -> Result<Vec<u8>, LinkRefusal> {
    if deck.len() > 10_000_000 {
        return Err(LinkRefusal::NoMemory);
    }
    link(alloc, deck)
}

// Whether the cards are linked into these.
fn links_into(alloc: Global, cards: &[Card], into: &[Card]) -> Result<bool, AllocError> {
    let deck = deck_of(alloc, cards)?;
    let wanted = numbered(alloc, into)?;
    match linked(alloc, &deck) {
        Ok(linked) => Ok(linked == wanted),
        Err(_) => Ok(false),
    }
}

fn refusal(alloc: Global, cards: &[Card]) -> Result<Option<LinkRefusal>, AllocError> {
    let deck = deck_of(alloc, cards)?;
    Ok(linked(alloc, &deck).err())
}

// Two sections, of which the first holds the address of a place in the second, which lies X'10'
// below its address.
fn threaded() -> [Card; 4] {
    [
        esd(1, &[section(A, 0, 10), section(B, 0x20, 8)]),
        txt(4, &[0, 0, 0, 0x24]),
        rld(&[constant(2, 4, 4, false)]),
        END,
    ]
}

#[test]
fn threaded_sections(rt: HostRuntime) -> Result<(), Fail> {
    let into = [
        whole(0x18),
        label(A, 0),
        label(B, 0x10),
        txt(4, &[0, 0, 0, 0x14]),
        rld(&[constant(1, 4, 4, false)]),
        end(0, 1),
    ];
    assert!(rt; links_into(rt.alloc(), &threaded(), &into)?);
    Ok(())
}

fn fresh(alloc: Global, bytes: u32) -> Result<AbsStorage, DeckRefusal>
    requires pages { bytes % 4096 ≡ 0 }
    requires most { bytes ≤ 4096 * 4096 }
    ensures { IfOk result (λ s. s ≡ replicate (length s) 0) }
{
    match AbsStorage::new(alloc, bytes) {
        Ok(storage) => Ok(storage),
        Err(_) => Err(DeckRefusal::NoMemory),
    }
}

// The entry of a deck, and four bytes of its image.
fn loaded(alloc: Global, deck: &[u8], at: u32) -> Result<(u32, [Option<u8>; 4]), DeckRefusal> {
    if deck.len() > 10_000 {
        return Err(DeckRefusal::NoMemory);
    }
    let mut storage = fresh(alloc, STORAGE)?;
    let entry = load(alloc, deck, &mut storage)?.address;
    let mut bytes = [None; 4];
    for (byte, k) in bytes.iter_mut().zip(0..4u32) {
        *byte = at.checked_add(k).and_then(|at| storage.fetch(at));
    }
    Ok((entry, bytes))
}

// A deck and what it is linked into have the same constant where they are loaded.
#[test]
fn loaded_alike(rt: HostRuntime) -> Result<(), Fail> {
    let deck = deck_of(rt.alloc(), &threaded())?;
    let constant = Ok((0x1_0000, [Some(0), Some(1), Some(0), Some(0x14)]));
    assert_eq!(rt; loaded(rt.alloc(), &deck, 0x1_0004), constant);
    let Ok(linked) = linked(rt.alloc(), &deck) else {
        assert!(rt; false);
        return Ok(());
    };
    assert_eq!(rt; loaded(rt.alloc(), &linked, 0x1_0004), constant);
    Ok(())
}

// A name that the second deck defines; the entry is that of the first.
#[test]
fn names_across_decks(rt: HostRuntime) -> Result<(), Fail> {
    let cards = [
        esd(1, &[section(A, 0, 8), item(S, Sort::External, 0, 0)]),
        txt(6, &[0, 0x0A]),
        rld(&[constant(2, 6, 2, true)]),
        end(2, 1),
        esd(1, &[section(S, 0, 4)]),
        end(0, 1),
    ];
    let into = [
        whole(12),
        label(A, 0),
        label(S, 8),
        txt(6, &[0, 2]),
        rld(&[constant(1, 6, 2, true)]),
        end(2, 1),
    ];
    assert!(rt; links_into(rt.alloc(), &cards, &into)?);
    Ok(())
}

// A weak name that nothing defines moves nothing, and its constant stands. The blank name of the
// section is no label.
#[test]
fn weak_without_a_name(rt: HostRuntime) -> Result<(), Fail> {
    let cards = [
        esd(1, &[section(BLANK, 0, 8), item(BLANK, Sort::Weak, 0, 0)]),
        rld(&[constant(2, 4, 1, false)]),
        END,
    ];
    let into = [whole(8), txt(4, &[0]), end(0, 1)];
    assert!(rt; links_into(rt.alloc(), &cards, &into)?);
    Ok(())
}

// The second section lies at 16. It is added to a constant of each width, or subtracted, once for
// each relocation.
#[test]
fn constants_of_each_width(rt: HostRuntime) -> Result<(), Fail> {
    let cards = [
        esd(1, &[section(A, 0, 12), section(B, 0, 8)]),
        txt(0, &[0xF1, 0x12, 0xF3, 0, 0, 0x20, 0, 0, 0, 1]),
        rld(&[
            constant(2, 0, 1, false),
            constant(2, 1, 2, false),
            constant(2, 3, 3, true),
            constant(2, 6, 4, true),
            constant(2, 6, 4, true),
        ]),
        END,
    ];
    let into = [
        whole(24),
        label(A, 0),
        label(B, 16),
        txt(0, &[0x01, 0x13, 0x03, 0, 0, 0x10, 0xFF, 0xFF, 0xFF, 0xE1]),
        rld(&[
            constant(1, 0, 1, false),
            constant(1, 1, 2, false),
            constant(1, 3, 3, true),
            constant(1, 6, 4, true),
            constant(1, 6, 4, true),
        ]),
        end(0, 1),
    ];
    assert!(rt; links_into(rt.alloc(), &cards, &into)?);
    Ok(())
}

// Two texts that meet are one run, which is cut at 56 bytes.
#[test]
fn runs_are_cut(rt: HostRuntime) -> Result<(), Fail> {
    let cards = [
        whole(0x80),
        txt(40, &[2; 40]),
        txt(0, &[1; 40]),
        txt(0x7F, &[3]),
        END,
    ];
    let mut first = [1; 56];
    first[40..].copy_from_slice(&[2; 16]);
    let into = [
        whole(0x80),
        txt(0, &first),
        txt(56, &[2; 24]),
        txt(0x7F, &[3]),
        end(0, 1),
    ];
    assert!(rt; links_into(rt.alloc(), &cards, &into)?);
    Ok(())
}

// Each refusal, where all that follow it in their order hold too.
#[test]
fn refusals_in_order(rt: HostRuntime) -> Result<(), Fail> {
    // B lies 8 bytes before the first section; S has X'404048' bytes.
    let items = || {
        esd(
            1,
            &[
                section(A, 8, 8),
                section(S, 0, 0x40_4048),
                item(B, Sort::Label, 0, 1),
            ],
        )
    };
    let near = || esd(1, &[section(A, 8, 8), section(S, 0, 0x40_4048)]);
    let clashing = || rld(&[constant(1, 8, 4, false), constant(1, 10, 4, false)]);
    let alone = || rld(&[constant(1, 8, 4, false), constant(1, 8, 4, false)]);
    let blank = || end(0x40_4038, 2);
    let outside = || end(0x40_4048, 2);
    for (cards, wanted) in [
        (
            [items(), clashing(), Card::Sym],
            Some(LinkRefusal::Deck(DeckRefusal::NoEnd)),
        ),
        (
            [items(), clashing(), outside()],
            Some(LinkRefusal::Deck(DeckRefusal::EntryOutside)),
        ),
        ([items(), clashing(), blank()], Some(LinkRefusal::Clash(2))),
        ([items(), alone(), blank()], Some(LinkRefusal::Label(1))),
        ([near(), alone(), blank()], Some(LinkRefusal::BlankEntry)),
        ([near(), alone(), END], None),
    ] {
        assert_eq!(rt; refusal(rt.alloc(), &cards)?, wanted);
    }
    Ok(())
}

// The second constant shares two bytes with the first.
#[test]
fn overlapping_constants(rt: HostRuntime) -> Result<(), Fail> {
    let cards = [
        esd(1, &[section(A, 0, 8)]),
        rld(&[constant(1, 0, 4, false), constant(1, 2, 4, false)]),
        END,
    ];
    assert_eq!(rt; refusal(rt.alloc(), &cards)?, Some(LinkRefusal::Clash(2)));
    Ok(())
}

// A constant on every other byte wants a card each: 200,000 of them and their relocations are more
// than 16,000,000 bytes.
#[test]
fn too_long(rt: HostRuntime) -> Result<(), Fail> {
    let mut deck = deck_of(rt.alloc(), &[whole(0x10_0000)])?;
    for card in 0..15_400u16 {
        let mut items = [constant(1, 0, 1, false); 13];
        for (item, k) in items.iter_mut().zip(0..13u8) {
            item.address = u32::from(card) * 26 + u32::from(k) * 2;
        }
        push(&mut deck, &rld(&items), b"MAIN0001")?;
    }
    push(&mut deck, &END, b"MAIN0001")?;
    assert_eq!(rt; linked(rt.alloc(), &deck).err(), Some(LinkRefusal::TooLong));
    Ok(())
}
