//! Worked decks, whose bytes were worked out by hand.
ghost use Rattle.std.specs.Prelude.{◌≡◌, ◌≤◌, ◌*◌, ◌%◌, length, replicate, IfOk};

use crate::{DeckRefusal, load};
use abs_storage::AbsStorage;
use arrayvec::ArrayVec;
use card_deck::{
    Card, EntryPoint, EsdCard, EsdItem, RldCard, RldItem, Sort, TxtCard, fits, write_card,
};
use std::alloc::{AllocError, Global};

const STORAGE: u32 = 0x2_0000;

fn item(name: &[u8], sort: Sort, address: u32, extent: u32) -> EsdItem {
    let mut filled = [0x40; 8];
    for (byte, letter) in filled.iter_mut().zip(name) {
        *byte = *letter;
    }
    EsdItem {
        name: filled,
        sort,
        address,
        extent,
    }
}

fn esd(first_id: u16, list: &[EsdItem]) -> Card {
    let mut items = ArrayVec::new();
    for item in list {
        if !items.is_full() {
            items.push(*item);
        }
    }
    Card::Esd(EsdCard { first_id, items })
}

fn section(first_id: u16, name: &[u8], length: u32) -> Card {
    esd(first_id, &[item(name, Sort::Section, 0, length)])
}

fn txt(id: u16, address: u32, list: &[u8]) -> Card {
    let mut bytes = ArrayVec::new();
    for b in list {
        if !bytes.is_full() {
            bytes.push(*b);
        }
    }
    Card::Txt(TxtCard { id, address, bytes })
}

fn constant(target: u16, place: u16, width: u8, minus: bool, address: u32) -> RldItem {
    RldItem {
        target,
        place,
        v_type: false,
        width,
        minus,
        address,
    }
}

fn rld(list: &[RldItem]) -> Card {
    let mut items = ArrayVec::new();
    for item in list {
        if !items.is_full() {
            items.push(*item);
        }
    }
    Card::Rld(RldCard { items })
}

// The cards, each written with an identification.
fn deck_of(alloc: Global, cards: &[Card]) -> Result<Vec<u8>, AllocError> {
    let mut deck = Vec::new(alloc);
    for card in cards {
        if fits(card) {
            for b in &write_card(card, b"MAIN0001") {
                deck.push(*b)?;
            }
        }
    }
    Ok(deck)
}

fn fresh(alloc: Global, bytes: u32) -> Result<AbsStorage, DeckRefusal>
    requires pages { bytes % 4096 ≡ 0 }
    requires most { bytes ≤ 4096 * 4096 }
    ensures { IfOk result (λ s. s ≡ replicate (length s) 0) }
{
    match AbsStorage::new(alloc, bytes) {
        Ok(storage) => Ok(storage),
        Err(_) => Err(DeckRefusal::NoMemory),
    }
}

// The entry and four bytes of the storage after a deck was loaded, or its refusal.
fn loaded(alloc: Global, deck: &[u8], at: u32) -> Result<(u32, [Option<u8>; 4]), DeckRefusal> {
    if deck.len() > 1000 {
        return Err(DeckRefusal::NoMemory);
    }
    let mut storage = fresh(alloc, STORAGE)?;
    let entry = load(alloc, deck, &mut storage)?.address;
    let mut bytes = [None; 4];
    for (byte, k) in bytes.iter_mut().zip(0..4u32) {
        *byte = at.checked_add(k).and_then(|at| storage.fetch(at));
    }
    Ok((entry, bytes))
}

fn four(a: u8, b: u8, c: u8, d: u8) -> [Option<u8>; 4] {
    [Some(a), Some(b), Some(c), Some(d)]
}

const A: [u8; 1] = [0xC1];

const B: [u8; 1] = [0xC2];

const MAIN: [u8; 4] = [0xD4, 0xC1, 0xC9, 0xD5];

const SUB: [u8; 3] = [0xE2, 0xE4, 0xC2];

// Two constants that share their pointers, one added and one subtracted.
fn shared() -> Card {
    rld(&[constant(1, 1, 4, false, 4), constant(1, 1, 3, true, 9)])
}

#[test]
fn refusals(rt: HostRuntime) -> Result<(), AllocError> {
    let a = || section(1, &A, 12);
    let end = || Card::End(None);
    for (cards, byte, refusal) in [
        ([a(), a(), end()], (80, 0), DeckRefusal::BadFirstByte(2)),
        ([a(), a(), end()], (82, 0), DeckRefusal::UnknownCard(2)),
        ([a(), a(), end()], (11, 17), DeckRefusal::BadCount(1)),
        ([a(), a(), end()], (104, 5), DeckRefusal::Unsupported(2)),
        ([a(), end(), Card::Sym], (0, 2), DeckRefusal::NoEnd),
        ([a(), a(), end()], (0, 2), DeckRefusal::DuplicateId(2)),
        (
            [a(), section(2, &A, 12), end()],
            (0, 2),
            DeckRefusal::DuplicateName(2),
        ),
        (
            [a(), txt(2, 0, &[1]), end()],
            (0, 2),
            DeckRefusal::UnknownId(2),
        ),
        (
            [a(), txt(1, 12, &[1]), end()],
            (0, 2),
            DeckRefusal::TextOutside(2),
        ),
        (
            [a(), rld(&[constant(1, 1, 4, false, 9)]), end()],
            (0, 2),
            DeckRefusal::RldOutside(2),
        ),
        (
            [
                a(),
                Card::Sym,
                Card::End(Some(EntryPoint { address: 12, id: 1 })),
            ],
            (0, 2),
            DeckRefusal::EntryOutside,
        ),
        (
            [a(), esd(2, &[item(&SUB, Sort::External, 0, 0)]), end()],
            (0, 2),
            DeckRefusal::Unresolved(2),
        ),
        (
            [a(), section(2, &B, STORAGE), end()],
            (0, 2),
            DeckRefusal::NoRoom,
        ),
    ] {
        let mut deck = deck_of(rt.alloc(), &cards)?;
        let (at, value) = byte;
        if at < deck.len() {
            deck[at] = value;
        }
        assert_eq!(rt; loaded(rt.alloc(), &deck, 0), Err(refusal));
    }
    Ok(())
}

#[test]
fn empty_deck(rt: HostRuntime) {
    assert_eq!(rt; loaded(rt.alloc(), &[], 0), Err(DeckRefusal::NoEnd));
}

#[test]
fn cut_card(rt: HostRuntime) {
    assert_eq!(rt; loaded(rt.alloc(), &[2; 81], 0), Err(DeckRefusal::NotCards));
}

#[test]
fn threaded_sections(rt: HostRuntime) -> Result<(), AllocError> {
    let deck = deck_of(
        rt.alloc(),
        &[
            esd(
                1,
                &[
                    item(&A, Sort::Section, 0, 10),
                    item(&B, Sort::Section, 0x20, 8),
                ],
            ),
            txt(1, 4, &[0, 0, 0, 0x24]),
            rld(&[constant(2, 1, 4, false, 4)]),
            Card::End(None),
        ],
    )?;
    assert_eq!(rt;
        loaded(rt.alloc(), &deck, 0x1_0004),
        Ok((0x1_0000, four(0, 1, 0, 0x14)))
    );
    Ok(())
}

#[test]
fn shared_pointers_minus(rt: HostRuntime) -> Result<(), AllocError> {
    let deck = deck_of(
        rt.alloc(),
        &[
            section(1, &A, 12),
            txt(1, 4, &[0, 0, 0, 8, 0, 0, 0, 5]),
            shared(),
            Card::End(None),
        ],
    )?;
    assert_eq!(rt;
        loaded(rt.alloc(), &deck, 0x1_0004),
        Ok((0x1_0000, four(0, 1, 0, 8)))
    );
    assert_eq!(rt;
        loaded(rt.alloc(), &deck, 0x1_0008),
        Ok((0x1_0000, four(0, 0xFF, 0, 5)))
    );
    Ok(())
}

#[test]
fn text_given_twice(rt: HostRuntime) -> Result<(), AllocError> {
    let deck = deck_of(
        rt.alloc(),
        &[
            section(1, &A, 12),
            txt(1, 4, &[0, 0, 0, 8, 0, 0, 0, 5]),
            txt(1, 4, &[0, 0, 0, 0x10]),
            shared(),
            Card::End(None),
        ],
    )?;
    assert_eq!(rt;
        loaded(rt.alloc(), &deck, 0x1_0004),
        Ok((0x1_0000, four(0, 1, 0, 0x10)))
    );
    assert_eq!(rt;
        loaded(rt.alloc(), &deck, 0x1_0008),
        Ok((0x1_0000, four(0, 0xFF, 0, 5)))
    );
    Ok(())
}

#[test]
fn unresolved(rt: HostRuntime) -> Result<(), AllocError> {
    for (sort, outcome) in [
        (Sort::External, Err(DeckRefusal::Unresolved(1))),
        (Sort::Weak, Ok((0x1_0000, four(0, 0, 0, 8)))),
    ] {
        let deck = deck_of(
            rt.alloc(),
            &[
                esd(1, &[item(&A, Sort::Section, 0, 12), item(&SUB, sort, 0, 0)]),
                txt(1, 4, &[0, 0, 0, 8, 0, 0, 0, 5]),
                rld(&[constant(2, 1, 4, false, 4)]),
                Card::End(None),
            ],
        )?;
        assert_eq!(rt; loaded(rt.alloc(), &deck, 0x1_0004), outcome);
    }
    Ok(())
}

#[test]
fn deck_as_an_assembler_writes_it(rt: HostRuntime) -> Result<(), AllocError> {
    // LA 1,X'800'; AR 1,1 five times; LA 1,X'1C'(1); LA 2,2; DIAGNOSE 1,2,X'100'; BCR 0,0; text
    let text = [
        0x41, 0x10, 0x08, 0x00, 0x1A, 0x11, 0x1A, 0x11, 0x1A, 0x11, 0x1A, 0x11, 0x1A, 0x11, 0x41,
        0x10, 0x10, 0x1C, 0x41, 0x20, 0x00, 0x02, 0x83, 0x12, 0x01, 0x00, 0x07, 0x00, 0xC8, 0xC9,
    ];
    let mut deck = deck_of(
        rt.alloc(),
        &[
            esd(
                1,
                &[
                    item(&[], Sort::Private, 0, 0),
                    item(&MAIN, Sort::Section, 0, 0x1E),
                ],
            ),
            Card::Sym,
            txt(2, 0, &text),
            Card::End(None),
        ],
    )?;
    for column in deck.iter_mut().skip(240 + 32).take(20) {
        *column = 0xE7;
    }
    assert_eq!(rt;
        loaded(rt.alloc(), &deck, 0x1_0000),
        Ok((0x1_0000, four(0x41, 0x10, 8, 0)))
    );
    assert_eq!(rt;
        loaded(rt.alloc(), &deck, 0x1_001C),
        Ok((0x1_0000, four(0xC8, 0xC9, 0, 0)))
    );
    Ok(())
}
