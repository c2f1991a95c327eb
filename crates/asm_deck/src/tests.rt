//! Decks worked by hand from the columns of their cards.
ghost use Rattle.std.specs.Prelude.{◌≡◌, ◌≤◌, length, IfOk};

use crate::deck_of;
use asm_model::program::{Constant, Defined, Section};
use std::alloc::{AllocError, Global};
use std::test::Fail;

const ESD: [u8; 3] = [0xC5, 0xE2, 0xC4];

const TXT: [u8; 3] = [0xE3, 0xE7, 0xE3];

const RLD: [u8; 3] = [0xD9, 0xD3, 0xC4];

const END: [u8; 3] = [0xC5, 0xD5, 0xC4];

// `A` and `B` with seven blanks.
const NAME_A: u64 = 0xC140_4040_4040_4040;

const NAME_B: u64 = 0xC240_4040_4040_4040;

// Columns of a card, counted from 0, and their bytes.
type Columns<'a> = (usize, &'a [u8]);

// Whether the card behind so many others is blank but for its type, its number and these columns.
fn is_card(deck: &[u8], before: u8, kind: [u8; 3], columns: &[Columns]) -> bool {
    let mut card = [0x40; 80];
    card[0] = 2;
    card[1..4].copy_from_slice(&kind);
    card[72..80].copy_from_slice(&[0xF0, 0xF0, 0xF0, 0xF0, 0xF0, 0xF0, 0xF0, 0xF0]);
    card[79] = 0xF1 + before % 9;
    for (at, bytes) in columns {
        for (byte, more) in card.iter_mut().skip(*at).zip(*bytes) {
            *byte = *more;
        }
    }
    deck.iter()
        .skip(before as usize * 80)
        .take(80)
        .eq(card.iter())
}

fn section(alloc: Global, name: u64, bytes: &[u8]) -> Result<Section, AllocError>
    ensures { IfOk result (λ s. length s.bytes ≡ length bytes.now) }
{
    let mut copy = Vec::new(alloc);
    copy.extend_from_slice(bytes)?;
    Ok(Section { name, bytes: copy })
}

// A section without constants, and no entry.
#[test]
fn three_cards(rt: HostRuntime) -> Result<(), Fail> {
    let bytes = [0x41, 0x10, 0x08, 0x00, 0x07, 0x00, 0xC8, 0xC9];
    let sections = [section(rt.alloc(), NAME_A, &bytes)?];
    let deck = deck_of(rt.alloc(), &sections, &[], &[], None)?;
    assert_eq!(rt; deck.len(), 240);
    let item = [
        0xC1, 0x40, 0x40, 0x40, 0x40, 0x40, 0x40, 0x40, 0, 0, 0, 0, 0x40, 0, 0, 8,
    ];
    assert!(rt; is_card(&deck, 0, ESD, &[(10, &[0, 16]), (14, &[0, 1]), (16, &item)]));
    assert!(rt;
        is_card(
            &deck,
            1,
            TXT,
            &[(5, &[0, 0, 0]), (10, &[0, 8]), (14, &[0, 1]), (16, &bytes)]
        )
    );
    assert!(rt; is_card(&deck, 2, END, &[]));
    Ok(())
}

// Two sections, the second of 60 bytes; an A constant and a V constant that name it; an entry in it.
#[test]
fn each_type_of_card(rt: HostRuntime) -> Result<(), Fail> {
    let sections = [
        section(rt.alloc(), NAME_A, &[0, 0, 0, 2, 0, 0, 0, 0])?,
        section(rt.alloc(), NAME_B, &[7; 60])?,
    ];
    let constants = [
        Constant {
            section: 1,
            offset: 0,
            target: 2,
            external: false,
        },
        Constant {
            section: 1,
            offset: 4,
            target: 3,
            external: true,
        },
    ];
    let entry = Defined {
        name: NAME_B,
        section: 2,
        offset: 4,
    };
    let deck = deck_of(rt.alloc(), &sections, &[NAME_B], &constants, Some(entry))?;
    assert_eq!(rt; deck.len(), 720);
    let second = [
        0xC2, 0x40, 0x40, 0x40, 0x40, 0x40, 0x40, 0x40, 0, 0, 0, 0, 0x40, 0, 0, 60,
    ];
    assert!(rt;
        is_card(
            &deck,
            1,
            ESD,
            &[(10, &[0, 16]), (14, &[0, 2]), (16, &second)]
        )
    );
    let outer = [
        0xC2, 0x40, 0x40, 0x40, 0x40, 0x40, 0x40, 0x40, 2, 0, 0, 0, 0x40, 0, 0, 0,
    ];
    assert!(rt;
        is_card(
            &deck,
            2,
            ESD,
            &[(10, &[0, 16]), (14, &[0, 3]), (16, &outer)]
        )
    );
    assert!(rt;
        is_card(
            &deck,
            4,
            TXT,
            &[
                (5, &[0, 0, 0]),
                (10, &[0, 56]),
                (14, &[0, 2]),
                (16, &[7; 56])
            ]
        )
    );
    assert!(rt;
        is_card(
            &deck,
            5,
            TXT,
            &[
                (5, &[0, 0, 56]),
                (10, &[0, 4]),
                (14, &[0, 2]),
                (16, &[7; 4])
            ]
        )
    );
    let address = [0, 2, 0, 1, 0x0C, 0, 0, 0];
    assert!(rt; is_card(&deck, 6, RLD, &[(10, &[0, 8]), (16, &address)]));
    let external = [0, 3, 0, 1, 0x1C, 0, 0, 4];
    assert!(rt; is_card(&deck, 7, RLD, &[(10, &[0, 8]), (16, &external)]));
    assert!(rt; is_card(&deck, 8, END, &[(5, &[0, 0, 4]), (14, &[0, 2])]));
    Ok(())
}
