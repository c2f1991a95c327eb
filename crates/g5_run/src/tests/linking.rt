// Decks, linked. Their names are of one letter, in EBCDIC.
use super::{DECK, Given, Left, add_card, run};
use crate::{Input, Status};
use g5_outside::FileNo;
use std::alloc::Global;
use std::test::Fail;

const LINK: &[&str] = &["link", "N", "D", "C"];

const END: &[u8] = &[0x02, 0xC5, 0xD5, 0xC4];

// Section A of 10 bytes and section B of 8, which was assembled at 32.
const TWO_SECTIONS: &[u8] = &[
    0x02, 0xC5, 0xE2, 0xC4, 0x40, 0x40, 0x40, 0x40, 0x40, 0x40, 0x00, 0x20, 0x40, 0x40, 0x00, 0x01,
    0xC1, 0x40, 0x40, 0x40, 0x40, 0x40, 0x40, 0x40, 0x00, 0x00, 0x00, 0x00, 0x40, 0x00, 0x00, 0x0A,
    0xC2, 0x40, 0x40, 0x40, 0x40, 0x40, 0x40, 0x40, 0x00, 0x00, 0x00, 0x20, 0x40, 0x00, 0x00, 0x08,
];

// Section A of 8 bytes.
const ONE_SECTION: &[u8] = &[
    0x02, 0xC5, 0xE2, 0xC4, 0x40, 0x40, 0x40, 0x40, 0x40, 0x40, 0x00, 0x10, 0x40, 0x40, 0x00, 0x01,
    0xC1, 0x40, 0x40, 0x40, 0x40, 0x40, 0x40, 0x40, 0x00, 0x00, 0x00, 0x00, 0x40, 0x00, 0x00, 0x08,
];

// The constant at 4 of section A is the address of the fourth byte of section B.
const POINTER: &[u8] = &[
    0x02, 0xE3, 0xE7, 0xE3, 0x40, 0x00, 0x00, 0x04, 0x40, 0x40, 0x00, 0x04, 0x40, 0x40, 0x00, 0x01,
    0x00, 0x00, 0x00, 0x24,
];

const RELOCATION: &[u8] = &[
    0x02, 0xD9, 0xD3, 0xC4, 0x40, 0x40, 0x40, 0x40, 0x40, 0x40, 0x00, 0x08, 0x40, 0x40, 0x40, 0x40,
    0x00, 0x02, 0x00, 0x01, 0x0C, 0x00, 0x00, 0x04,
];

// Constants of four bytes at 0 and at 2.
const CLASHING: &[u8] = &[
    0x02, 0xD9, 0xD3, 0xC4, 0x40, 0x40, 0x40, 0x40, 0x40, 0x40, 0x00, 0x0C, 0x40, 0x40, 0x40, 0x40,
    0x00, 0x01, 0x00, 0x01, 0x0D, 0x00, 0x00, 0x00, 0x0C, 0x00, 0x00, 0x02,
];

// Section A, which was assembled at 8, and the label B before it, at 0.
const LABEL_BEFORE: &[u8] = &[
    0x02, 0xC5, 0xE2, 0xC4, 0x40, 0x40, 0x40, 0x40, 0x40, 0x40, 0x00, 0x20, 0x40, 0x40, 0x00, 0x01,
    0xC1, 0x40, 0x40, 0x40, 0x40, 0x40, 0x40, 0x40, 0x00, 0x00, 0x00, 0x08, 0x40, 0x00, 0x00, 0x08,
    0xC2, 0x40, 0x40, 0x40, 0x40, 0x40, 0x40, 0x40, 0x01, 0x00, 0x00, 0x00, 0x40, 0x00, 0x00, 0x01,
];

// Section A of 8 bytes and section B of X'404048', and an entry X'404040' above the begin of A.
const LARGE_SECTION: &[u8] = &[
    0x02, 0xC5, 0xE2, 0xC4, 0x40, 0x40, 0x40, 0x40, 0x40, 0x40, 0x00, 0x20, 0x40, 0x40, 0x00, 0x01,
    0xC1, 0x40, 0x40, 0x40, 0x40, 0x40, 0x40, 0x40, 0x00, 0x00, 0x00, 0x00, 0x40, 0x00, 0x00, 0x08,
    0xC2, 0x40, 0x40, 0x40, 0x40, 0x40, 0x40, 0x40, 0x00, 0x00, 0x00, 0x00, 0x40, 0x40, 0x40, 0x48,
];

const BLANK_ENTRY: &[u8] = &[
    0x02, 0xC5, 0xD5, 0xC4, 0x40, 0x40, 0x40, 0x38, 0x40, 0x40, 0x40, 0x40, 0x40, 0x40, 0x00, 0x02,
];

// The cards of the linked deck of sections A and B.
const LINKED: [&[u8]; 6] = [
    &[
        0x02, 0xC5, 0xE2, 0xC4, 0x40, 0x40, 0x40, 0x40, 0x40, 0x40, 0x00, 0x10, 0x40, 0x40, 0x00,
        0x01, 0x40, 0x40, 0x40, 0x40, 0x40, 0x40, 0x40, 0x40, 0x00, 0x00, 0x00, 0x00, 0x40, 0x00,
        0x00, 0x18,
    ],
    &[
        0x02, 0xC5, 0xE2, 0xC4, 0x40, 0x40, 0x40, 0x40, 0x40, 0x40, 0x00, 0x10, 0x40, 0x40, 0x00,
        0x00, 0xC1, 0x40, 0x40, 0x40, 0x40, 0x40, 0x40, 0x40, 0x01, 0x00, 0x00, 0x00, 0x40, 0x00,
        0x00, 0x01,
    ],
    &[
        0x02, 0xC5, 0xE2, 0xC4, 0x40, 0x40, 0x40, 0x40, 0x40, 0x40, 0x00, 0x10, 0x40, 0x40, 0x00,
        0x00, 0xC2, 0x40, 0x40, 0x40, 0x40, 0x40, 0x40, 0x40, 0x01, 0x00, 0x00, 0x10, 0x40, 0x00,
        0x00, 0x01,
    ],
    &[
        0x02, 0xE3, 0xE7, 0xE3, 0x40, 0x00, 0x00, 0x04, 0x40, 0x40, 0x00, 0x04, 0x40, 0x40, 0x00,
        0x01, 0x00, 0x00, 0x00, 0x14,
    ],
    &[
        0x02, 0xD9, 0xD3, 0xC4, 0x40, 0x40, 0x40, 0x40, 0x40, 0x40, 0x00, 0x08, 0x40, 0x40, 0x40,
        0x40, 0x00, 0x01, 0x00, 0x01, 0x0C, 0x00, 0x00, 0x04,
    ],
    &[
        0x02, 0xC5, 0xD5, 0xC4, 0x40, 0x00, 0x00, 0x00, 0x40, 0x40, 0x40, 0x40, 0x40, 0x40, 0x00,
        0x01,
    ],
];

fn deck_of(alloc: Global, cards: &[&[u8]]) -> Result<Vec<u8>, Fail> {
    let mut deck = Vec::new(alloc);
    for card in cards {
        add_card(&mut deck, card)?;
    }
    Ok(deck)
}

// At most nine cards, numbered in columns 73-80.
fn numbered_deck(alloc: Global, cards: &[&[u8]]) -> Result<Vec<u8>, Fail> {
    let mut deck = Vec::new(alloc);
    for (card, digit) in cards.iter().zip(0xF1..0xFAu8) {
        let mut columns = Vec::from_slice(alloc, card)?;
        for _ in card.len()..72 {
            columns.push(0x40)?;
        }
        columns.extend_from_slice(&[0xF0, 0xF0, 0xF0, 0xF0, 0xF0, 0xF0, 0xF0, digit])?;
        add_card(&mut deck, &columns)?;
    }
    Ok(deck)
}

// Runs words over two parts, the files D and C.
fn run_parts(alloc: Global, words: &[&str], first: &[u8], second: &[u8]) -> Result<Left, Fail> {
    let given = Given {
        deck: first,
        console: second,
        schedule: b"",
        script: b"",
        failing: &[],
    };
    run(alloc, words, &given, 400)
}

// 'Threaded sections', linked: the constant has the distance of B from A in it, and where the
// linked deck is loaded, at X'10000', the address.
#[test]
fn sections_linked(rt: HostRuntime) -> Result<(), Fail> {
    let alloc = rt.alloc();
    let deck = deck_of(alloc, &[TWO_SECTIONS, POINTER, RELOCATION, END])?;
    let left = run_parts(alloc, &["link", "N", "D"], &deck, b"")?;
    assert_eq!(rt; left.status, Status::Done);
    let linked = numbered_deck(alloc, &LINKED)?;
    assert_eq!(rt; left.shelf.text_of(FileNo(0)), linked.as_slice());
    assert_eq!(rt; left.shelf.given(), 1);
    assert_eq!(rt; left.out.taken(), b"".as_slice());
    assert_eq!(rt; left.err.taken(), b"".as_slice());
    let shown = run_parts(alloc, &["dis", "D", "010004", "2"], &linked, b"")?;
    let lines = b"010004 DC X'0001'\n010006 DC X'0014'\n";
    assert_eq!(rt; shown.out.taken(), lines.as_slice());
    Ok(())
}

#[derive(Clone, Copy)]
struct Case<'a> {
    words: &'a [&'a str],
    first: &'a [&'a [u8]],
    second: &'a [&'a [u8]],
    number: u8,
    err: &'a [u8],
}

// 'Constants that clash', and each other refusal; the cards of all parts are counted together.
#[test]
fn parts_refused(rt: HostRuntime) -> Result<(), Fail> {
    let alloc = rt.alloc();
    let clashing = Case {
        words: LINK,
        first: &[ONE_SECTION, CLASHING, END],
        second: &[],
        number: 14,
        err: b"link refused: Clash 2\n",
    };
    let cases = [
        clashing,
        Case {
            first: &[],
            err: b"link refused: NoEnd\n",
            ..clashing
        },
        Case {
            first: &[ONE_SECTION, END],
            second: &[ONE_SECTION, END],
            err: b"link refused: DuplicateName 3\n",
            ..clashing
        },
        Case {
            first: &[LABEL_BEFORE, END],
            err: b"link refused: Label 1\n",
            ..clashing
        },
        Case {
            first: &[LARGE_SECTION, BLANK_ENTRY],
            err: b"link refused: BlankEntry\n",
            ..clashing
        },
        Case {
            words: &["link", "N", "D", "X", "Y"],
            number: 3,
            err: b"no file: X\n",
            ..clashing
        },
        Case {
            words: &["link", "N"],
            number: 2,
            err: b"usage\n",
            ..clashing
        },
        Case {
            words: &["link", "D", "C", "D"],
            number: 2,
            err: b"usage\n",
            ..clashing
        },
    ];
    for case in &cases {
        let (first, second) = (deck_of(alloc, case.first)?, deck_of(alloc, case.second)?);
        let left = run_parts(alloc, case.words, &first, &second)?;
        assert_eq!(rt; left.status.number(), case.number);
        assert_eq!(rt; left.err.taken(), case.err);
        assert_eq!(rt; left.shelf.given(), 0);
        assert_eq!(rt; left.out.taken(), b"".as_slice());
    }
    Ok(())
}

// The second part has one byte more than the first one leaves of 16,000,000.
#[test]
fn together_too_large(rt: HostRuntime) -> Result<(), Fail> {
    let large = vec![in rt.alloc(); 0; 15_999_761]?;
    let left = run_parts(rt.alloc(), LINK, &DECK, &large)?;
    assert_eq!(rt; left.status, Status::TooLarge(Input::Part(1)));
    assert_eq!(rt; left.err.taken(), b"too large: C\n".as_slice());
    assert_eq!(rt; left.shelf.given(), 0);
    Ok(())
}

// 200,200 constants of one byte, on every other byte: as many cards of text, which are more than
// 16,000,000 bytes.
#[test]
fn linked_deck_too_long(rt: HostRuntime) -> Result<(), Fail> {
    let alloc = rt.alloc();
    let mut section = Vec::from_slice(alloc, ONE_SECTION)?;
    section[29] = 0x10;
    let mut deck = deck_of(alloc, &[&section])?;
    for card in 0..15_400u32 {
        let mut items = Vec::from_slice(alloc, &RELOCATION[..16])?;
        items[11] = 0x38;
        items.extend_from_slice(&[0x00, 0x01, 0x00, 0x01])?;
        for item in 0..13u32 {
            let [_, high, middle, low] = (card * 26 + item * 2).to_be_bytes();
            items.extend_from_slice(&[u8::from(item < 12), high, middle, low])?;
        }
        add_card(&mut deck, &items)?;
    }
    add_card(&mut deck, END)?;
    let left = run_parts(alloc, LINK, &deck, b"")?;
    assert_eq!(rt; left.err.taken(), b"link refused: TooLong\n".as_slice());
    assert_eq!(rt; left.shelf.given(), 0);
    Ok(())
}
