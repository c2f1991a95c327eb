// Decks that are linked.
use super::{Left, NONE, add_card, add_file, shelf_of};
use crate::link_files;
use deck_model::decks::DeckRefusal;
use g5_outside::{FileNo, NamedFile};
use program_model::inputs::Input;
use program_model::refusals::LinkRefusal;
use program_model::status::Status;
use std::alloc::Global;
use std::test::Fail;

// An item of ESDID 1 at address 0 with two bytes: a section of this name.
fn section(letter: u8) -> [u8; 32] {
    [
        0x02, 0xC5, 0xE2, 0xC4, 0x40, 0x40, 0x40, 0x40, 0x40, 0x40, 0x00, 0x10, 0x40, 0x40, 0x00,
        0x01, letter, 0x40, 0x40, 0x40, 0x40, 0x40, 0x40, 0x40, 0x00, 0x00, 0x00, 0x00, 0x40, 0x00,
        0x00, 0x02,
    ]
}

// A name of the linked deck, at an address in its section.
fn label(letter: u8, address: u8) -> [u8; 32] {
    let mut card = section(letter);
    card[15] = 0x00;
    card[24] = 0x01;
    card[27] = address;
    card[31] = 0x01;
    card
}

// Two bytes of text.
fn text(address: u8, bytes: [u8; 2]) -> [u8; 18] {
    [
        0x02, 0xE3, 0xE7, 0xE3, 0x40, 0x00, 0x00, address, 0x40, 0x40, 0x00, 0x02, 0x40, 0x40,
        0x00, 0x01, bytes[0], bytes[1],
    ]
}

const END: &[u8] = &[0x02, 0xC5, 0xD5, 0xC4];

const ENTRY: &[u8] = &[
    0x02, 0xC5, 0xD5, 0xC4, 0x40, 0x00, 0x00, 0x00, 0x40, 0x40, 0x40, 0x40, 0x40, 0x40, 0x00, 0x01,
];

const A: u8 = 0xC1;

const B: u8 = 0xC2;

// Deck A has BR 14, deck B has AR 1,1, and deck E no card.
fn decks(alloc: Global) -> Result<Vec<NamedFile>, Fail> {
    let mut files = Vec::new(alloc);
    for (name, letter, bytes) in [("A", A, [0x07, 0xFE]), ("B", B, [0x1A, 0x11])] {
        let mut deck = Vec::new(alloc);
        add_card(&mut deck, &section(letter), 0)?;
        add_card(&mut deck, &text(0, bytes), 0)?;
        add_card(&mut deck, END, 0)?;
        add_file(&mut files, String::from_str(alloc, name)?, deck)?;
    }
    add_file(&mut files, String::from_str(alloc, "E")?, Vec::new(alloc))?;
    Ok(files)
}

// The linked deck of two of them: the second section lies at 8.
fn linked(alloc: Global, first: (u8, [u8; 2]), second: (u8, [u8; 2])) -> Result<Vec<u8>, Fail> {
    let mut deck = Vec::new(alloc);
    let mut whole = section(0x40);
    whole[31] = 0x0A;
    add_card(&mut deck, &whole, 1)?;
    add_card(&mut deck, &label(first.0, 0), 2)?;
    add_card(&mut deck, &label(second.0, 8), 3)?;
    add_card(&mut deck, &text(0, first.1), 4)?;
    add_card(&mut deck, &text(8, second.1), 5)?;
    add_card(&mut deck, ENTRY, 6)?;
    Ok(deck)
}

// Links the decks of these names into the file O.
fn link_on(
    alloc: Global,
    names: &[&str],
    files: Vec<NamedFile>,
    failing: u64,
    room: usize,
) -> Result<Left, Fail> {
    let mut shelf = shelf_of(alloc, files, failing, room)?;
    let made = if names.is_empty() || names.len() > 16 {
        Err(Status::Usage)
    } else {
        link_files(alloc, "O", names, &mut shelf)
    };
    Ok(Left { made, shelf })
}

#[derive(Clone, Copy)]
struct Case<'a> {
    decks: &'a [&'a str],
    failing: u64,
    room: usize,
    made: Result<(), Status>,
    length: usize,
}

// Two decks in either order, refusals of each of them, and what fails. The sixth call is the read
// at the end of the second deck, and the seventh creates the file.
#[test]
fn decks_in_their_order(rt: HostRuntime) -> Result<(), Fail> {
    let alloc = rt.alloc();
    let first = linked(alloc, (A, [0x07, 0xFE]), (B, [0x1A, 0x11]))?;
    let both = Case {
        decks: &["A", "B"],
        failing: NONE,
        room: 1000,
        made: Ok(()),
        length: 480,
    };
    let refused = |refusal| Err(Status::LinkRefused(LinkRefusal::Deck(refusal)));
    let cases = [
        both,
        Case {
            decks: &["A", "X", "Y"],
            made: Err(Status::NoFile(Input::Part(1))),
            length: 0,
            ..both
        },
        Case {
            decks: &["A", "E"],
            length: 320,
            ..both
        },
        Case {
            decks: &["E"],
            made: refused(DeckRefusal::NoEnd),
            length: 0,
            ..both
        },
        Case {
            decks: &["A", "A"],
            made: refused(DeckRefusal::DuplicateName(4)),
            length: 0,
            ..both
        },
        Case {
            failing: 6,
            made: Err(Status::ReadFault),
            length: 0,
            ..both
        },
        Case {
            failing: 7,
            made: Err(Status::WriteFault),
            length: 0,
            ..both
        },
        Case {
            room: 100,
            made: Err(Status::WriteFault),
            length: 100,
            ..both
        },
    ];
    for case in &cases {
        let left = link_on(alloc, case.decks, decks(alloc)?, case.failing, case.room)?;
        assert_eq!(rt; left.made, case.made);
        let text = left.shelf.text_of(FileNo(0));
        assert_eq!(rt; text.len(), case.length);
        assert!(rt; case.decks.len() != 2 || case.length == 320 || first.starts_with(text));
    }
    let left = link_on(alloc, &["B", "A"], decks(alloc)?, NONE, 1000)?;
    let second = linked(alloc, (B, [0x1A, 0x11]), (A, [0x07, 0xFE]))?;
    assert_eq!(rt; left.made, Ok(()));
    assert_eq!(rt; left.shelf.text_of(FileNo(0)), second.as_slice());
    Ok(())
}

// Deck A has 240 bytes, and deck L one more than is left behind it.
#[test]
fn together_too_large(rt: HostRuntime) -> Result<(), Fail> {
    let alloc = rt.alloc();
    let too_large = Err(Status::TooLarge(Input::Part(1)));
    let no_cards = Err(Status::LinkRefused(LinkRefusal::Deck(DeckRefusal::NotCards)));
    let cases: [(&[&str], Result<(), Status>); 3] = [
        (&["A", "L"], too_large),
        (&["L", "A", "B"], too_large),
        (&["L"], no_cards),
    ];
    for (names, made) in cases {
        let mut files = decks(alloc)?;
        let large = vec![in alloc; 0u8; 15_999_761]?;
        add_file(&mut files, String::from_str(alloc, "L")?, large)?;
        let left = link_on(alloc, names, files, 100_000, 1000)?;
        assert_eq!(rt; left.made, made);
        assert_eq!(rt; left.shelf.given(), 0);
    }
    Ok(())
}
