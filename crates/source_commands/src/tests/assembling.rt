// Sources that are assembled.
use super::{Left, NONE, add_card, add_file, shelf_of};
use crate::assemble_file;
use g5_outside::FileNo;
use program_model::inputs::Input;
use program_model::refusals::AsmRefusal;
use program_model::status::Status;
use std::alloc::Global;
use std::test::Fail;

#[derive(Drop)]
struct Case<'a> {
    source: &'a [u8],
    name: &'a str,
    failing: u64,
    room: usize,
    made: Result<(), Status>,
    length: usize,
}

const SOURCE: &[u8] = b"A CSECT\n BCR 15,14\n END\n";

// Assembles the file of this name, where S has a source, into the file N.
fn assemble_on(
    alloc: Global,
    name: &str,
    source: &[u8],
    failing: u64,
    room: usize,
) -> Result<Left, Fail> {
    let mut files = Vec::new(alloc);
    let text = Vec::from_slice(alloc, source)?;
    add_file(&mut files, String::from_str(alloc, "S")?, text)?;
    let mut shelf = shelf_of(alloc, files, failing, room)?;
    let made = assemble_file(alloc, name, "N", &mut shelf);
    Ok(Left { made, shelf })
}

// A section of two bytes, a source that ends without END, and what fails. The fourth call creates
// the file.
#[test]
fn sources_and_their_decks(rt: HostRuntime) -> Result<(), Fail> {
    let alloc = rt.alloc();
    let mut deck = Vec::new(alloc);
    let section = [
        0x02, 0xC5, 0xE2, 0xC4, 0x40, 0x40, 0x40, 0x40, 0x40, 0x40, 0x00, 0x10, 0x40, 0x40, 0x00,
        0x01, 0xC1, 0x40, 0x40, 0x40, 0x40, 0x40, 0x40, 0x40, 0x00, 0x00, 0x00, 0x00, 0x40, 0x00,
        0x00, 0x02,
    ];
    add_card(&mut deck, &section, 1)?;
    let text = [
        0x02, 0xE3, 0xE7, 0xE3, 0x40, 0x00, 0x00, 0x00, 0x40, 0x40, 0x00, 0x02, 0x40, 0x40, 0x00,
        0x01, 0x07, 0xFE,
    ];
    add_card(&mut deck, &text, 2)?;
    add_card(&mut deck, &[0x02, 0xC5, 0xD5, 0xC4], 3)?;
    let no_end = Err(Status::SourceRefused(AsmRefusal::NoEndStatement));
    let no_file = Err(Status::NoFile(Input::Program));
    let case = |source, name, failing, room, made, length| Case {
        source,
        name,
        failing,
        room,
        made,
        length,
    };
    let cases = [
        case(SOURCE, "S", NONE, 1000, Ok(()), 240),
        case(b"A CSECT\n", "S", NONE, 1000, no_end, 0),
        case(SOURCE, "T", NONE, 1000, no_file, 0),
        case(SOURCE, "S", 3, 1000, Err(Status::ReadFault), 0),
        case(SOURCE, "S", 4, 1000, Err(Status::WriteFault), 0),
        case(SOURCE, "S", NONE, 100, Err(Status::WriteFault), 100),
    ];
    for case in &cases {
        let left = assemble_on(alloc, case.name, case.source, case.failing, case.room)?;
        assert_eq!(rt; left.made, case.made);
        let made = left.shelf.text_of(FileNo(0));
        assert_eq!(rt; made.len(), case.length);
        assert!(rt; deck.starts_with(made));
    }
    Ok(())
}
