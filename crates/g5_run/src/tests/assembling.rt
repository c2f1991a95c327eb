// Sources, assembled.
use super::{DECK, Given, Left, TRACE, WORDS, run};
use crate::{Input, Status};
use g5_outside::FileNo;
use program_model::refusals::AsmRefusal;
use std::alloc::Global;
use std::test::Fail;

const ASM: &[&str] = &["asm", "D", "N"];

pub const SOURCE: &[u8] = b"\
MAIN CSECT
 LA 1,2048
 AR 1,1
 AR 1,1
 AR 1,1
 AR 1,1
 AR 1,1
 LA 1,28(1)
 LA 2,2
 DIAG 1,2,256
 BCR 0,0
 DC X'C8C9'
 END
";

// Words over these bytes as the file D; where they are a deck that runs, ten turns.
fn run_over(alloc: Global, words: &[&str], bytes: &[u8]) -> Result<Left, Fail> {
    let given = Given {
        deck: bytes,
        console: b"",
        schedule: b"0*10",
        script: b"",
        failing: &[],
    };
    run(alloc, words, &given, 400)
}

// 'First path', from its source: three cards, numbered in columns 73-80, which run as the deck
// does.
#[test]
fn a_source_that_runs(rt: HostRuntime) -> Result<(), Fail> {
    let alloc = rt.alloc();
    let made = run_over(alloc, ASM, SOURCE)?;
    assert_eq!(rt; made.status, Status::Done);
    let mut cards = DECK;
    for (card, digit) in cards.chunks_exact_mut(80).zip(0xF1..0xF4u8) {
        card[72..].copy_from_slice(&[0xF0, 0xF0, 0xF0, 0xF0, 0xF0, 0xF0, 0xF0, digit]);
    }
    let deck = made.shelf.text_of(FileNo(0));
    assert_eq!(rt; deck, cards.as_slice());
    assert_eq!(rt; made.shelf.given(), 1);
    assert_eq!(rt; made.out.taken(), b"".as_slice());
    assert_eq!(rt; made.err.taken(), b"".as_slice());
    let left = run_over(alloc, WORDS, deck)?;
    assert_eq!(rt; left.status, Status::Done);
    assert_eq!(rt; left.shelf.text_of(FileNo(1)), TRACE);
    assert_eq!(rt; left.out.taken(), [0xC8, 0xC9].as_slice());
    Ok(())
}

// 'A name without a base', and each other refusal; the source is file D.
#[test]
fn sources_refused(rt: HostRuntime) -> Result<(), Fail> {
    let cases: [(&[u8], AsmRefusal, &[u8]); 9] = [
        (b" END\nA CSECT\n", AsmRefusal::BadLine(2), b"BadLine 2\n"),
        (
            b"A CSECT\n ar 1,1\n END\n",
            AsmRefusal::UnknownOp(2),
            b"UnknownOp 2\n",
        ),
        (
            b"\n DS 1\n END\n",
            AsmRefusal::NoSection(2),
            b"NoSection 2\n",
        ),
        (
            b"A CSECT\n",
            AsmRefusal::NoEndStatement,
            b"NoEndStatement\n",
        ),
        (
            b"A CSECT\n DS 65535\n DS 65535\n DS 65535\n DS 65535\n DS 65535\n DS 65535\n DS \
65535\n DS 65535\n DS 65535\n DS 65535\n DS 65535\n DS 65535\n DS 65535\n DS 65535\n DS 65535\n DS \
65535\n DS 65535\n END\n",
            AsmRefusal::TooBig(18),
            b"TooBig 18\n",
        ),
        (
            b"A CSECT\nA DS 1\n END\n",
            AsmRefusal::Doubled(2),
            b"Doubled 2\n",
        ),
        (
            b"A CSECT\n END B\n",
            AsmRefusal::Undefined(2),
            b"Undefined 2\n",
        ),
        (
            b"A CSECT\n L 1,W\nW DC F'1'\n END\n",
            AsmRefusal::NoBase(2),
            b"NoBase 2\n",
        ),
        (
            b"A CSECT\n LA 1,4096\n END\n",
            AsmRefusal::OutOfRange(2),
            b"OutOfRange 2\n",
        ),
    ];
    for (source, refusal, line) in cases {
        let left = run_over(rt.alloc(), ASM, source)?;
        assert_eq!(rt; left.status, Status::SourceRefused(refusal));
        assert_eq!(rt; left.status.number(), 13);
        assert_eq!(rt;
            left.err.taken().strip_prefix(b"source refused: "),
            Some(line)
        );
        assert_eq!(rt; left.shelf.given(), 0);
        assert_eq!(rt; left.out.taken(), b"".as_slice());
    }
    Ok(())
}

#[test]
fn sources_not_read(rt: HostRuntime) -> Result<(), Fail> {
    let alloc = rt.alloc();
    let large = vec![in alloc; 32; 1_048_577]?;
    let cases: [(&[&str], &[u8], Status, &[u8]); 3] = [
        (
            ASM,
            &large,
            Status::TooLarge(Input::Program),
            b"too large: D\n",
        ),
        (
            &["asm", "X", "N"],
            SOURCE,
            Status::NoFile(Input::Program),
            b"no file: X\n",
        ),
        (&["asm", "D", "D"], SOURCE, Status::Usage, b"usage\n"),
    ];
    for (words, source, status, line) in cases {
        let left = run_over(alloc, words, source)?;
        assert_eq!(rt; left.status, status);
        assert_eq!(rt; left.err.taken(), line);
        assert_eq!(rt; left.shelf.given(), 0);
    }
    Ok(())
}
