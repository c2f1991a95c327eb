//! Sources whose decks, texts and refusals are worked by hand.
ghost use Rattle.std.specs.Prelude.{◌<◌, ◌^◌, length};

use crate::assemble;
use program_model::refusals::AsmRefusal;
use std::alloc::Global;

// Whether a deck has these bytes from a place on.
fn has(deck: &[u8], at: usize, bytes: &[u8]) -> bool {
    deck.iter().skip(at).take(bytes.len()).eq(bytes.iter())
}

// Whether a source of one section has one card of text, with these bytes.
pub(super) fn has_text(alloc: Global, source: &[u8], text: &[u8]) -> bool
    requires { length source.now < 2 ^ 32 }
{
    match assemble(alloc, source) {
        Ok(deck) => {
            deck.len() == 240
                && has(&deck, 90, &[0, (text.len() % 256) as u8])
                && has(&deck, 96, text)
        }
        Err(_) => false,
    }
}

fn refusal(alloc: Global, source: &[u8]) -> Option<AsmRefusal>
    requires { length source.now < 2 ^ 32 }
{
    match assemble(alloc, source) {
        Ok(_) => None,
        Err(refusal) => Some(refusal),
    }
}

// A program that adds, and two characters: its three cards, byte by byte.
#[test]
fn three_cards(rt: HostRuntime) {
    let source = b"MAIN CSECT\n LA 1,2048\n AR 1,1\n AR 1,1\n AR 1,1\n AR 1,1\n AR 1,1\n LA \
1,28(1)\n LA 2,2\n DIAG 1,2,256\n BCR 0,0\n DC X'C8C9'\n END\n";
    let mut cards = [0x40; 240];
    cards[0..4].copy_from_slice(&[0x02, 0xC5, 0xE2, 0xC4]);
    cards[10..12].copy_from_slice(&[0, 16]);
    cards[14..24].copy_from_slice(&[0, 1, 0xD4, 0xC1, 0xC9, 0xD5, 0x40, 0x40, 0x40, 0x40]);
    cards[24..32].copy_from_slice(&[0, 0, 0, 0, 0x40, 0, 0, 30]);
    cards[72..80].copy_from_slice(&[0xF0, 0xF0, 0xF0, 0xF0, 0xF0, 0xF0, 0xF0, 0xF1]);
    cards[80..88].copy_from_slice(&[0x02, 0xE3, 0xE7, 0xE3, 0x40, 0, 0, 0]);
    cards[90..96].copy_from_slice(&[0, 30, 0x40, 0x40, 0, 1]);
    cards[96..110].copy_from_slice(&[
        0x41, 0x10, 0x08, 0x00, 0x1A, 0x11, 0x1A, 0x11, 0x1A, 0x11, 0x1A, 0x11, 0x1A, 0x11,
    ]);
    cards[110..126].copy_from_slice(&[
        0x41, 0x10, 0x10, 0x1C, 0x41, 0x20, 0x00, 0x02, 0x83, 0x12, 0x01, 0x00, 0x07, 0x00, 0xC8,
        0xC9,
    ]);
    cards[152..160].copy_from_slice(&[0xF0, 0xF0, 0xF0, 0xF0, 0xF0, 0xF0, 0xF0, 0xF2]);
    cards[160..164].copy_from_slice(&[0x02, 0xC5, 0xD5, 0xC4]);
    cards[232..240].copy_from_slice(&[0xF0, 0xF0, 0xF0, 0xF0, 0xF0, 0xF0, 0xF0, 0xF3]);
    match assemble(rt.alloc(), source) {
        Ok(deck) => assert!(rt; deck.iter().eq(cards.iter())),
        Err(_) => assert!(rt; false),
    }
}

// Words, branches and stores, in each form of their operands.
#[test]
fn words_branches_and_stores(rt: HostRuntime) {
    let alloc = rt.alloc();
    let words = b"A CSECT\n AR 1,2\n LA 1,28(2,3)\n SLA 5,3(4)\n LHI 3,-2\n TMH \
3,65535\n MSR 3,4\n END\n";
    let text = [
        0x1A, 0x12, 0x41, 0x12, 0x30, 0x1C, 0x8B, 0x50, 0x40, 0x03, 0xA7, 0x38, 0xFF, 0xFE, 0xA7,
        0x30, 0xFF, 0xFF, 0xB2, 0x52, 0x00, 0x34,
    ];
    assert!(rt; has_text(alloc, words, &text));
    let branches = b"A CSECT\n BCR 15,14\n SPM 6\n SVC 255\n IPM 7\n BC 8,X'10'(2)\n BRC \
15,-1\n BRXH 1,2,A\n END\n";
    let text = [
        0x07, 0xFE, 0x04, 0x60, 0x0A, 0xFF, 0xB2, 0x22, 0x00, 0x70, 0x47, 0x80, 0x20, 0x10, 0xA7,
        0xF4, 0xFF, 0xFF, 0x84, 0x12, 0xFF, 0xF7,
    ];
    assert!(rt; has_text(alloc, branches, &text));
    let stores = b"A CSECT\n ST 1,4095\n STM 14,12,12(13)\n MVI 0(5),X'C8'\n TS 8(1)\n END\n";
    let text = [
        0x50, 0x10, 0x0F, 0xFF, 0x90, 0xEC, 0xD0, 0x0C, 0x92, 0xC8, 0x50, 0x00, 0x93, 0x00, 0x10,
        0x08,
    ];
    assert!(rt; has_text(alloc, stores, &text));
}

// Bytes, decimals and control, in each form of their operands.
#[test]
fn bytes_decimals_and_control(rt: HostRuntime) {
    let alloc = rt.alloc();
    let bytes = b"A CSECT\n MVC 2(256,1),3(2)\n CLC 0(1,3),4095\n END\n";
    let text = [
        0xD2, 0xFF, 0x10, 0x02, 0x20, 0x03, 0xD5, 0x00, 0x30, 0x00, 0x0F, 0xFF,
    ];
    assert!(rt; has_text(alloc, bytes, &text));
    let decimals = b"A CSECT\n AP 1(16,2),3(1,4)\n SRP 0(4,1),63,5\n CVD 1,8(9)\n END\n";
    let text = [
        0xFA, 0xF0, 0x20, 0x01, 0x40, 0x03, 0xF0, 0x35, 0x10, 0x00, 0x00, 0x3F, 0x4E, 0x10, 0x90,
        0x08,
    ];
    assert!(rt; has_text(alloc, decimals, &text));
    let control = b"A CSECT\n STCK 8(1)\n SIGP 1,2,3(4)\n LPSW 0\n STNSM 0(1),X'FB'\n SSKE \
1,2\n END\n";
    let text = [
        0xB2, 0x05, 0x10, 0x08, 0xAE, 0x12, 0x40, 0x03, 0x82, 0x00, 0x00, 0x00, 0xAC, 0xFB, 0x10,
        0x00, 0xB2, 0x2B, 0x00, 0x12,
    ];
    assert!(rt; has_text(alloc, control, &text));
}

// Names as addresses, distances and constants; bytes without a statement are zero.
#[test]
fn names_in_operands(rt: HostRuntime) {
    let alloc = rt.alloc();
    let names = b"A CSECT\n USING A,12\n L 1,W\n BRC 8,A\n MVI W+1,1\n DC X'FF'\nW DC \
F'-2'\n DC A(W+2)\n DS 3\n DS 0D\n DC X'0102'\n END\n";
    let text = [
        0x58, 0x10, 0xC0, 0x10, 0xA7, 0x84, 0xFF, 0xFE, 0x92, 0x01, 0xC0, 0x11, 0xFF, 0x00, 0x00,
        0x00, 0xFF, 0xFF, 0xFF, 0xFE, 0x00, 0x00, 0x00, 0x12, 0x00, 0x00, 0x00, 0x00, 0x00, 0x00,
        0x00, 0x00, 0x01, 0x02,
    ];
    match assemble(alloc, names) {
        Ok(deck) => {
            assert_eq!(rt; deck.len(), 320);
            assert!(rt; has(&deck, 90, &[0, 34]));
            assert!(rt; has(&deck, 96, &text));
            assert!(rt; has(&deck, 176, &[0, 1, 0, 1, 0x0C, 0, 0, 20]));
        }
        Err(_) => assert!(rt; false),
    }
}

// Two sections, an external name and an entry.
#[test]
fn two_sections(rt: HostRuntime) {
    let source = b"A CSECT\n DC V(B)\n DC A(A)\nB CSECT\n DS 57\nE BCR 15,14\n END E\n";
    match assemble(rt.alloc(), source) {
        Ok(deck) => {
            assert_eq!(rt; deck.len(), 720);
            assert!(rt; has(&deck, 94, &[0, 2, 0xC2, 0x40]));
            assert!(rt; has(&deck, 104, &[0, 0, 0, 0, 0x40, 0, 0, 60]));
            assert!(rt; has(&deck, 174, &[0, 3, 0xC2, 0x40]));
            assert!(rt; has(&deck, 184, &[2, 0, 0, 0, 0x40, 0, 0, 0]));
            assert!(rt; has(&deck, 405, &[0, 0, 56, 0x40, 0x40, 0, 4, 0x40, 0x40, 0, 2]));
            assert!(rt; has(&deck, 416, &[0, 0, 0x07, 0xFE, 0x40]));
            assert!(rt; has(&deck, 496, &[0, 3, 0, 1, 0x1C, 0, 0, 0]));
            assert!(rt; has(&deck, 576, &[0, 1, 0, 1, 0x0C, 0, 0, 4]));
            assert!(rt; has(&deck, 640, &[2, 0xC5, 0xD5, 0xC4, 0x40, 0, 0, 58]));
            assert!(rt; has(&deck, 654, &[0, 2]));
        }
        Err(_) => assert!(rt; false),
    }
}

// Refusals of lines and of their order, each before the next one in one source.
#[test]
fn refusals_of_lines(rt: HostRuntime) {
    let alloc = rt.alloc();
    assert_eq!(rt; refusal(alloc, b""), Some(AsmRefusal::NoEndStatement));
    assert_eq!(rt;
        refusal(alloc, b" END\nA CSECT\n"),
        Some(AsmRefusal::BadLine(2))
    );
    assert_eq!(rt;
        refusal(alloc, b"*\n XYZ 1\nA CSECT x\n END\n"),
        Some(AsmRefusal::BadLine(3))
    );
    assert_eq!(rt;
        refusal(alloc, b" DS 1\nA CSECT\n ar 1,1\n END\n"),
        Some(AsmRefusal::UnknownOp(3))
    );
    assert_eq!(rt;
        refusal(alloc, b"\n DS 1\nA CSECT\n"),
        Some(AsmRefusal::NoSection(2))
    );
    assert_eq!(rt;
        refusal(alloc, b"A CSECT\nA CSECT\n"),
        Some(AsmRefusal::NoEndStatement)
    );
}

// Refusals of names and ranges, each before the next one in one source.
#[test]
fn refusals_of_names(rt: HostRuntime) {
    let alloc = rt.alloc();
    let doubled = b"A CSECT\n DC A(C)\nA DS 1\n END\n";
    assert_eq!(rt; refusal(alloc, doubled), Some(AsmRefusal::Doubled(3)));
    let undefined = b"A CSECT\n LA 1,A\n END B\n";
    assert_eq!(rt; refusal(alloc, undefined), Some(AsmRefusal::Undefined(3)));
    let baseless = b"A CSECT\n LA 16,1\n LA 1,A\n END\n";
    assert_eq!(rt; refusal(alloc, baseless), Some(AsmRefusal::NoBase(3)));
    // an address that is a name, and no USING
    let unused = b"A CSECT\n L 1,W\nW DC F'1'\n END\n";
    assert_eq!(rt; refusal(alloc, unused), Some(AsmRefusal::NoBase(2)));
    let outside = b"A CSECT\n LA 1,4096\n END\n";
    assert_eq!(rt; refusal(alloc, outside), Some(AsmRefusal::OutOfRange(2)));
}

// Seventeen times 65,535 bytes pass a section, before a name that is doubled.
#[test]
fn too_big(rt: HostRuntime) {
    let source = b"A CSECT\nA DS 65535\n DS 65535\n DS 65535\n DS 65535\n DS 65535\n DS \
65535\n DS 65535\n DS 65535\n DS 65535\n DS 65535\n DS 65535\n DS 65535\n DS 65535\n DS \
65535\n DS 65535\n DS 65535\n DS 65535\n END\n";
    assert_eq!(rt; refusal(rt.alloc(), source), Some(AsmRefusal::TooBig(18)));
}
