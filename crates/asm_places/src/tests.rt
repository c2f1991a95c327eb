//! Refusals and places of statements that are written by hand.

use crate::places::Places;
use crate::refusals::accepted;
use asm_model::operands::{Given, Goes, Reference};
use asm_model::program::Defined;
use asm_model::refusal::AsmRefusal;
use asm_model::statements::{Line, Operation, Source, Statement};
use std::alloc::Global;
use std::test::Fail;

const A: u64 = 0xC140_4040_4040_4040;

const B: u64 = 0xC240_4040_4040_4040;

const C: u64 = 0xC340_4040_4040_4040;

// Rows of the opcode table: BCR, LA, BRC and MVC have 2, 4, 4 and 6 bytes.
const BCR: u16 = 3;

const LA: u16 = 27;

const BRC: u16 = 114;

const MVC: u16 = 91;

fn named(number: u32, name: Option<u64>, operation: Operation) -> Source {
    Source {
        number,
        line: Line::Said(Statement { name, operation }),
    }
}

fn said(number: u32, operation: Operation) -> Source {
    named(number, None, operation)
}

fn section(number: u32, name: u64) -> Source {
    named(number, Some(name), Operation::Section)
}

fn end(number: u32) -> Source {
    said(number, Operation::End(None))
}

fn broken(number: u32) -> Source {
    Source {
        number,
        line: Line::Broken,
    }
}

fn unknown(number: u32) -> Source {
    Source {
        number,
        line: Line::Unknown,
    }
}

// An instruction with this displacement, and without a name.
fn instruction(row: u16, displacement: u64) -> Given {
    Given {
        row,
        r1: 1,
        r2: 0,
        b1: 0,
        d1: 0,
        b2: 0,
        d2: displacement,
        imm: 0,
        len: 0,
        to: None,
    }
}

fn plain(row: u16, displacement: u64) -> Operation {
    Operation::Instruction(instruction(row, displacement))
}

fn to_name(row: u16, goes: Goes, name: u64, plus: u32) -> Operation {
    Operation::Instruction(Given {
        to: Some(Reference { goes, name, plus }),
        ..instruction(row, 0)
    })
}

fn refusal(alloc: Global, sources: &[Source]) -> Option<AsmRefusal> {
    match accepted(alloc, sources) {
        Ok(_) => None,
        Err(refusal) => Some(refusal),
    }
}

// Each refusal, and before the next one in one source.
#[test]
fn forms(rt: HostRuntime) {
    let alloc = rt.alloc();
    assert_eq!(rt; refusal(alloc, &[]), Some(AsmRefusal::NoEndStatement));
    let behind_end = [section(1, A), end(2), said(4, Operation::Space(1))];
    assert_eq!(rt; refusal(alloc, &behind_end), Some(AsmRefusal::BadLine(4)));
    let bad_and_unknown = [unknown(1), broken(2), end(3)];
    assert_eq!(rt;
        refusal(alloc, &bad_and_unknown),
        Some(AsmRefusal::BadLine(2))
    );
    let unknown_and_outside = [said(1, Operation::Space(1)), unknown(2), end(3)];
    assert_eq!(rt;
        refusal(alloc, &unknown_and_outside),
        Some(AsmRefusal::UnknownOp(2))
    );
    let outside_and_unended = [said(3, Operation::AlignWord), section(5, A)];
    assert_eq!(rt;
        refusal(alloc, &outside_and_unended),
        Some(AsmRefusal::NoSection(3))
    );
    let unended = [section(1, A), section(2, A)];
    assert_eq!(rt; refusal(alloc, &unended), Some(AsmRefusal::NoEndStatement));
}

// Nineteen times 65,535 bytes pass a section.
#[test]
fn too_big(rt: HostRuntime) -> Result<(), Fail> {
    let mut sources = vec![in rt.alloc(); section(1, A), section(2, A)]?;
    for number in 3..=21 {
        sources.push(said(number, Operation::Space(65_535)))?;
    }
    sources.push(end(22))?;
    assert_eq!(rt; refusal(rt.alloc(), &sources), Some(AsmRefusal::TooBig(19)));
    Ok(())
}

#[test]
fn names(rt: HostRuntime) {
    let alloc = rt.alloc();
    let doubled_and_undefined = [
        section(1, A),
        said(2, Operation::Address(C, 0)),
        named(3, Some(A), Operation::Word(1)),
        end(4),
    ];
    assert_eq!(rt;
        refusal(alloc, &doubled_and_undefined),
        Some(AsmRefusal::Doubled(3))
    );
    let undefined_and_baseless = [
        section(1, A),
        said(2, to_name(LA, Goes::Second, A, 0)),
        said(3, Operation::End(Some(B))),
    ];
    assert_eq!(rt;
        refusal(alloc, &undefined_and_baseless),
        Some(AsmRefusal::Undefined(3))
    );
    let baseless_and_out = [
        section(1, A),
        said(2, plain(LA, 4096)),
        said(3, to_name(LA, Goes::Second, A, 0)),
        end(4),
    ];
    assert_eq!(rt;
        refusal(alloc, &baseless_and_out),
        Some(AsmRefusal::NoBase(3))
    );
    let base_elsewhere = [
        section(1, A),
        said(2, Operation::Using(A, 12)),
        section(3, B),
        said(4, to_name(LA, Goes::Second, B, 0)),
        end(5),
    ];
    assert_eq!(rt;
        refusal(alloc, &base_elsewhere),
        Some(AsmRefusal::NoBase(4))
    );
}

// A displacement of 4,095, and what is outside its range.
#[test]
fn ranges(rt: HostRuntime) {
    let alloc = rt.alloc();
    let most = [section(1, A), said(2, plain(LA, 4095)), end(3)];
    assert_eq!(rt; refusal(alloc, &most), None);
    let displacement = [section(1, A), said(2, plain(LA, 4096)), end(3)];
    assert_eq!(rt;
        refusal(alloc, &displacement),
        Some(AsmRefusal::OutOfRange(2))
    );
    let register = [section(1, A), said(2, Operation::Using(A, 16)), end(3)];
    assert_eq!(rt; refusal(alloc, &register), Some(AsmRefusal::OutOfRange(2)));
    let distance = [
        section(1, A),
        said(2, Operation::Using(A, 12)),
        said(3, to_name(LA, Goes::Second, A, 4095)),
        said(4, to_name(LA, Goes::Second, A, 4096)),
        end(5),
    ];
    assert_eq!(rt; refusal(alloc, &distance), Some(AsmRefusal::OutOfRange(4)));
    let odd = [
        section(1, A),
        said(2, to_name(BRC, Goes::Half, A, 1)),
        end(3),
    ];
    assert_eq!(rt; refusal(alloc, &odd), Some(AsmRefusal::OutOfRange(2)));
}

// Where a name lies.
fn place(places: &Places, name: u64) -> (u32, u64) {
    let Defined {
        name: _,
        section,
        offset,
    } = places.names().place_of(name);
    (section, offset)
}

// Offsets are raised to multiples of 2, 4 and 8; a section begins at 0.
#[test]
fn places(rt: HostRuntime) -> Result<(), Fail> {
    let sources = [
        section(1, A),
        said(2, Operation::Space(1)),
        named(3, Some(0x81), plain(BCR, 0)),
        said(4, Operation::Space(3)),
        named(5, Some(0x82), plain(MVC, 0)),
        said(6, Operation::Space(1)),
        named(7, Some(0x83), Operation::Word(1)),
        said(8, Operation::Space(1)),
        named(9, Some(0x84), Operation::AlignWord),
        named(10, Some(0x85), Operation::External(C)),
        said(11, Operation::Space(1)),
        named(12, Some(0x86), Operation::AlignDouble),
        named(13, Some(0x87), Operation::Using(A, 12)),
        section(14, B),
        named(15, Some(0x88), Operation::Address(B, 0)),
        said(16, Operation::External(C)),
        named(17, Some(0x89), Operation::End(Some(B))),
    ];
    let Ok(places) = accepted(rt.alloc(), &sources) else {
        return Err("refused".into());
    };
    let wanted = [
        (0x81, (1, 2)),
        (0x82, (1, 8)),
        (0x83, (1, 16)),
        (0x84, (1, 24)),
        (0x85, (1, 24)),
        (0x86, (1, 32)),
        (0x87, (1, 32)),
        (0x88, (2, 0)),
        (0x89, (2, 8)),
        (0x90, (0, 0)),
    ];
    for (name, at) in wanted {
        assert_eq!(rt; place(&places, name), at);
    }
    assert_eq!(rt; places.section(), 2);
    assert_eq!(rt; places.externals().count(), 1);
    assert_eq!(rt; places.externals().place_in(C), 0);
    Ok(())
}
