use crate::heads::{Head, head_of};
use crate::lines::line_of;
use crate::mnemonics::mnemonic_of;
use crate::slots::instruction;
use crate::sources::sources;
use crate::statements::operation_of;
use arrayvec::ArrayVec;
use asm_model::operands::{Given, Goes, Reference};
use asm_model::statements::{Line, Mnemonic, Operation, Source, Statement};

// `A`, `W` and `MAIN` in EBCDIC.
const A: u64 = 0xC140_4040_4040_4040;

const W: u64 = 0xE640_4040_4040_4040;

const MAIN: u64 = 0xD4C1_C9D5_4040_4040;

// The fields of a row that are registers.
fn registers(row: u16, r1: u64, r2: u64) -> Given {
    Given {
        row,
        r1,
        r2,
        b1: 0,
        d1: 0,
        b2: 0,
        d2: 0,
        imm: 0,
        len: 0,
        to: None,
    }
}

// The same with a first or a second address, with an immediate field, and with a name.
fn first(b1: u64, d1: u64, g: Given) -> Given {
    Given { b1, d1, ..g }
}

fn second(b2: u64, d2: u64, g: Given) -> Given {
    Given { b2, d2, ..g }
}

fn immediate(imm: u64, g: Given) -> Given {
    Given { imm, ..g }
}

fn named(goes: Goes, plus: u32, g: Given) -> Given {
    let to = Some(Reference {
        goes,
        name: W,
        plus,
    });
    Given { to, ..g }
}

fn long(len: u64, g: Given) -> Given {
    Given { len, ..g }
}

fn said(name: Option<u64>, operation: Operation) -> Line {
    Line::Said(Statement { name, operation })
}

fn bytes_of(from: &[u8; 2]) -> ArrayVec<u8, 56> {
    let mut bytes = ArrayVec::new();
    bytes.push(from[0]);
    bytes.push(from[1]);
    bytes
}

// Whether each line is broken.
fn are_broken(lines: &[&[u8]]) -> bool {
    lines.iter().all(|line| line_of(line) == Line::Broken)
}

#[test]
fn names_of_operations(rt: HostRuntime) {
    let some: [(&[u8], Mnemonic); 9] = [
        (b"CSECT", Mnemonic::Csect),
        (b"DC", Mnemonic::Dc),
        (b"DS", Mnemonic::Ds),
        (b"USING", Mnemonic::Using),
        (b"END", Mnemonic::End),
        (b"SPM", Mnemonic::Machine(0)),
        (b"LA", Mnemonic::Machine(27)),
        (b"L", Mnemonic::Machine(47)),
        (b"MSR", Mnemonic::Machine(133)),
    ];
    for (word, mnemonic) in some {
        assert_eq!(rt; mnemonic_of(word), Some(mnemonic));
    }
    let none: [&[u8]; 6] = [b"", b"la", b"LAX", b"CSECT12", b"STOSM78", b"MACRO"];
    for word in none {
        assert_eq!(rt; mnemonic_of(word), None);
    }
}

// Whether each line is an instruction with these fields.
fn are_given(lines: &[(&[u8], Given)]) -> bool {
    lines.iter().all(|(line, g)| line_of(line) == said(None, Operation::Instruction(*g)))
}

// Instructions whose fields are registers and an address.
#[test]
fn register_and_storage_forms(rt: HostRuntime) {
    let forms: [(&[u8], Given); 13] = [
        (b" SPM 3", registers(0, 3, 0)),
        (b" SVC 201", registers(4, 12, 9)),
        (b" AR 1,15", registers(20, 1, 15)),
        (b" IPM 15", registers(129, 15, 0)),
        (b" MSR 1,2", registers(133, 1, 2)),
        (b" LA 1,28(1)", second(1, 28, registers(27, 1, 0))),
        (b" L 1,X'FFF'(2,13)", second(13, 4095, registers(47, 1, 2))),
        (b" L 1,W+4", named(Goes::Second, 4, registers(47, 1, 0))),
        (b" LM 14,12,12(13)", second(13, 12, registers(79, 14, 12))),
        (b" SLDL 4,63(2)", second(2, 63, registers(68, 4, 0))),
        (
            b" MVI W,200",
            named(Goes::First, 0, immediate(200, registers(73, 0, 0))),
        ),
        (
            b" MVI 2049(1),200",
            first(1, 2049, immediate(200, registers(73, 0, 0))),
        ),
        (b" STCK 8", second(0, 8, registers(121, 0, 0))),
    ];
    assert!(rt; are_given(&forms));
}

// Halfwords, distances, and operands with their numbers of bytes; a remark is none of them.
#[test]
fn immediate_and_length_forms(rt: HostRuntime) {
    let mvc = first(1, 4, long(5, registers(91, 0, 0)));
    let longest = first(1, 0, long(255, registers(91, 0, 0)));
    let srp = first(1, 4, registers(102, 5, 5));
    let pack = first(1, 4, registers(104, 7, 14));
    let forms: [(&[u8], Given); 12] = [
        (b" TMH 1,65535", immediate(65535, registers(112, 1, 0))),
        (b" LHI 1,-1", immediate(65535, registers(117, 1, 0))),
        (b" LHI 1,-32768", immediate(32768, registers(117, 1, 0))),
        (b" LHI 1,-0", registers(117, 1, 0)),
        (b" BRC 15,W", named(Goes::Half, 0, registers(114, 15, 0))),
        (b" BRCT 2,-3", immediate(65533, registers(116, 2, 0))),
        (b" BRXLE 2,4,W+2", named(Goes::Half, 2, registers(60, 2, 4))),
        (b" MVC 4(6,1),W", named(Goes::Second, 0, mvc)),
        (b" MVC 0(256,1),8(2)", second(2, 8, longest)),
        (b" SRP 4(6,1),62,5", second(0, 62, srp)),
        (b" PACK 4(8,1),16(15,2)", second(2, 16, pack)),
        (b" BCR 0,0 ,and a remark", registers(3, 0, 0)),
    ];
    assert!(rt; are_given(&forms));
}

// A field that is outside its range leaves its line in form.
#[test]
fn fields_out_of_range(rt: HostRuntime) {
    let forms: [(&[u8], Given); 6] = [
        (b" AR 16,4294967296", registers(20, 16, 0x1_0000_0000)),
        (b" LHI 1,32768", immediate(65536, registers(117, 1, 0))),
        (b" LHI 1,-32769", immediate(65536, registers(117, 1, 0))),
        (b" MVI 0,256", immediate(65536, registers(73, 0, 0))),
        (
            b" MVC 0(0,1),0",
            first(1, 0, long(65536, registers(91, 0, 0))),
        ),
        (b" L 1,4096(0)", second(0, 4096, registers(47, 1, 0))),
    ];
    assert!(rt; are_given(&forms));
    assert_eq!(rt; instruction(20, b"1,2"), Some(registers(20, 1, 2)));
    assert_eq!(rt; instruction(20, b"1,2,3"), None);
}

// The operations of the assembler, each in each of its forms.
#[test]
fn operations(rt: HostRuntime) {
    assert!(rt; line_of(b"MAIN CSECT") == said(Some(MAIN), Operation::Section));
    assert!(rt; line_of(b" DC X'C8C9'") == said(None, Operation::Bytes(bytes_of(&[0xC8, 0xC9]))));
    assert!(rt; line_of(b"W DC F'1'") == said(Some(W), Operation::Word(1)));
    assert!(rt; line_of(b" DC F'-1'") == said(None, Operation::Word(0xFFFF_FFFF)));
    assert!(rt; line_of(b" DC F'-2147483648'") == said(None, Operation::Word(0x8000_0000)));
    assert!(rt; line_of(b" DC A(W)") == said(None, Operation::Address(W, 0)));
    assert!(rt; line_of(b" DC A(W+8)") == said(None, Operation::Address(W, 8)));
    assert!(rt; line_of(b" DC V(W)") == said(None, Operation::External(W)));
    assert!(rt; line_of(b" DS 65535") == said(None, Operation::Space(65535)));
    assert!(rt; line_of(b" DS 0F") == said(None, Operation::AlignWord));
    assert!(rt; line_of(b" DS 0D") == said(None, Operation::AlignDouble));
    assert!(rt; line_of(b" USING A,12") == said(None, Operation::Using(A, 12)));
    assert!(rt; line_of(b" END") == said(None, Operation::End(None)));
    assert!(rt; line_of(b" END MAIN") == said(None, Operation::End(Some(MAIN))));
    assert!(rt; operation_of(Mnemonic::Csect, None, b"").is_none());
}

#[test]
fn words_of_a_line(rt: HostRuntime) {
    let label: &[u8] = b"W";
    let operation: &[u8] = b"DC";
    let operands: &[u8] = b"F'1'";
    assert_eq!(rt;
        head_of(b"W  DC   F'1' X DS 4"),
        Some(Head {
            label,
            operation,
            operands
        })
    );
    assert_eq!(rt;
        head_of(b"W DC"),
        Some(Head {
            label,
            operation,
            operands: b""
        })
    );
    assert_eq!(rt; head_of(b"W  "), None);
}

// An operation that is none breaks no line, whatever its operands.
#[test]
fn unknown_operations(rt: HostRuntime) {
    let lines: [&[u8]; 4] = [b" la ,,", b"A MACRO", b" CSECTXX", b" + - *"];
    for line in lines {
        assert!(rt; line_of(line) == Line::Unknown);
    }
}

// Lines without a form: by their words and names, then by their operations.
#[test]
fn broken_lines(rt: HostRuntime) {
    assert!(rt;
        are_broken(&[
            b" ",
            b"A",
            b"1A DS 4",
            b"ABCDEFGHI DS 4",
            b"a DS 4",
            b" DS 4\r"
        ])
    );
    assert!(rt; are_broken(&[b" CSECT", b"A CSECT remark", b" END 1", b" END A,B"]));
    assert!(rt; are_broken(&[b" DC", b" DC X''", b" DC X'C'", b" DC X'cc'", b" DC C'A'"]));
    assert!(rt; are_broken(&[b" DC F'2147483648'", b" DC F'-2147483649'", b" DC F'W'"]));
    assert!(rt; are_broken(&[b" DC A(1)", b" DC A(W+)", b" DC V(W+1)", b" DC V(1)"]));
    assert!(rt; are_broken(&[b" DS", b" DS 0", b" DS 65536", b" DS 0H", b" DS -1"]));
    assert!(rt;
        are_broken(&[
            b" USING A",
            b" USING A,12,13",
            b" USING 1,12",
            b" USING A+0,12"
        ])
    );
    assert!(rt; are_broken(&[b" AR 1", b" AR 1,2,3", b" AR", b" AR 1,W", b" AR 1,-2"]));
    assert!(rt;
        are_broken(&[
            b" L 1,2(3,4,5)",
            b" MVI 1(2,3),4",
            b" MVC 1(2),3",
            b" LHI 1,W"
        ])
    );
}

// A line has at most 120 bytes, each of ASCII.
#[test]
fn plain_lines(rt: HostRuntime) {
    let mut line = [b' '; 121];
    line[1] = b'E';
    line[2] = b'N';
    line[3] = b'D';
    assert!(rt; line_of(&line) == Line::Broken);
    assert!(rt; line_of(line.split_at(120).0) == said(None, Operation::End(None)));
    line[119] = 0x80;
    assert!(rt; line_of(line.split_at(120).0) == Line::Broken);
}

// Whether the sources have these numbers and say so.
fn are_said(sources: &[Source], wanted: &[(u32, Line)]) -> bool {
    sources.len() == wanted.len()
        && sources.iter().zip(wanted).all(|(source, (number, line))| source.number == *number
            && source.line == *line)
}

// Empty lines and comments are passed over, and keep their numbers.
#[test]
fn lines_of_a_source(rt: HostRuntime) {
    let text = b"* A program\n\nA CSECT\n L 1,W\n*\xC4\nW DC F'1'\n END";
    let load = named(Goes::Second, 0, registers(47, 1, 0));
    match sources(rt.alloc(), text) {
        Ok(sources) => {
            let wanted = [
                (3, said(Some(A), Operation::Section)),
                (4, said(None, Operation::Instruction(load))),
                (5, Line::Broken),
                (6, said(Some(W), Operation::Word(1))),
                (7, said(None, Operation::End(None))),
            ];
            assert!(rt; are_said(&sources, &wanted));
        }
        Err(_) => assert!(rt; false),
    }
}

// A program that adds, and two characters.
#[test]
fn lines_of_a_program(rt: HostRuntime) {
    let text = b"MAIN CSECT\n LA 1,2048\n AR 1,1\n LA 1,28(1)\n DIAG 1,2,256\n DC X'C8C9'\n END\n";
    let load = second(0, 2048, registers(27, 1, 0));
    let add = registers(20, 1, 1);
    let more = second(1, 28, registers(27, 1, 0));
    let diagnose = second(0, 256, registers(58, 1, 2));
    match sources(rt.alloc(), text) {
        Ok(sources) => {
            let wanted = [
                (1, said(Some(MAIN), Operation::Section)),
                (2, said(None, Operation::Instruction(load))),
                (3, said(None, Operation::Instruction(add))),
                (4, said(None, Operation::Instruction(more))),
                (5, said(None, Operation::Instruction(diagnose))),
                (6, said(None, Operation::Bytes(bytes_of(&[0xC8, 0xC9])))),
                (7, said(None, Operation::End(None))),
            ];
            assert!(rt; are_said(&sources, &wanted));
        }
        Err(_) => assert!(rt; false),
    }
}
