use crate::{Decoded, Kind, decode, encode, kind, row};
use esa_model::kinds::{BranchKind, ByteKind, ControlKind, DecimalKind, StoreKind, WordKind};

const NO_FIELDS: Decoded = Decoded {
    row: 0,
    r1: 0,
    r2: 0,
    b1: 0,
    d1: 0,
    b2: 0,
    d2: 0,
    imm: 0,
    len: 0,
};

/// The six bytes, the instruction's length, its name, and its fields without the number of the row.
type Case = ([u8; 6], usize, [u8; 6], Decoded);

/// One instruction of each form, at the ends of the table among others.
const CASES: [Case; 17] = [
    (
        [0x04, 0x30, 0, 0, 0, 0],
        2,
        *b"SPM   ",
        Decoded { r1: 3, ..NO_FIELDS },
    ),
    (
        [0x1A, 0x12, 0, 0, 0, 0],
        2,
        *b"AR    ",
        Decoded {
            r1: 1,
            r2: 2,
            ..NO_FIELDS
        },
    ),
    (
        [0x0A, 0xC9, 0, 0, 0, 0],
        2,
        *b"SVC   ",
        Decoded {
            r1: 12,
            r2: 9,
            ..NO_FIELDS
        },
    ),
    (
        [0x5A, 0x12, 0x3F, 0xFF, 0, 0],
        4,
        *b"A     ",
        Decoded {
            r1: 1,
            r2: 2,
            b2: 3,
            d2: 0xFFF,
            ..NO_FIELDS
        },
    ),
    (
        [0x83, 0x12, 0x01, 0x00, 0, 0],
        4,
        *b"DIAG  ",
        Decoded {
            r1: 1,
            r2: 2,
            d2: 0x100,
            ..NO_FIELDS
        },
    ),
    (
        [0x92, 0xC8, 0x18, 0x01, 0, 0],
        4,
        *b"MVI   ",
        Decoded {
            b1: 1,
            d1: 0x801,
            imm: 0xC8,
            ..NO_FIELDS
        },
    ),
    (
        [0x93, 0x00, 0x18, 0x01, 0, 0],
        4,
        *b"TS    ",
        Decoded {
            b2: 1,
            d2: 0x801,
            ..NO_FIELDS
        },
    ),
    (
        [0xB2, 0x05, 0x18, 0x01, 0, 0],
        4,
        *b"STCK  ",
        Decoded {
            b2: 1,
            d2: 0x801,
            ..NO_FIELDS
        },
    ),
    (
        [0xB2, 0x10, 0xF0, 0x04, 0, 0],
        4,
        *b"SPX   ",
        Decoded {
            b2: 15,
            d2: 4,
            ..NO_FIELDS
        },
    ),
    (
        [0xA7, 0x15, 0xFF, 0xFE, 0, 0],
        4,
        *b"BRAS  ",
        Decoded {
            r1: 1,
            imm: 0xFFFE,
            ..NO_FIELDS
        },
    ),
    (
        [0xA7, 0x10, 0x80, 0x01, 0, 0],
        4,
        *b"TMH   ",
        Decoded {
            r1: 1,
            imm: 0x8001,
            ..NO_FIELDS
        },
    ),
    (
        [0x85, 0x13, 0x00, 0x10, 0, 0],
        4,
        *b"BRXLE ",
        Decoded {
            r1: 1,
            r2: 3,
            imm: 16,
            ..NO_FIELDS
        },
    ),
    (
        [0xB2, 0x52, 0x00, 0x34, 0, 0],
        4,
        *b"MSR   ",
        Decoded {
            r1: 3,
            r2: 4,
            ..NO_FIELDS
        },
    ),
    (
        [0xB2, 0x22, 0x00, 0x10, 0, 0],
        4,
        *b"IPM   ",
        Decoded { r1: 1, ..NO_FIELDS },
    ),
    (
        [0xD2, 0xFF, 0x10, 0x00, 0x2F, 0xFF],
        6,
        *b"MVC   ",
        Decoded {
            len: 0xFF,
            b1: 1,
            b2: 2,
            d2: 0xFFF,
            ..NO_FIELDS
        },
    ),
    (
        [0xF0, 0x25, 0x10, 0x00, 0x00, 0x3F],
        6,
        *b"SRP   ",
        Decoded {
            r1: 2,
            r2: 5,
            b1: 1,
            d2: 0x3F,
            ..NO_FIELDS
        },
    ),
    (
        [0xFD, 0xF7, 0x12, 0x34, 0x56, 0x78],
        6,
        *b"DP    ",
        Decoded {
            r1: 15,
            r2: 7,
            b1: 1,
            d1: 0x234,
            b2: 5,
            d2: 0x678,
            ..NO_FIELDS
        },
    ),
];

fn begins_with(bytes: &[u8; 6], front: &[u8]) -> bool {
    bytes.starts_with(front)
}

#[test]
fn one_of_each_form(rt: HostRuntime) {
    for (bytes, length, name, want) in CASES {
        let found = decode(&bytes);
        assert!(rt; found.is_some(), "no row for {}", bytes[0]);
        if let Some(d) = found {
            assert_eq!(rt; d, Decoded { row: d.row, ..want });
            assert!(rt;
                row(d.row).is_some_and(|r| r.name == name),
                "another name for {}",
                bytes[0]
            );
            let encoded = encode(&d);
            assert_eq!(rt; encoded.len(), length);
            assert!(rt;
                begins_with(&bytes, encoded.as_slice()),
                "other bytes for {}",
                bytes[0]
            );
        }
    }
}

/// Bytes whose opcode no row has: X'B21B', X'A7F', X'00', X'FF'.
#[test]
fn no_row(rt: HostRuntime) {
    for bytes in [
        [0xB2, 0x1B, 0, 0, 0, 0],
        [0xA7, 0x1F, 0, 0, 0, 0],
        [0; 6],
        [0xFF; 6],
    ] {
        assert!(rt; decode(&bytes).is_none());
    }
    assert!(rt; row(134).is_none() && kind(134).is_none());
}

/// The first two bytes of an instruction, and how it is carried out.
const KINDS: [(u8, u8, Kind); 6] = [
    // AR
    (0x1A, 0x12, Kind::Words(WordKind::Registers)),
    // BC
    (0x47, 0xF0, Kind::Branches(BranchKind::ByIndex)),
    // TM
    (0x91, 0x80, Kind::Stores(StoreKind::TestUnderMask)),
    // MVCL
    (0x0E, 0x24, Kind::Bytes(ByteKind::MoveLong)),
    // CP
    (0xF9, 0x33, Kind::Decimals(DecimalKind::Compared)),
    // SPT
    (0xB2, 0x08, Kind::Controls(ControlKind::SetsClock)),
];

#[test]
fn one_of_each_class(rt: HostRuntime) {
    for (first, second, want) in KINDS {
        let found = decode(&[first, second, 0, 0, 0, 0]).and_then(|d| kind(d.row));
        assert_eq!(rt; found, Some(want), "another kind for {first}");
    }
}
