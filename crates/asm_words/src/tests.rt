use crate::cuts::{Parts, Rest, cut_at, next_piece, parted};
use crate::names::name_of;
use crate::numbers::{has_hex_bytes, hex_value, is_enclosed, number_of, quoted};
use crate::operands::{operand_of, signed, simple_operand};
use asm_model::operands::Operand;

// `A1`, `MAIN0SZ9` and `AIJRSZ09` in EBCDIC.
#[test]
fn names(rt: HostRuntime) {
    assert_eq!(rt; name_of(b"A1"), Some(0xC1F1_4040_4040_4040));
    assert_eq!(rt; name_of(b"MAIN0SZ9"), Some(0xD4C1_C9D5_F0E2_E9F9));
    assert_eq!(rt; name_of(b"AIJRSZ09"), Some(0xC1C9_D1D9_E2E9_F0F9));
    let none: [&[u8]; 5] = [b"", b"1A", b"a", b"ABCDEFGHI", b"A B"];
    for text in none {
        assert_eq!(rt; name_of(text), None);
    }
}

#[test]
fn numbers(rt: HostRuntime) {
    let some: [(&[u8], u64); 7] = [
        (b"0", 0),
        (b"4294967295", 0xFFFF_FFFF),
        (b"4294967296", 0x1_0000_0000),
        (b"99999999999999999999999999", 0x1_0000_0000),
        (b"X'0'", 0),
        (b"X'89ABCDEF'", 0x89AB_CDEF),
        (b"X'FFFFFFFF'", 0xFFFF_FFFF),
    ];
    for (text, n) in some {
        assert_eq!(rt; number_of(text), Some(n));
    }
    let none: [&[u8]; 8] = [
        b"",
        b"01",
        b"-1",
        b"+1",
        b"X''",
        b"X'a'",
        b"X'012345678'",
        b"x'1'",
    ];
    for text in none {
        assert_eq!(rt; number_of(text), None);
    }
    assert!(rt; has_hex_bytes(b"09AF"));
    assert!(rt; !has_hex_bytes(b"0G"));
    assert_eq!(rt; hex_value(b'F'), 15);
}

// A text cut at a byte, and one cut at its commas outside parentheses.
#[test]
fn parts(rt: HostRuntime) {
    let (first, rest) = cut_at(b"1+2+3", b'+');
    assert_eq!(rt; first, b"1".as_slice());
    assert_eq!(rt; rest, Rest::More(b"2+3"));
    assert_eq!(rt; parted(b"12", b'+'), Parts::One(b"12"));
    assert_eq!(rt; parted(b"1+", b'+'), Parts::Two(b"1", b""));
    assert_eq!(rt; parted(b"1+2+3", b'+'), Parts::Several);
    let (piece, rest) = next_piece(b"28(1,2),3");
    assert_eq!(rt; piece, b"28(1,2)".as_slice());
    assert_eq!(rt; rest, Rest::More(b"3"));
    let (piece, rest) = next_piece(b"");
    assert_eq!(rt; piece, b"".as_slice());
    assert_eq!(rt; rest, Rest::Nothing);
    assert!(rt; is_enclosed(b"F'1'", b'F', b'\'', b'\''));
    assert!(rt; !is_enclosed(b"F''", b'F', b'\'', b'\''));
    assert_eq!(rt; quoted(b"A(B+1)"), b"B+1".as_slice());
}

// Each form of operand once, and what is of none.
#[test]
fn operands(rt: HostRuntime) {
    let w = 0xE640_4040_4040_4040;
    let some: [(&[u8], Operand); 8] = [
        (b"5", Operand::Plain(5)),
        (b"-0", Operand::Negative(0)),
        (b"-32768", Operand::Negative(32768)),
        (b"28(1)", Operand::Based(28, 1)),
        (b"X'FFF'(2,13)", Operand::Indexed(0xFFF, 2, 13)),
        (b"W", Operand::Named(w, 0)),
        (b"W+4", Operand::Named(w, 4)),
        (b"W+2147483647", Operand::Named(w, 0x7FFF_FFFF)),
    ];
    for (text, operand) in some {
        assert_eq!(rt; operand_of(text), operand);
    }
    let bad: [&[u8]; 9] = [
        b"",
        b"1(",
        b"1(2,3,4)",
        b"1(2)(3)",
        b"W+2147483648",
        b"W+1+1",
        b"-X'1'",
        b"w",
        b"W(1)",
    ];
    for text in bad {
        assert_eq!(rt; operand_of(text), Operand::Bad);
    }
    assert_eq!(rt; signed(b"-1"), Operand::Negative(1));
    assert_eq!(rt; simple_operand(b"W+X'10'"), Operand::Named(w, 16));
}
