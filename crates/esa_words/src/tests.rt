use crate::{bits, decimal, hex2, hex6, hex8, is_decimal, read_decimal, signed32, wrap32};

#[test]
fn words(rt: HostRuntime) {
    let whole: [(i128, u32); 6] = [
        (0, 0),
        (-1, 0xFFFF_FFFF),
        (0x1_0000_0001, 1),
        (-0x8000_0000, 0x8000_0000),
        (-0x1_0000_0001, 0xFFFF_FFFF),
        (0x8000_0000, 0x8000_0000),
    ];
    for (x, word) in whole {
        assert_eq!(rt; wrap32(x), word);
    }
    assert_eq!(rt; signed32(0x7FFF_FFFF), 2147483647);
    assert_eq!(rt; signed32(0x8000_0000), -2147483648);
    assert_eq!(rt; signed32(0xFFFF_FFFF), -1);
    assert_eq!(rt; bits(0x8001_000A, 0, 0), 1);
    assert_eq!(rt; bits(0x8001_000A, 0, 31), 0x8001_000A);
    assert_eq!(rt; bits(0x8001_000A, 28, 31), 10);
    assert_eq!(rt; bits(0x1234_5678, 8, 15), 0x34);
}

#[test]
fn texts(rt: HostRuntime) {
    assert_eq!(rt; hex8(0x8001_000A).as_slice(), b"8001000A".as_slice());
    assert_eq!(rt; hex6(0xFF01_2345).as_slice(), b"012345".as_slice());
    assert_eq!(rt; hex2(0xF9).as_slice(), b"F9".as_slice());
    assert_eq!(rt; decimal(0).as_slice(), b"0".as_slice());
    assert_eq!(rt;
        decimal(18446744073709551615).as_slice(),
        b"18446744073709551615".as_slice()
    );
    assert!(rt; is_decimal(b"1000000000000000000000"));
    assert!(rt; !is_decimal(b""));
}

#[test]
fn numbers(rt: HostRuntime) {
    assert_eq!(rt; read_decimal(b"0", 999999), Some(0));
    assert_eq!(rt; read_decimal(b"999999", 999999), Some(999999));
    let none: [&[u8]; 7] = [
        b"1000000",
        b"00",
        b"01",
        b"+1",
        b"",
        b"1 ",
        b"100000000000000000000",
    ];
    for text in none {
        assert_eq!(rt; read_decimal(text, 999999), None);
    }
    assert_eq!(rt;
        read_decimal(b"18446744073709551615", u64::MAX),
        Some(u64::MAX)
    );
    assert_eq!(rt; read_decimal(b"18446744073709551616", u64::MAX), None);
}
