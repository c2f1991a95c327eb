// Addresses and overflows at their edges, and words of a storage.
use crate::{after_coded, bytes_of, first_of, half_of, indexed_of, second_of, value, word_of};
use abs_storage::AbsStorage;
use esa_model::codes::{DATA, DECIMAL_OVERFLOW, FIXED_OVERFLOW, STAYS};
use esa_model::events::Interruption;
use esa_model::instructions::Decoded;
use esa_model::machine::{Psw, Registers, Value};
use std::test::Fail;

/// Registers with a program mask, in 31-bit mode where `wide`.
fn registers(mask: u8, wide: bool, address: u32) -> Registers {
    Registers {
        general: [0x100; 16],
        control: [0; 16],
        psw: Psw {
            w0: 0x0008_0000 + u32::from(mask % 16) * 0x100,
            w1: address % 0x8000_0000 + if wide { 0x8000_0000 } else { 0 },
        },
        prefix: 0x1000,
        clocks: [0; 4],
    }
}

/// AR 1,2, and the addresses X'FFF'(2,3) and X'FFF'(3).
const FIELDS: Decoded = Decoded {
    row: 20,
    r1: 1,
    r2: 2,
    b1: 0,
    d1: 0xFFF,
    b2: 3,
    d2: 0xFFF,
    imm: 0,
    len: 0,
};

/// Program mask, program code; whether the unit completes, and whether it then interrupts.
const OVERFLOWS: [(u8, u8, bool, bool); 6] = [
    (0, FIXED_OVERFLOW, true, false),
    (8, FIXED_OVERFLOW, true, true),
    (4, FIXED_OVERFLOW, true, false),
    (4, DECIMAL_OVERFLOW, true, true),
    (8, DECIMAL_OVERFLOW, true, false),
    (15, DATA, false, false),
];

#[test]
fn overflow_by_its_mask_bit(rt: HostRuntime) {
    for (mask, fault, completes, interrupts) in OVERFLOWS {
        let sum = Value {
            word: 0x8000_0000,
            low: 0,
            cc: 3,
            fault,
        };
        let effect = value(&registers(mask, true, 0x90), &FIELDS, 2, &sum);
        let program = if interrupts {
            Some(Interruption::Program)
        } else {
            None
        };
        assert_eq!(rt; effect.interruption, program, "mask {mask}");
        assert_eq!(rt;
            effect.code,
            if interrupts { fault } else { 0 },
            "mask {mask}"
        );
        assert_eq!(rt;
            effect.fault,
            if completes { 0 } else { fault },
            "mask {mask}"
        );
        assert_eq!(rt; effect.registers.general[1], 0x8000_0000);
        assert_eq!(rt; effect.registers.psw.condition_code(), 3);
        assert_eq!(rt; effect.registers.psw.w1, 0x8000_0092);
    }
}

#[test]
fn addresses_wrap_by_the_mode(rt: HostRuntime) {
    let narrow = registers(0, false, 0xFF_FFFE);
    assert_eq!(rt; after_coded(&narrow, 4, STAYS).psw.w1, 2);
    assert_eq!(rt; after_coded(&narrow, 4, 2).psw.w0, 0x0008_2000);
    let wide = registers(0, true, 0x7FFF_FFFE);
    assert_eq!(rt; after_coded(&wide, 4, STAYS).psw.w1, 0x8000_0002);
    assert_eq!(rt; first_of(&narrow, &FIELDS), 0xFFF);
    assert_eq!(rt; second_of(&narrow, &FIELDS), 0x10FF);
    assert_eq!(rt; indexed_of(&narrow, &FIELDS), 0x11FF);
}

/// A word that begins in page 0, which the prefix exchanges with page 1, and ends in page 1.
#[test]
fn word_of_two_pages(rt: HostRuntime) -> Result<(), Fail> {
    let Ok(mut storage) = AbsStorage::new(rt.alloc(), 0x2000) else {
        return Err("no memory".into());
    };
    for (at, byte) in [(0x1FFE, 1), (0x1FFF, 2), (0, 3), (1, 4), (2, 5)] {
        let _ = storage.store(at, byte);
    }
    let r = registers(0, true, 0);
    assert_eq!(rt; word_of(&r, &mut storage, 0xFFE), 0x0102_0304);
    assert_eq!(rt; half_of(&r, &mut storage, 0xFFF), 0x0203);
    assert_eq!(rt;
        bytes_of(&r, &mut storage, 0x1001, 2).as_slice(),
        [4, 5].as_slice()
    );
    Ok(())
}
