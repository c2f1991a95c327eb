// Two absolute addresses, the pieces of a moved operand, and one storage.
use crate::{AbsStorage, Pieces, View, absolute};
use std::alloc::Global;
use std::test::Fail;

/// Prefix, real address, absolute address.
const EXCHANGED: [(u32, u32, u32); 6] = [
    (0x4000, 0x4200, 0x200),
    (0x4000, 0x200, 0x4200),
    (0x4000, 0xFFF, 0x4FFF),
    (0x4000, 0x1000, 0x1000),
    (0x4000, 0x5000, 0x5000),
    (0x8000_4ABC, 0x0, 0x4000),
];

#[test]
fn prefixing(rt: HostRuntime) {
    for (prefix, real, want) in EXCHANGED {
        assert_eq!(rt; absolute(prefix, real), want, "real {real}");
    }
}

/// Prefix, real address, length and mode of an operand, and its pieces in a storage of 128 KiB.
const CUT: [(u32, u32, u16, bool, Option<Pieces>); 6] = [
    (
        0,
        0x1_0FC1,
        256,
        true,
        Some(Pieces {
            first: 0x1_0FC1,
            first_len: 63,
            second: 0x1_1000,
            second_len: 193,
        }),
    ),
    (
        0x4000,
        0xFFF,
        2,
        true,
        Some(Pieces {
            first: 0x4FFF,
            first_len: 1,
            second: 0x1000,
            second_len: 1,
        }),
    ),
    (
        0,
        0x1_FF00,
        256,
        true,
        Some(Pieces {
            first: 0x1_FF00,
            first_len: 256,
            second: 0,
            second_len: 0,
        }),
    ),
    (0, 0x1_FFFF, 2, true, None),
    (0x1_F000, 0x7FFF_F000, 1, true, None),
    (
        0,
        0x100_0010,
        4,
        false,
        Some(Pieces {
            first: 0x10,
            first_len: 4,
            second: 0,
            second_len: 0,
        }),
    ),
];

#[test]
fn pieces(rt: HostRuntime) -> Result<(), Fail> {
    let storage = new_storage(rt.alloc())?;
    for (prefix, real, len, wide, want) in CUT {
        if len > 0 && len <= 256 {
            assert_eq!(rt;
                storage.pieces(prefix, real, len, wide),
                want,
                "real {real}"
            );
        }
    }
    Ok(())
}

fn new_storage(alloc: Global) -> Result<AbsStorage, Fail> {
    match AbsStorage::new(alloc, 0x2_0000) {
        Ok(storage) => Ok(storage),
        Err(_) => Err("no memory".into()),
    }
}

#[test]
fn bytes(rt: HostRuntime) -> Result<(), Fail> {
    let mut storage = new_storage(rt.alloc())?;
    assert_eq!(rt; storage.size(), 0x2_0000);
    assert_eq!(rt; storage.store(0x1_FFFF, 0xC8), Some(()));
    assert_eq!(rt; storage.store(0x2_0000, 0xC8), None);
    assert_eq!(rt; View::byte(&mut storage, 0x1_FFFF), Some(0xC8));
    assert_eq!(rt; storage.fetch(0x2_0000), None);
    Ok(())
}
