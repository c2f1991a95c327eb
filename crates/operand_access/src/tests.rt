// The edges of access: pages, wraps, the end of the storage, low addresses, keys.
use crate::{Fetched, effective, gather, instruction, refused, relative};
use abs_storage::AbsStorage;
use esa_model::codes::{ADDRESSING, PROTECTION, SPECIFICATION};
use esa_model::machine::{Psw, Registers};
use std::alloc::Global;
use std::test::Fail;
use storage_keys::Keys;

/// Registers with a PSW key, in 31-bit mode where `wide`, the low-address bit and a prefix.
fn registers(key: u32, wide: bool, low: bool, prefix: u32) -> Registers {
    let mut control = [0; 16];
    control[0] = if low { 0x1000_0000 } else { 0 };
    Registers {
        general: [0x100; 16],
        control,
        psw: Psw {
            w0: 0x0008_0000 + key % 16 * 0x10_0000,
            w1: if wide { 0x8000_0000 } else { 0 },
        },
        prefix,
        clocks: [0; 4],
    }
}

/// One access: key of the PSW, mode, low-address bit, prefix, size, address, length, store; its
/// code.
const EDGES: [(u32, bool, bool, u32, u32, u32, u16, bool, u8); 14] = [
    (1, true, false, 0, 0x2_0000, 0x1FFF, 1, true, 0),
    (1, true, false, 0, 0x2_0000, 0x1FFF, 2, true, PROTECTION),
    (1, true, false, 0, 0x2_0000, 0x2000, 1, false, PROTECTION),
    (2, true, false, 0, 0x2_0000, 0x2000, 1, false, 0),
    (2, true, false, 0, 0x2_0000, 0x1000, 1, false, 0),
    (0, true, false, 0, 0x2_0000, 0x1FFF, 2, true, 0),
    (0, true, false, 0, 0x2_0000, 0x1_FFFF, 2, false, ADDRESSING),
    (1, true, false, 0, 0x2_0000, 0x1_FFFF, 2, true, PROTECTION),
    (
        1, false, false, 0, 0x100_0000, 0xFF_FFFF, 2, false, PROTECTION,
    ),
    (0, false, false, 0, 0x100_0000, 0xFF_FFFF, 2, false, 0),
    (
        0, true, false, 0, 0x100_0000, 0xFF_FFFF, 2, false, ADDRESSING,
    ),
    (0, true, true, 0x4000, 0x2_0000, 511, 1, true, PROTECTION),
    (0, true, true, 0x4000, 0x2_0000, 512, 1, true, 0),
    (0, true, true, 0x4000, 0x2_0000, 511, 1, false, 0),
];

/// Keys of 4,096 blocks: 1 of access key 1, 2 and 0 fetch-protected of access key 2, 31 of access
/// key 3.
fn new_keys(alloc: Global) -> Result<Keys, Fail> {
    let Ok(mut keys) = Keys::new(alloc, 4096) else {
        return Err("no memory".into());
    };
    keys.set(0, 0x28);
    keys.set(1, 0x10);
    keys.set(2, 0x28);
    keys.set(31, 0x30);
    Ok(keys)
}

#[test]
fn edges(rt: HostRuntime) -> Result<(), Fail> {
    let keys = new_keys(rt.alloc())?;
    for (key, wide, low, prefix, size, at, len, store, want) in EDGES {
        if len > 0 && len <= 256 {
            let r = registers(key, wide, low, prefix);
            assert_eq!(rt; refused(&r, &keys, size, at, len, store), want, "at {at}");
        }
    }
    Ok(())
}

#[test]
fn addresses(rt: HostRuntime) {
    let r = registers(0, false, false, 0);
    assert_eq!(rt; effective(&r, 0, 0, 0xFFF), 0xFFF);
    assert_eq!(rt; effective(&r, 1, 2, 1), 0x201);
    assert_eq!(rt; relative(&r, 0x1_0000, 0xFFFF), 0xFFFE);
    assert_eq!(rt; relative(&r, 0xFF_FFFE, 1), 0);
}

#[test]
fn fetches(rt: HostRuntime) -> Result<(), Fail> {
    let keys = new_keys(rt.alloc())?;
    let Ok(mut storage) = AbsStorage::new(rt.alloc(), 0x2_0000) else {
        return Err("no memory".into());
    };
    // MVI
    let _ = storage.store(0, 0x92);
    let _ = storage.store(0x1_FFFE, 0x92);
    let r = registers(0, false, false, 0);
    let mut two = [1; 2];
    gather(&r, &mut storage, 0xFF_FFFF, &mut two);
    assert_eq!(rt; two, [0, 0x92]);
    let whole = Fetched {
        bytes: [0x92, 0, 0, 0, 0, 0],
        len: 4,
        fault: 0,
    };
    assert_eq!(rt; instruction(&r, &keys, &mut storage, 0), whole);
    let cut = Fetched {
        bytes: [0x92, 0, 0, 0, 0, 0],
        len: 4,
        fault: ADDRESSING,
    };
    assert_eq!(rt; instruction(&r, &keys, &mut storage, 0x1_FFFE), cut);
    let odd = Fetched {
        bytes: [0; 6],
        len: 0,
        fault: SPECIFICATION,
    };
    assert_eq!(rt; instruction(&r, &keys, &mut storage, 1), odd);
    Ok(())
}
