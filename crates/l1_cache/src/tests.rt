// Lines filled, found, replaced and invalidated.
use crate::Cache;
use abs_storage::AbsStorage;
use std::alloc::Global;
use std::test::Fail;

// A storage of 128 KiB; the first bytes of lines 0, 1 and 64, and the last one, are not 0.
fn new_storage(alloc: Global) -> Result<AbsStorage, Fail> {
    let Ok(mut storage) = AbsStorage::new(alloc, 0x2_0000) else {
        return Err("no memory".into());
    };
    for (at, b) in [(0, 1), (0x100, 2), (0x4000, 3), (0x1_FFFF, 4)] {
        let _ = storage.store(at, b);
    }
    Ok(storage)
}

fn new_cache(alloc: Global) -> Result<Cache, Fail> {
    match Cache::new(alloc) {
        Ok(cache) => Ok(cache),
        Err(_) => Err("no memory".into()),
    }
}

/// Addresses fetched one behind another, the byte, and the fills then.
const FETCHED: [(u32, Option<u8>, u64); 10] = [
    (0, Some(1), 1),
    (0xFF, Some(0), 1),
    (0x100, Some(2), 2),
    (0, Some(1), 2),
    // line 64 has the place of line 0
    (0x4000, Some(3), 3),
    (0x100, Some(2), 3),
    (0, Some(1), 4),
    (0x1_FFFF, Some(4), 5),
    (0x2_0000, None, 5),
    (0xFFFF_FFFF, None, 5),
];

#[test]
fn lines_are_filled_once(rt: HostRuntime) -> Result<(), Fail> {
    let storage = new_storage(rt.alloc())?;
    let mut cache = new_cache(rt.alloc())?;
    assert_eq!(rt; cache.fills(), 0);
    for (at, byte, fills) in FETCHED {
        assert_eq!(rt; cache.fetch(at, &storage), byte, "at {at}");
        assert_eq!(rt; cache.fills(), fills, "after {at}");
    }
    Ok(())
}

// What is stored is seen once its line is invalidated, and other lines stay.
#[test]
fn invalidated_lines(rt: HostRuntime) -> Result<(), Fail> {
    let mut storage = new_storage(rt.alloc())?;
    let mut cache = new_cache(rt.alloc())?;
    assert_eq!(rt; cache.fetch(0x100, &storage), Some(2));
    assert_eq!(rt; cache.fetch(0x200, &storage), Some(0));
    assert_eq!(rt; storage.store(0x100, 9), Some(()));
    assert_eq!(rt; cache.fetch(0x100, &storage), Some(2));
    cache.invalidate_line(0x4100);
    assert_eq!(rt; cache.fetch(0x100, &storage), Some(2));
    cache.invalidate_line(0x1FF);
    assert_eq!(rt; cache.fetch(0x100, &storage), Some(9));
    assert_eq!(rt; cache.fills(), 3);
    cache.invalidate_all();
    assert_eq!(rt; cache.fills(), 3);
    assert_eq!(rt; cache.fetch(0x200, &storage), Some(0));
    assert_eq!(rt; cache.fetch(0x100, &storage), Some(9));
    assert_eq!(rt; cache.fills(), 5);
    Ok(())
}
