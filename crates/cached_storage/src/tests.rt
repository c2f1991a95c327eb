// Bytes that are stored late are seen by each core, and other lines stay in the caches.
use crate::CachedStorage;
use abs_storage::AbsStorage;
use run_model::faults::CoreNo;
use std::alloc::Global;
use std::test::Fail;
use store_buffer::Buffer;

fn new_storage(alloc: Global) -> Result<CachedStorage, Fail> {
    let Ok(storage) = AbsStorage::new(alloc, 0x2_0000) else {
        return Err("no memory".into());
    };
    match CachedStorage::new(alloc, storage) {
        Ok(cached) => Ok(cached),
        Err(_) => Err("no memory".into()),
    }
}

// A drain needs the oldest entry inside the storage, and `oldest` tells where it lies.
fn drain_inside(storage: &mut CachedStorage, buffer: &mut Buffer) -> bool {
    match buffer.oldest() {
        Some(span) if span.at + span.len as u32 > storage.size() => false,
        Some(_) => storage.drain(buffer),
        None => storage.drain(buffer),
    }
}

/// Addresses in three lines, and the bytes that stand there in the end.
const BYTES: [(u32, u8); 4] = [(0x1_00FE, 0), (0x1_00FF, 1), (0x1_0100, 2), (0x1_0200, 0)];

// Cores 0 and 15 have all three lines; two bytes are stored across the end of a line.
#[test]
fn stored_in_two_lines(rt: HostRuntime) -> Result<(), Fail> {
    let mut storage = new_storage(rt.alloc())?;
    for core in [CoreNo(0), CoreNo(15)] {
        for (at, _) in BYTES {
            assert_eq!(rt; storage.fetch_by(core, at), Some(0), "at {at}");
        }
        assert_eq!(rt; storage.fills(core), 3);
    }
    let mut buffer = Buffer::new();
    buffer.hold(0x1_00FF, &[1, 2]);
    buffer.release();
    assert_eq!(rt; storage.fetch_by(CoreNo(0), 0x1_00FF), Some(0));
    assert_eq!(rt; drain_inside(&mut storage, &mut buffer), true);
    assert_eq!(rt; drain_inside(&mut storage, &mut buffer), false);
    for core in [CoreNo(0), CoreNo(15)] {
        for (at, byte) in BYTES {
            assert_eq!(rt; storage.fetch_by(core, at), Some(byte), "at {at}");
        }
        assert_eq!(rt; storage.fills(core), 5);
    }
    assert_eq!(rt; storage.fills(CoreNo(1)), 0);
    assert_eq!(rt; storage.fetch(0x1_0100), Some(2));
    Ok(())
}

#[test]
fn emptied_and_outside(rt: HostRuntime) -> Result<(), Fail> {
    let mut storage = new_storage(rt.alloc())?;
    assert_eq!(rt; storage.size(), 0x2_0000);
    for _turn in 0..2 {
        assert_eq!(rt; storage.fetch_by(CoreNo(3), 0x1_FFFF), Some(0));
        assert_eq!(rt; storage.fetch_by(CoreNo(3), 0x2_0000), None);
    }
    assert_eq!(rt; storage.fills(CoreNo(3)), 1);
    storage.empty(CoreNo(3));
    assert_eq!(rt; storage.fetch_by(CoreNo(3), 0x1_FFFF), Some(0));
    assert_eq!(rt; storage.fills(CoreNo(3)), 2);
    Ok(())
}
