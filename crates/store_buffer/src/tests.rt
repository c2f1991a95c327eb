// A word from hold to drain, which byte is the newest, and a full buffer.
use crate::{Buffer, Span};
use abs_storage::AbsStorage;
use std::alloc::Global;
use std::test::Fail;

fn new_storage(alloc: Global) -> Result<AbsStorage, Fail> {
    match AbsStorage::new(alloc, 0x2_0000) {
        Ok(storage) => Ok(storage),
        Err(_) => Err("no memory".into()),
    }
}

// A drain needs the oldest entry inside the storage, and `oldest` tells where it lies.
fn drain_inside(buffer: &mut Buffer, storage: &mut AbsStorage) -> bool {
    match buffer.oldest() {
        Some(span) if span.at + span.len as u32 > storage.size() => false,
        Some(_) => buffer.drain(storage),
        None => buffer.drain(storage),
    }
}

#[test]
fn hold_release_drain(rt: HostRuntime) -> Result<(), Fail> {
    let mut storage = new_storage(rt.alloc())?;
    let mut buffer = Buffer::new();
    buffer.hold(0x1_2000, &[0, 0, 0, 1]);
    assert_eq!(rt; buffer.snoop(0x1_2003), None);
    assert_eq!(rt; buffer.oldest(), None);
    buffer.release();
    assert_eq!(rt; buffer.snoop(0x1_2003), Some(1));
    buffer.drop_uncommitted();
    assert_eq!(rt; buffer.snoop(0x1_2003), Some(1));
    assert_eq!(rt; drain_inside(&mut buffer, &mut storage), true);
    assert_eq!(rt; buffer.snoop(0x1_2003), None);
    assert_eq!(rt; storage.fetch(0x1_2000), Some(0));
    assert_eq!(rt; storage.fetch(0x1_2003), Some(1));
    assert_eq!(rt; drain_inside(&mut buffer, &mut storage), false);
    Ok(())
}

// Bytes 1 2 3, and then a 9 in the place of the 2.
#[test]
fn newest_and_oldest(rt: HostRuntime) -> Result<(), Fail> {
    let mut storage = new_storage(rt.alloc())?;
    let mut buffer = Buffer::new();
    buffer.hold(0x2000, &[1, 2, 3]);
    buffer.hold(0x2001, &[9]);
    buffer.release();
    for (at, want) in [
        (0x1FFF, None),
        (0x2000, Some(1)),
        (0x2001, Some(9)),
        (0x2002, Some(3)),
        (0x2003, None),
    ] {
        assert_eq!(rt; buffer.snoop(at), want, "at {at}");
    }
    let first = Span { at: 0x2000, len: 3 };
    assert_eq!(rt; buffer.oldest(), Some(first));
    assert_eq!(rt; drain_inside(&mut buffer, &mut storage), true);
    assert_eq!(rt; storage.fetch(0x2001), Some(2));
    assert_eq!(rt; buffer.snoop(0x2001), Some(9));
    assert_eq!(rt; drain_inside(&mut buffer, &mut storage), true);
    assert_eq!(rt; storage.fetch(0x2001), Some(9));
    Ok(())
}

#[test]
fn eight_entries(rt: HostRuntime) {
    let mut buffer = Buffer::new();
    for k in 0..8u8 {
        assert_eq!(rt; buffer.free(), 8 - k);
        if buffer.free() > 0 {
            buffer.hold(0x3000 + k as u32, &[k]);
        }
        if k == 5 {
            buffer.release();
        }
    }
    assert_eq!(rt; buffer.free(), 0);
    buffer.drop_uncommitted();
    assert_eq!(rt; buffer.free(), 2);
    assert_eq!(rt; buffer.snoop(0x3005), Some(5));
    assert_eq!(rt; buffer.snoop(0x3006), None);
}

// Two bytes at X'2000' are committed; the other buffer holds two bytes around them.
#[test]
fn bytes_in_common(rt: HostRuntime) {
    for (at, want) in [
        (0x1FFE, false),
        (0x1FFF, true),
        (0x2000, true),
        (0x2001, true),
        (0x2002, false),
    ] {
        let mut buffer = Buffer::new();
        let mut other = Buffer::new();
        buffer.hold(0x2000, &[1, 2]);
        other.hold(at, &[3, 4]);
        assert_eq!(rt; buffer.meets(&other), false, "not yet committed, at {at}");
        buffer.release();
        assert_eq!(rt; buffer.meets(&other), want, "at {at}");
        other.release();
        assert_eq!(rt; buffer.meets(&other), false, "no more held, at {at}");
    }
}
