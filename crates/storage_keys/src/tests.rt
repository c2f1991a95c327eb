// The keys of four blocks.
use crate::Keys;
use std::test::Fail;

/// Key of the block, key of the PSW, whether it may store, whether it may fetch.
const TESTS: [(u8, u8, bool, bool); 6] = [
    (0x30, 3, true, true),
    (0x30, 4, false, true),
    (0x38, 4, false, false),
    (0x38, 3, true, true),
    (0xF8, 0, true, true),
    (0x06, 1, false, true),
];

#[test]
fn protection(rt: HostRuntime) -> Result<(), Fail> {
    let Ok(mut keys) = Keys::new(rt.alloc(), 4) else {
        return Err("no memory".into());
    };
    for (key, psw_key, may_store, may_fetch) in TESTS {
        keys.set(3, key);
        assert_eq!(rt; keys.may_store(3, psw_key), may_store, "key {key}");
        assert_eq!(rt; keys.may_fetch(3, psw_key), may_fetch, "key {key}");
    }
    assert!(rt; !keys.may_store(4, 0));
    assert!(rt; !keys.may_fetch(4, 0));
    Ok(())
}

#[test]
fn reference_and_change(rt: HostRuntime) -> Result<(), Fail> {
    let Ok(mut keys) = Keys::new(rt.alloc(), 4) else {
        return Err("no memory".into());
    };
    keys.set(2, 0xF8);
    keys.touch(2, false);
    assert_eq!(rt; keys.get(2), Some(0xFC));
    keys.touch(2, true);
    keys.touch(2, false);
    keys.touch(4, true);
    assert_eq!(rt; keys.get(2), Some(0xFE));
    assert_eq!(rt; keys.get(0), Some(0));
    assert_eq!(rt; keys.get(4), None);
    Ok(())
}
