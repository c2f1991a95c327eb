//! Saves worked by hand from the table of their bytes.
ghost use Rattle.std.specs.Prelude.{◌≡◌, length, IfOk};

use crate::{SaveRoom, write_save};
use save_model::parts::{SaveHead, SavedCore, SavedCpu, SavedNumbers};
use std::alloc::Global;
use std::test::Fail;

// One CPU, one spare, a threshold of 3, 128 KiB.
const SMALL: SaveHead = SaveHead {
    cpus: 1,
    spares: 1,
    threshold: 3,
    zero: 0,
    pages: 32,
};

const THREE_TURNS: SavedNumbers = SavedNumbers {
    turns: 3,
    commits: 2,
    clock: 0x0102_0304_0506_0708,
    console_read: 0,
    console_written: 512,
    retries: 4,
    spared: 5,
    stopped: 6,
    returned: 7,
};

// Its core is to be recovered.
fn recovering() -> SavedCpu {
    let mut words = [0; 40];
    words[39] = 0x1112_1314_1516_1718;
    SavedCpu {
        mode: 1,
        core: 8,
        retries: 2,
        state: 0,
        restart: 1,
        key: 0,
        malfunction: 3,
        emergency: 4,
        external_call: 255,
        zeros: 0,
        words,
    }
}

fn spare(begun: u64) -> SavedCore {
    let mut stored = [0; 40];
    stored[39] = 0x2122_2324_2526_2728_292A_2B2C_2D2E_2F30;
    SavedCore {
        place: 2,
        zeros: 0,
        begun,
        stored,
    }
}

fn small_save(alloc: Global) -> Result<Vec<u8>, Fail> {
    let Ok(room) = SaveRoom::reserve(alloc, &SMALL) else {
        return Err("no memory".into());
    };
    let storage = vec![in alloc; 0x55; 0x2_0000]?;
    let cores = [spare(9); 16];
    Ok(write_save(
        room,
        &SMALL,
        &THREE_TURNS,
        &[recovering()],
        &cores,
        &[0x66; 32],
        &storage,
    ))
}

/// Where parts of a save begin, and their bytes.
const PARTS: [(usize, &[u8]); 9] = [
    (0, b"G5SAVE1\n\x01\x01\x03\0\0\0\0\x20"),
    (16, &[0, 0, 0, 0, 0, 0, 0, 3, 0, 0, 0, 0, 0, 0, 0, 2]),
    (32, &[1, 2, 3, 4, 5, 6, 7, 8]),
    (48, &[0, 0, 0, 0, 0, 0, 2, 0, 0, 0, 0, 0, 0, 0, 0, 4]),
    (88, &[1, 8, 2, 0, 1, 0, 3, 4, 255, 0, 0, 0, 0, 0, 0, 0, 0]),
    (416, &[0x11, 0x12, 0x13, 0x14, 0x15, 0x16, 0x17, 0x18]),
    (424, &[2, 0, 0, 0, 0, 0, 0, 0, 0, 0, 0, 0, 0, 0, 0, 9, 0]),
    (
        10_904,
        &[
            0x21, 0x22, 0x23, 0x24, 0x25, 0x26, 0x27, 0x28, 0x29, 0x2A, 0x2B, 0x2C, 0x2D, 0x2E,
            0x2F, 0x30,
        ],
    ),
    (10_951, &[0x66, 0x55]),
];

#[test]
fn parts_stand_at_their_bytes(rt: HostRuntime) -> Result<(), Fail> {
    let save = small_save(rt.alloc())?;
    assert_eq!(rt; save.len(), 142_024);
    for (at, bytes) in PARTS {
        let part = save.iter().skip(at).take(bytes.len());
        assert!(rt; part.eq(bytes.iter()), "at {at}");
    }
    Ok(())
}

// The front, and a key behind it.
#[test]
fn front_and_one_key(rt: HostRuntime) -> Result<(), Fail> {
    let Ok(mut room) = SaveRoom::reserve(rt.alloc(), &SMALL) else {
        return Err("no memory".into());
    };
    let cores = [spare(9); 16];
    room.put_front(&SMALL, &THREE_TURNS, &[recovering()], &cores);
    assert_eq!(rt; room.bytes.len(), 10_920);
    room.put_byte(0x66);
    let save = small_save(rt.alloc())?;
    assert!(rt; room.bytes.iter().eq(save.iter().take(10_921)));
    Ok(())
}
