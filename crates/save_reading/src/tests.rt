//! Saves worked by hand from the table of their fields.
use crate::{cpus_in, read_save};
use save_model::parts::{SaveHead, SavedCore, SavedCpu, SavedNumbers};
use save_model::refusal::SaveRefusal;
use save_writing::{SaveRoom, write_save};
use std::alloc::Global;
use std::test::Fail;

// Two CPUs, one spare, a threshold of 3, 128 KiB.
const HEAD: SaveHead = SaveHead {
    cpus: 2,
    spares: 1,
    threshold: 3,
    zero: 0,
    pages: 32,
};

const NUMBERS: SavedNumbers = SavedNumbers {
    turns: 9,
    commits: 2,
    clock: 0x0102_0304_0506_0708,
    console_read: 512,
    console_written: 511,
    retries: 4,
    spared: 5,
    stopped: 6,
    returned: 7,
};

// It runs on core 0.
fn running() -> SavedCpu {
    let mut words = [0; 40];
    words[0] = 5;
    words[34] = 0x1_F000;
    words[36] = 0xFFFF_FFFF_FFFF_FFFF;
    SavedCpu {
        mode: 0,
        core: 0,
        retries: 0,
        state: 1,
        restart: 1,
        key: 0,
        malfunction: 2,
        emergency: 0,
        external_call: 1,
        zeros: 0,
        words,
    }
}

// Core 8, once the spare, is to be recovered.
fn recovering() -> SavedCpu {
    SavedCpu {
        mode: 1,
        core: 8,
        retries: 2,
        state: 0,
        restart: 0,
        key: 1,
        malfunction: 0,
        emergency: 3,
        external_call: 255,
        zeros: 0,
        words: [0; 40],
    }
}

fn core(place: u8, begun: u64) -> SavedCore {
    let mut stored = [0; 40];
    stored[35] = 0x7F_FFFF_FFFF;
    stored[36] = 0xFF_FFFF_FFFF_FFFF_FFFF;
    SavedCore {
        place,
        zeros: 0,
        begun,
        stored,
    }
}

// Core 1, given up, is fenced.
fn cores() -> [SavedCore; 16] {
    let mut cores = [core(0, 0); 16];
    cores[0] = core(1, 9);
    cores[1] = core(3, 1_000_000);
    cores[8] = core(1, 2);
    cores
}

fn two_cpus(alloc: Global) -> Result<Vec<u8>, Fail> {
    let Ok(room) = SaveRoom::reserve(alloc, &HEAD) else {
        return Err("no memory".into());
    };
    let storage = vec![in alloc; 0x55; 0x2_0000]?;
    let cpus = [running(), recovering()];
    let keys = [0x66; 32];
    Ok(write_save(room, &HEAD, &NUMBERS, &cpus, &cores(), &keys, &storage))
}

fn refusal_of(alloc: Global, save: &[u8], turns: u64, console: u64) -> Option<SaveRefusal> {
    match read_save(alloc, save, turns, console) {
        Ok(_) => None,
        Err(refusal) => Some(refusal),
    }
}

// The refusal where one byte is changed.
fn refusal_with(alloc: Global, save: &mut [u8], at: usize, value: u8) -> Option<SaveRefusal> {
    let byte = save.get_mut(at)?;
    let before = *byte;
    *byte = value;
    let refusal = refusal_of(alloc, save, 1_000_000, 1_000_000);
    if let Some(byte) = save.get_mut(at) {
        *byte = before;
    }
    refusal
}

#[test]
fn what_was_written_is_read(rt: HostRuntime) -> Result<(), Fail> {
    let save = two_cpus(rt.alloc())?;
    assert_eq!(rt; save.len(), 142_360);
    assert_eq!(rt; cpus_in(&save), Ok(2));
    let Ok(read) = read_save(rt.alloc(), &save, 9, 512) else {
        return Err("refused".into());
    };
    assert_eq!(rt; read.head.pages, 32);
    assert_eq!(rt; read.numbers.clock, 0x0102_0304_0506_0708);
    assert_eq!(rt; read.numbers.returned, 7);
    assert_eq!(rt; read.cpus.len(), 2);
    for (cpu, written) in read.cpus.iter().zip([running(), recovering()]) {
        assert_eq!(rt; cpu.core, written.core);
        assert_eq!(rt; cpu.retries, written.retries);
        assert!(rt; cpu.words == written.words);
    }
    for (core, written) in read.cores.iter().zip(cores()) {
        assert_eq!(rt; core.place, written.place);
        assert_eq!(rt; core.begun, written.begun);
        assert!(rt; core.stored == written.stored);
    }
    assert_eq!(rt; read.keys.len(), 32);
    assert!(rt; read.keys.iter().all(|k| *k == 0x66));
    assert_eq!(rt; read.storage.len(), 0x2_0000);
    assert!(rt; read.storage.iter().all(|b| *b == 0x55));
    Ok(())
}

/// A byte that is changed, its value, and the field whose value is then refused.
const NUMBERS_AND_CPUS: [(usize, u8, u32); 29] = [
    (16, 1, 16),
    (24, 1, 24),
    // more commits than turns
    (31, 10, 24),
    (40, 1, 40),
    // one byte more than two commits can read
    (47, 1, 40),
    (48, 1, 48),
    (56, 1, 56),
    (63, 10, 56),
    (64, 1, 64),
    (72, 1, 72),
    (80, 1, 80),
    (88, 3, 88),
    // lost and not check-stopped, and the other way round
    (88, 2, 88),
    (91, 2, 88),
    (89, 2, 89),
    (90, 4, 90),
    (91, 3, 91),
    (92, 2, 92),
    (93, 2, 93),
    (94, 4, 94),
    (95, 8, 95),
    (96, 2, 96),
    (97, 1, 97),
    (103, 1, 97),
    // page 32 of 32 as prefix, and a prefix of 33 bits
    (381, 2, 376),
    (379, 1, 376),
    // the core of the first CPU
    (425, 0, 425),
    (439, 1, 433),
    // the second CPU's first word
    (447, 1, 440),
];

#[test]
fn numbers_and_cpus_outside_their_values(rt: HostRuntime) -> Result<(), Fail> {
    let mut save = two_cpus(rt.alloc())?;
    assert_eq!(rt; refusal_of(rt.alloc(), &save, 9, 512), None);
    for (at, value, field) in NUMBERS_AND_CPUS {
        let refusal = refusal_with(rt.alloc(), &mut save, at, value);
        assert_eq!(rt; refusal, Some(SaveRefusal::BadField(field)), "byte {at}");
    }
    // the clock has any value
    assert_eq!(rt; refusal_with(rt.alloc(), &mut save, 32, 255), None);
    Ok(())
}

#[test]
fn each_word_outside_its_values(rt: HostRuntime) -> Result<(), Fail> {
    let mut save = two_cpus(rt.alloc())?;
    for k in 0..40u32 {
        let of_running = 104 + 8 * k;
        let refusal = refusal_with(rt.alloc(), &mut save, of_running as usize, 1);
        // the clock words have any value
        if k == 36 || k == 37 {
            assert_eq!(rt; refusal, None, "word {k}");
        } else {
            assert_eq!(rt;
                refusal,
                Some(SaveRefusal::BadField(of_running)),
                "word {k}"
            );
        }
        let of_recovering = 440 + 8 * k;
        let refusal = refusal_with(rt.alloc(), &mut save, of_recovering as usize, 1);
        assert_eq!(rt;
            refusal,
            Some(SaveRefusal::BadField(of_recovering)),
            "word {k}"
        );
    }
    Ok(())
}

#[test]
fn each_core_outside_its_values(rt: HostRuntime) -> Result<(), Fail> {
    let mut save = two_cpus(rt.alloc())?;
    for k in 0..16u32 {
        let place = 760 + 656 * k;
        // cores 0 and 8 are with CPUs, core 1 is fenced, the machine has no others
        let wrong = if k == 0 || k == 8 { 2 } else { 1 };
        for (at, value, field) in [
            (place, wrong, place),
            (place + 7, 1, place + 1),
            (place + 8, 1, place + 8),
            // one attempt more than a million
            (place + 13, 16, place + 8),
        ] {
            let refusal = refusal_with(rt.alloc(), &mut save, at as usize, value);
            assert_eq!(rt; refusal, Some(SaveRefusal::BadField(field)), "byte {at}");
        }
        for i in 0..40u32 {
            let word = place + 16 + 16 * i;
            let above = if i < 36 { word + 11 } else { word + 6 };
            let value = if i < 36 { 128 } else { 1 };
            let refusal = refusal_with(rt.alloc(), &mut save, above as usize, value);
            assert_eq!(rt; refusal, Some(SaveRefusal::BadField(word)), "byte {above}");
        }
    }
    Ok(())
}

#[test]
fn each_key_outside_its_values(rt: HostRuntime) -> Result<(), Fail> {
    let mut save = two_cpus(rt.alloc())?;
    for page in 0..32u32 {
        let key = 11_256 + page;
        let refusal = refusal_with(rt.alloc(), &mut save, key as usize, 0x67);
        assert_eq!(rt; refusal, Some(SaveRefusal::BadField(key)), "page {page}");
    }
    // a byte of the storage has any value
    assert_eq!(rt; refusal_with(rt.alloc(), &mut save, 11_288, 0x67), None);
    Ok(())
}

/// A byte of the head that is changed, and its value.
const NO_HEADS: [(usize, u8); 10] = [
    (0, b'g'),
    (7, 0),
    (8, 0),
    (8, 9),
    (9, 9),
    (10, 16),
    (11, 1),
    // 64 KiB, 144 KiB, and more than 16,384 KiB
    (15, 16),
    (15, 36),
    (14, 17),
];

#[test]
fn refusals_in_their_order(rt: HostRuntime) -> Result<(), Fail> {
    let mut save = two_cpus(rt.alloc())?;
    for (at, value) in NO_HEADS {
        let refusal = refusal_with(rt.alloc(), &mut save, at, value);
        assert_eq!(rt; refusal, Some(SaveRefusal::BadHead), "byte {at}");
    }
    assert_eq!(rt;
        cpus_in(b"G5SAVE1\n\x01\x01\x03\0\0\0\0"),
        Err(SaveRefusal::BadHead)
    );
    assert_eq!(rt; cpus_in(b"G5SAVE1\n\x01\x01\x03\0\0\0\0\x20"), Ok(1));
    // another number of CPUs or of pages wants another length
    for (at, value) in [(8, 1), (15, 48)] {
        let refusal = refusal_with(rt.alloc(), &mut save, at, value);
        assert_eq!(rt; refusal, Some(SaveRefusal::BadLength), "byte {at}");
    }
    for (turns, console, refusal) in [
        (8, 511, Some(SaveRefusal::PastSchedule)),
        (9, 511, Some(SaveRefusal::PastConsole)),
        (9, 512, None),
    ] {
        assert_eq!(rt; refusal_of(rt.alloc(), &save, turns, console), refusal);
    }
    save.pop();
    assert_eq!(rt;
        refusal_of(rt.alloc(), &save, 9, 512),
        Some(SaveRefusal::BadLength)
    );
    Ok(())
}
