// A machine that has made no turn, saved; parts worked by hand from the table of the format.
ghost use Rattle.std.specs.Prelude.{◌≡◌, ◌*◌, IsTrue, length};

use crate::{Counts, cpus, reserve, resume, save};
use abs_storage::AbsStorage;
use deck_model::decks::Loaded;
use g5_machine::Machine;
use run_model::logs::Config;
use save_model::refusal::SaveRefusal;
use silicon::ScriptSilicon;
use std::alloc::Global;
use std::test::Fail;

// One CPU, one spare, 128 KiB, three retries.
const SMALL: Config = Config {
    cpus: 1,
    spares: 1,
    pages: 32,
    threshold: 3,
};

const COUNTS: Counts = Counts {
    retries: 1,
    spared: 2,
    stopped: 3,
    returned: 4,
};

/// Where parts begin, and their bytes: the head; the counts; a CPU that operates on core 0; the PSW
/// with the entry; the core of the CPU, one that there is not, and the spare; two bytes of the
/// storage.
const PARTS: [(usize, &[u8]); 8] = [
    (0, b"G5SAVE1\n\x01\x01\x03\0\0\0\0\x20"),
    (56, &[0, 0, 0, 0, 0, 0, 0, 1, 0, 0, 0, 0, 0, 0, 0, 2]),
    (88, &[0, 0, 0, 0, 0, 0, 0, 0, 255, 0, 0, 0, 0, 0, 0, 0]),
    (
        360,
        &[0, 0, 0, 0, 0, 0x08, 0, 0, 0, 0, 0, 0, 0x80, 0x01, 0, 0],
    ),
    (424, &[1, 0, 0, 0, 0, 0, 0, 0]),
    (1_080, &[0, 0, 0, 0, 0, 0, 0, 0]),
    (5_672, &[2, 0, 0, 0, 0, 0, 0, 0]),
    (76_488, &[0x47, 0xF0]),
];

// No turn was made, so nothing was counted.
const NONE: Counts = Counts {
    retries: 0,
    spared: 0,
    stopped: 0,
    returned: 0,
};

/// A machine and its silicon.
#[derive(Drop)]
struct Plant {
    machine: Machine,
    z: ScriptSilicon,
}

fn has_pages(storage: &AbsStorage) -> bool
    ensures { IsTrue result → length storage.now ≡ 4096 * 32 }
{
    storage.size() == 4096 * 32
}

fn put_branch(storage: &mut AbsStorage) {
    let _ = storage.store(0x1_0000, 0x47);
    let _ = storage.store(0x1_0001, 0xF0);
}

fn started(alloc: Global) -> Result<Plant, Fail> {
    let mut storage = AbsStorage::new(alloc, 0x2_0000)?;
    put_branch(&mut storage);
    if !has_pages(&storage) {
        return Err("a storage".into());
    }
    let mut z = ScriptSilicon::new();
    let entry = Loaded { address: 0x1_0000 };
    let machine = Machine::new(alloc, SMALL, entry, storage, Vec::new(alloc), &mut z)?;
    Ok(Plant { machine, z })
}

fn bytes_of(
    alloc: Global,
    machine: &Machine,
    counts: Counts,
    z: &ScriptSilicon,
) -> Result<Vec<u8>, Fail> {
    let config = machine.config();
    if config.pages > 4096 {
        return Err("a configuration".into());
    }
    let room = reserve(alloc, config)?;
    Ok(save(room, machine, counts, z))
}

#[test]
fn a_start_is_saved(rt: HostRuntime) -> Result<(), Fail> {
    let alloc = rt.alloc();
    let plant = started(alloc)?;
    let bytes = bytes_of(alloc, &plant.machine, COUNTS, &plant.z)?;
    assert_eq!(rt; bytes.len(), 10_584 + 336 + 4_097 * 32);
    for (at, part) in PARTS {
        assert!(rt;
            bytes.iter().skip(at).take(part.len()).eq(part.iter()),
            "at {at}"
        );
    }
    assert!(rt; cpus(&bytes) == Ok(1));
    Ok(())
}

// The save of what is resumed from a save.
fn saved_again(alloc: Global, bytes: &[u8]) -> Result<Vec<u8>, Fail> {
    let mut z = ScriptSilicon::new();
    let Ok(resumed) = resume(alloc, bytes, Vec::new(alloc), 10, &mut z) else {
        return Err("refused".into());
    };
    bytes_of(alloc, &resumed.machine, resumed.counts, &z)
}

#[test]
fn a_machine_that_is_resumed_has_the_same_save(rt: HostRuntime) -> Result<(), Fail> {
    let alloc = rt.alloc();
    let plant = started(alloc)?;
    let bytes = bytes_of(alloc, &plant.machine, NONE, &plant.z)?;
    let again = saved_again(alloc, &bytes)?;
    assert!(rt; again.iter().eq(bytes.iter()));
    Ok(())
}

// The first so many of them, or all.
fn front(bytes: &[u8], many: usize) -> &[u8] {
    if many <= bytes.len() {
        &bytes[..many]
    } else {
        bytes
    }
}

// The refusal of the first so many bytes of a save.
fn refusal_of(alloc: Global, bytes: &[u8], many: usize) -> Option<SaveRefusal> {
    let mut z = ScriptSilicon::new();
    match resume(alloc, front(bytes, many), Vec::new(alloc), 10, &mut z) {
        Ok(_) => None,
        Err(refusal) => Some(refusal),
    }
}

#[test]
fn saves_that_are_cut_or_wrong_are_refused(rt: HostRuntime) -> Result<(), Fail> {
    let alloc = rt.alloc();
    let plant = started(alloc)?;
    let bytes = bytes_of(alloc, &plant.machine, NONE, &plant.z)?;
    assert!(rt; refusal_of(alloc, &bytes, 142_023) == Some(SaveRefusal::BadLength));
    assert!(rt; refusal_of(alloc, &bytes, 15) == Some(SaveRefusal::BadHead));
    assert!(rt; cpus(front(&bytes, 15)) == Err(SaveRefusal::BadHead));
    let counted = bytes_of(alloc, &plant.machine, COUNTS, &plant.z)?;
    assert!(rt; refusal_of(alloc, &counted, 142_024) == Some(SaveRefusal::BadField(56)));
    Ok(())
}
