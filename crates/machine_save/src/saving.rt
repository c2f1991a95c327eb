// A machine is written into the room that was taken for it.
ghost use Rattle.std.specs.Prelude.{◌≡◌, ◌+◌, ◌*◌, ◌<◌, ◌≤◌, ◌++◌, [], IfOk, length, take};
ghost use Rattle.std.specs.List.{flat_map};
ghost use Rattle.std.specs.Vec.{vec_capacity};
ghost use Rattle.byteorder.specs.Endian.{big_bytes};
ghost use Rattle.save_model.specs.Save.{bytes_of, cpus_in, size_by};
ghost use Rattle.saved_machine.specs.Saved.{byte_at, cpu_at, cpus_of, first_bytes, head_of};
ghost use Rattle.saved_machine.specs.Saved.{numbers_of, saved};

use crate::numbers::saved_cpu;
use crate::placing::cores_of;
use esa_model::machine::CpuNo;
use esa_model::memory::NoMemory;
use g5_machine::Machine;
use run_model::logs::Config;
use save_model::parts::{SaveHead, SavedCpu, SavedNumbers};
use save_model::refusal::SaveRefusal;
use save_reading::cpus_in;
use save_writing::SaveRoom;
use saved_machine::Counts;
use silicon::Silicon;
use std::alloc::Global;

// In the place of a CPU that is not there.
const NO_CPU: SavedCpu = SavedCpu {
    mode: 0,
    core: 0,
    retries: 0,
    state: 0,
    restart: 0,
    key: 0,
    malfunction: 0,
    emergency: 0,
    external_call: 0,
    zeros: 0,
    words: [0; 40],
};

fn head_of(config: &Config) -> SaveHead
    ensures { result ≡ head_of config.now }
{
    SaveHead {
        cpus: config.cpus,
        spares: config.spares,
        threshold: config.threshold,
        zero: 0,
        pages: u32::from(config.pages),
    }
}

/// Takes the memory for a save of a machine of this configuration, which has at most 4,096 pages.
///
/// # Errors
/// `NoMemory` where it is not to be had.
pub fn reserve(alloc: Global, config: &Config) -> Result<SaveRoom, NoMemory>
    requires { config.now.pages ≤ 4096 }
    ensures empty { IfOk result (λ r. r.bytes.items ≡ []) }
    ensures room { IfOk result (λ r. size_by (head_of config.now) ≤ vec_capacity r.bytes) }
{
    SaveRoom::reserve(alloc, &head_of(config))
}

fn numbers_of(m: &Machine, counts: Counts) -> SavedNumbers
    ensures { result ≡ numbers_of m.now counts }
{
    let tally = m.tally();
    SavedNumbers {
        turns: tally.turns,
        commits: tally.commits,
        clock: m.side().clock,
        console_read: tally.read,
        console_written: tally.written,
        retries: counts.retries,
        spared: counts.spared,
        stopped: counts.stopped,
        returned: counts.returned,
    }
}

// CPU number i, of those that the machine has.
fn cpu_at(m: &Machine, i: usize) -> SavedCpu
    requires { i < m.now.config.cpus }
    ensures { result ≡ cpu_at m.now.cpus.items m.now.side.bus i }
{
    let cpu = CpuNo(i as u8);
    saved_cpu(m.held(cpu), &m.side().bus.signals(cpu))
}

// The CPUs, and others behind them.
fn cpus_of(m: &Machine) -> [SavedCpu; 8]
    ensures { take m.now.config.cpus result
        ≡ cpus_of m.now.cpus.items m.now.side.bus m.now.config.cpus }
{
    let mut cpus = [NO_CPU; 8];
    'cpus: for i in 0..usize::from(m.cpus()) {
        cpus[i] = cpu_at(m, i);
    }
    cpus
}

fn put_key(room: &mut SaveRoom, key: u8)
    requires { length room.old.bytes.items + 1 ≤ vec_capacity room.old.bytes }
    ensures items { room.new.bytes.items ≡ room.old.bytes.items ++ big_bytes 1 key }
    ensures capacity { vec_capacity room.old.bytes ≤ vec_capacity room.new.bytes }
    ensures length { length room.new.bytes.items ≡ length room.old.bytes.items + 1 }
{
    room.put_byte(key);
}

fn key_at(m: &Machine, block: u16) -> u8
    ensures { result ≡ byte_at m.now.side.keys block }
{
    m.side().keys.get(block).unwrap_or(0)
}

fn byte_at(m: &Machine, at: u32) -> u8
    ensures { result ≡ byte_at m.now.memory.bytes at }
{
    m.memory().read(at).unwrap_or(0)
}

fn put_keys(room: &mut SaveRoom, m: &Machine)
    requires { length room.old.bytes.items + m.now.config.pages ≤ vec_capacity room.old.bytes }
    ensures items { room.new.bytes.items ≡ room.old.bytes.items
        ++ flat_map (λ n. big_bytes 1 n) (first_bytes m.now.side.keys m.now.config.pages) }
    ensures capacity { vec_capacity room.old.bytes ≤ vec_capacity room.new.bytes }
    ensures length { length room.new.bytes.items
        ≡ length room.old.bytes.items + m.now.config.pages }
{
    'keys: for block in 0..m.config().pages {
        put_key(room, key_at(m, block));
    }
}

fn put_storage(room: &mut SaveRoom, m: &Machine)
    requires { length room.old.bytes.items + 4096 * m.now.config.pages
        ≤ vec_capacity room.old.bytes }
    ensures items { room.new.bytes.items ≡ room.old.bytes.items
        ++ first_bytes m.now.memory.bytes (4096 * m.now.config.pages) }
{
    'bytes: for at in 0..4096 * u32::from(m.config().pages) {
        room.put_byte(byte_at(m, at));
    }
}

/// The bytes of a save: of a machine, of what its run counted, and of its silicon. It takes no
/// memory.
pub fn save<Z: Silicon>(room: SaveRoom, m: &Machine, counts: Counts, z: &Z) -> Vec<u8>
    requires empty { room.bytes.items ≡ [] }
    requires room { size_by (head_of m.now.config) ≤ vec_capacity room.bytes }
    ensures { result.items ≡ bytes_of (saved m.now counts (Z.seen z.now)) }
{
    let mut room = room;
    let cpus = cpus_of(m);
    let many = usize::from(m.cpus());
    let head = head_of(m.config());
    room.put_front(
        &head,
        &numbers_of(m, counts),
        &cpus[..many],
        &cores_of(m, z),
    );
    put_keys(&mut room, m);
    put_storage(&mut room, m);
    room.bytes
}

/// How many CPUs the machine of a save has.
///
/// # Errors
/// `BadHead` where the first 16 bytes are not there, or hold no head of a machine that there can
/// be.
pub fn cpus(bytes: &[u8]) -> Result<u8, SaveRefusal>
    ensures { result ≡ cpus_in bytes.now }
{
    cpus_in(bytes)
}
