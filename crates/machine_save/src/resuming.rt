// A machine is stood up again from the bytes of a save.
ghost use Rattle.std.specs.Prelude.{◌≡◌, ◌≤◌, ◌<◌, ℕ, Ok, IfErr, IfOk, OnErr, drop, length};
ghost use Rattle.save_model.specs.Save.{IsSave, read_save};
ghost use Rattle.save_reading.specs.Refusing.{IsRefused};
ghost use Rattle.save_writing.specs.Written.{save_of};
ghost use Rattle.silicon.specs.Chip.{Chip};
ghost use Rattle.saved_machine.specs.Again.{Again, HasCallers, IsSized, IsTyped, SaysSignals};
ghost use Rattle.machine_save.specs.Bringing.{AllCanBe, Brought, PoolTo, StoresTo};
ghost use Rattle.saved_machine.specs.Saved.{counts_of, saved};

use crate::bringing::{all_held, all_signals, fill_pool, keys_of, resume_cores, storage_of};
use crate::standing::{counts_of, stand_up};
use core_turns::SparePool;
use esa_model::memory::NoMemory;
use g5_machine::Machine;
use result_packet::{Console, Side};
use save_model::laws::read_saves_are_written;
use save_model::refusal::SaveRefusal;
use save_reading::{SavedRun, read_save};
use saved_machine::Counts;
use seen_memory::Memory;
use sigp_bus::Bus;
use silicon::Silicon;
use sparing::Pool;
use std::alloc::Global;

/// A machine that was stood up again, and what its run had counted.
#[derive(Drop)]
pub struct Resumed {
    pub machine: Machine,
    pub counts: Counts,
}

// What a save holds; and it is a save.
fn read_good(
    alloc: Global,
    bytes: &[u8],
    turns: u64,
    console: u64,
) -> Result<SavedRun<'_>, SaveRefusal>
    ensures ok { IfOk result (λ s. read_save turns console bytes.now
        ≡ Ok (save_of s.head s.numbers s.cpus.items s.cores s.keys.now s.storage.now)) }
    ensures save { IfOk result (λ s. IsSave (save_of s.head s.numbers s.cpus.items s.cores
        s.keys.now s.storage.now)) }
    ensures read { IfOk result (λ s. s.numbers.console_read ≤ console) }
    ensures refusal { IfErr result (λ e. IsRefused (read_save turns console bytes.now) e) }
{
    read_saves_are_written();
    read_save(alloc, bytes, turns, console)
}

// A console input of which so many bytes were read.
fn console_of(bytes: Vec<u8>, read: u64) -> Console
    requires read { read ≤ length bytes.items }
    requires few { length bytes.items ≤ 1048576 }
    ensures { result ≡ drop read bytes.items }
{
    let mut console = Console::new(bytes);
    console.skip(read as u32);
    console
}

// What stands beside the storage.
fn bring_side(alloc: Global, s: &SavedRun, console: Vec<u8>) -> Result<Side, NoMemory>
    requires save { IsSave (save_of s.now.head s.now.numbers s.now.cpus.items s.now.cores
        s.now.keys.now s.now.storage.now) }
    requires read { s.now.numbers.console_read ≤ length console.items }
    requires few { length console.items ≤ 1048576 }
    ensures keys { IfOk result (λ r. r.keys ≡ s.now.keys.now) }
    ensures bus { IfOk result (λ r.
        Brought SaysSignals s.now.cpus.items (length s.now.cpus.items) r.bus) }
    ensures console { IfOk result (λ r.
        r.console ≡ drop s.now.numbers.console_read console.items) }
    ensures clock { IfOk result (λ r. r.clock ≡ s.now.numbers.clock) }
{
    let keys = keys_of(alloc, s.keys)?;
    let signals = all_signals(alloc, &s.cpus)?;
    let bus = Bus::resumed(alloc, &signals)?;
    Ok(Side {
        keys,
        bus,
        console: console_of(console, s.numbers.console_read),
        clock: s.numbers.clock,
    })
}

fn bring_pool(alloc: Global, s: &SavedRun) -> Result<SparePool, NoMemory>
    ensures { IfOk result (λ p. PoolTo 16 s.now.cores p) }
{
    let mut pool: SparePool = Pool::new(alloc)?;
    fill_pool(&mut pool, &s.cores);
    Ok(pool)
}

// The machine of a save, whose buffers and caches are empty.
fn bring_machine(alloc: Global, s: &SavedRun, console: Vec<u8>) -> Result<Machine, NoMemory>
    requires save { IsSave (save_of s.now.head s.now.numbers s.now.cpus.items s.now.cores
        s.now.keys.now s.now.storage.now) }
    requires read { s.now.numbers.console_read ≤ length console.items }
    requires few { length console.items ≤ 1048576 }
    ensures again { IfOk result (λ m. (z z2 : Chip) → StoresTo 16 s.now.cores z z2
        → saved m (counts_of s.now.numbers) z2 ≡ save_of s.now.head s.now.numbers
        s.now.cpus.items s.now.cores s.now.keys.now s.now.storage.now) }
    ensures console { IfOk result (λ m.
        m.side.console ≡ drop s.now.numbers.console_read console.items) }
    ensures typed { IfOk result (λ m. IsTyped m) }
    ensures callers { IfOk result (λ m. HasCallers m) }
    ensures sized { IfOk result (λ m. IsSized m) }
{
    let cpus = all_held(alloc, &s.cpus)?;
    let pool = bring_pool(alloc, s)?;
    let storage = storage_of(alloc, s.storage)?;
    let memory = Memory::new(alloc, storage)?;
    let side = bring_side(alloc, s, console)?;
    Ok(stand_up(s, cpus, pool, memory, side))
}

/// Stands a machine up again from the bytes of a save, with a console input from its first byte on
/// and silicon that has a script and has begun no attempt; the schedule has so many turns. The
/// console input has at most 1,048,576 bytes. The silicon gets the attempts begun and the stored
/// words of the save, and no strike lands.
///
/// # Errors
/// The first refusal that the format gives, or want of memory; then the silicon is as it was.
pub fn resume<Z: Silicon>(
    alloc: Global,
    bytes: &[u8],
    console: Vec<u8>,
    turns: u64,
    z: &mut Z,
) -> Result<Resumed, SaveRefusal>
    requires few { length console.items ≤ 1048576 }
    requires none { (k : ℕ) → k < 16 → (Z.seen z.old).begun k ≡ 0 }
    ensures ok { IfOk result (λ r. read_save turns (length console.items) bytes.now
        ≡ Ok (saved r.machine r.counts (Z.seen z.new))) }
    ensures again { IfOk result (λ r. Again (saved r.machine r.counts (Z.seen z.new))
        console.items r.machine r.counts (Z.seen z.old) (Z.seen z.new)) }
    ensures refusal { IfErr result (λ e.
        IsRefused (read_save turns (length console.items) bytes.now) e) }
    ensures kept { OnErr result (Z.seen z.new ≡ Z.seen z.old) }
    ensures tape { Z.tape z.new ≡ Z.tape z.old }
{
    let s = read_good(alloc, bytes, turns, console.len() as u64)?;
    let Ok(machine) = bring_machine(alloc, &s, console) else {
        return Err(SaveRefusal::NoMemory);
    };
    resume_cores(z, &s.cores);
    Ok(Resumed {
        machine,
        counts: counts_of(&s.numbers),
    })
}
