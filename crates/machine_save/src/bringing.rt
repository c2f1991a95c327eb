// The parts of a machine, from the parts of a save.
ghost use Rattle.std.specs.Prelude.{◌≡◌, ℕ, ◌*◌, ◌%◌, ◌^◌, ◌<◌, ◌≤◌, [], IfOk, length, slice_set};
ghost use Rattle.sparing.specs.Pools.{Absent};
ghost use Rattle.core_turns.specs.Held.{fenced_number, spare_number};
ghost use Rattle.saved_machine.specs.Again.{SaysHeld, SaysSignals};
ghost use Rattle.machine_save.specs.Bringing.{AllCanBe, Brought, IsStored, OneMore, PoolTo, Stores};
ghost use Rattle.machine_save.specs.Bringing.{StoresTo};

use crate::again::{held_of, signals_of};
use abs_storage::AbsStorage;
use core_states::{FencedCore, SpareCore};
use core_turns::{Held, SparePool};
use esa_model::machine::Signals;
use esa_model::memory::NoMemory;
use run_model::faults::CoreNo;
use save_model::parts::{SavedCore, SavedCpu};
use silicon::Silicon;
use std::alloc::{AllocError, Global};
use storage_keys::Keys;

fn store(storage: &mut AbsStorage, at: usize, byte: u8)
    requires { at < 2 ^ 32 }
    ensures { storage.new ≡ slice_set storage.old at byte }
{
    let _ = storage.store(at as u32, byte);
}

/// A storage with these bytes, which are whole pages.
pub fn storage_of(alloc: Global, bytes: &[u8]) -> Result<AbsStorage, NoMemory>
    requires pages { length bytes.now % 4096 ≡ 0 }
    requires most { length bytes.now ≤ 4096 * 4096 }
    ensures { IfOk result (λ s. s ≡ bytes.now) }
{
    let mut storage = AbsStorage::new(alloc, bytes.len() as u32)?;
    'bytes: for at in 0..bytes.len() {
        store(&mut storage, at, bytes[at]);
    }
    Ok(storage)
}

fn set(keys: &mut Keys, block: usize, key: u8)
    requires { block < 2 ^ 16 }
    ensures { keys.new ≡ slice_set keys.old block key }
{
    keys.set(block as u16, key);
}

/// Keys of blocks.
pub fn keys_of(alloc: Global, bytes: &[u8]) -> Result<Keys, NoMemory>
    requires { length bytes.now ≤ 4096 }
    ensures { IfOk result (λ k. k ≡ bytes.now) }
{
    let mut keys = Keys::new(alloc, bytes.len() as u16)?;
    'keys: for block in 0..bytes.len() {
        set(&mut keys, block, bytes[block]);
    }
    Ok(keys)
}

// Words are stored as they stand.
fn put_words<Z: Silicon>(z: &mut Z, core: CoreNo, words: &[u128; 40])
    requires { core.0 < 16 }
    ensures stores { Stores core.0 words.now 40 (Z.seen z.old) (Z.seen z.new) }
    ensures tape { Z.tape z.new ≡ Z.tape z.old }
{
    'words: for k in 0..40usize {
        z.put_word(core, k as u8, words[k]);
    }
}

fn resume_core<Z: Silicon>(z: &mut Z, k: usize, core: &SavedCore)
    requires core { k < 16 }
    requires none { (Z.seen z.old).begun k ≡ 0 }
    ensures stored { IsStored k core.now (Z.seen z.old) (Z.seen z.new) }
    ensures tape { Z.tape z.new ≡ Z.tape z.old }
{
    let number = CoreNo(k as u8);
    z.resume_at(number, core.begun);
    put_words(z, number, &core.stored);
}

/// Each core has begun its attempts and stores its words.
pub fn resume_cores<Z: Silicon>(z: &mut Z, cores: &[SavedCore; 16])
    requires { (k : ℕ) → k < 16 → (Z.seen z.old).begun k ≡ 0 }
    ensures stores { StoresTo 16 cores.now (Z.seen z.old) (Z.seen z.new) }
    ensures tape { Z.tape z.new ≡ Z.tape z.old }
{
    'cores: for k in 0..16usize {
        resume_core(z, k, &cores[k]);
    }
}

// One core more, where its place says that it is a spare or fenced.
fn add_core(pool: &mut SparePool, core: u8, place: u8)
    requires small { core < 16 }
    requires absent { Absent spare_number fenced_number core pool.old }
    ensures { OneMore core place pool.old pool.new }
{
    match place {
        2 => pool.add(SpareCore::new(CoreNo(core))),
        3 => pool.fence(FencedCore::resumed(CoreNo(core))),
        _ => {}
    }
}

/// The cores that are spares or fenced.
pub fn fill_pool(pool: &mut SparePool, cores: &[SavedCore; 16])
    requires { pool.old ≡ record { spares = []; fenced = [] } }
    ensures { PoolTo 16 cores.now pool.new }
{
    'cores: for k in 0..16usize {
        add_core(pool, k as u8, cores[k].place);
    }
}

/// What is held for each CPU.
pub fn all_held(alloc: Global, cpus: &[SavedCpu]) -> Result<Vec<Held>, AllocError>
    requires { AllCanBe cpus.now }
    ensures { IfOk result (λ v. Brought SaysHeld cpus.now (length cpus.now) v.items) }
{
    let mut all = Vec::with_capacity(alloc, cpus.len())?;
    'cpus: for i in 0..cpus.len() {
        let held = held_of(&cpus[i]);
        all.push(held)?;
    }
    Ok(all)
}

/// The signals of each CPU.
pub fn all_signals(alloc: Global, cpus: &[SavedCpu]) -> Result<Vec<Signals>, AllocError>
    requires { AllCanBe cpus.now }
    ensures { IfOk result (λ v. Brought SaysSignals cpus.now (length cpus.now) v.items) }
{
    let mut all = Vec::with_capacity(alloc, cpus.len())?;
    'cpus: for i in 0..cpus.len() {
        let signals = signals_of(&cpus[i]);
        all.push(signals)?;
    }
    Ok(all)
}
