// The machine at its start.
ghost use Rattle.std.specs.Prelude.{◌≡◌, ◌≤◌, ◌<◌, ◌==◌, ◌+◌, ◌*◌, ◌^◌, ℕ, if◌then◌else◌};
ghost use Rattle.std.specs.Prelude.{◌++◌, ◌∷◌, [], IfOk, OnErr, length, replicate};
ghost use Rattle.std.specs.Vec.{vec_capacity};
ghost use Rattle.esa_model.specs.Machine.{start, start_registers};
ghost use Rattle.run_laws.specs.Bounds.{BoundedCpus};
ghost use Rattle.run_model.specs.Cores.{first_cores};
ghost use Rattle.run_model.specs.Fate.{first_fate};
ghost use Rattle.run_model.specs.Runs.{first_model};
ghost use Rattle.g5_machine.specs.Fits.{IsFitting};
ghost use Rattle.g5_machine.specs.Standing.{StandsByMode, StandsFor};
ghost use Rattle.g5_machine.specs.Starting.{SparesTo, Wakes, WokenTo};

use crate::counts::Counts;
use crate::machine::Machine;
use abs_storage::AbsStorage;
use core_states::SpareCore;
use core_turns::{Held, SparePool, are_registers};
use deck_model::decks::Loaded;
use esa_model::machine::{Psw, Registers};
use esa_model::memory::NoMemory;
use result_packet::{Console, Side};
use run_model::faults::CoreNo;
use run_model::logs::Config;
use seen_memory::Memory;
use sigp_bus::Bus;
use silicon::Silicon;
use sparing::Pool;
use std::alloc::Global;
use storage_keys::Keys;

/// The registers of a CPU at the start, with its PSW.
fn registers_with(psw: Psw) -> Registers
    ensures general { result.general ≡ replicate 16 0 }
    ensures control { result.control
        ≡ 0x000000E0 ∷ (replicate 13 0 ++ (0xC2000000 ∷ 0 ∷ [])) }
    ensures psw { result.psw ≡ psw }
    ensures prefix { result.prefix ≡ 0 }
    ensures clocks { result.clocks ≡ replicate 4 0 }
{
    let mut control = [0; 16];
    control[0] = 0x0000_00E0;
    control[14] = 0xC200_0000;
    Registers {
        general: [0; 16],
        control,
        psw,
        prefix: 0,
        clocks: [0; 4],
    }
}

/// CPU 0 begins at the entry, in the 31-bit mode; the others have a PSW of zeros.
fn first_psw(entry: u32, cpu: u8) -> Psw
    requires { entry < 2 ^ 31 }
    ensures { result ≡ (if cpu == 0 then record { w0 = 0x00080000; w1 = 2 ^ 31 + entry }
        else record { w0 = 0; w1 = 0 }) }
{
    if cpu == 0 {
        Psw {
            w0: 0x0008_0000,
            w1: 0x8000_0000 + entry,
        }
    } else {
        Psw { w0: 0, w1: 0 }
    }
}

/// The registers of a CPU at the start.
#[tactic(auto, unfolding(esa_model::specs::Machine::start_registers))]
fn first_registers(entry: u32, cpu: u8) -> Registers
    requires { entry < 2 ^ 31 }
    ensures { result ≡ start_registers entry cpu }
{
    registers_with(first_psw(entry, cpu))
}

/// The core of a CPU's number runs with the CPU's registers at the start.
#[tactic(auto, using(crate::proofs::Starts::woken_core))]
fn wake_core<Z: Silicon>(entry: u32, cpu: u8, z: &mut Z) -> Held
    requires entry { entry < 2 ^ 31 }
    requires core { cpu < 16 }
    ensures wakes { Wakes entry cpu (Z.seen z.old) (Z.seen z.new) result }
    ensures tape { Z.tape z.new ≡ Z.tape z.old }
{
    let registers = first_registers(entry, cpu);
    are_registers(&registers);
    Held::Running(SpareCore::new(CoreNo(cpu)).wake(registers, z))
}

/// One more, where there is room.
fn add_held(cpus: &mut Vec<Held>, held: Held)
    requires room { length cpus.old.items < vec_capacity cpus.old }
    ensures items { cpus.new.items ≡ cpus.old.items ++ held ∷ [] }
    ensures room { vec_capacity cpus.old ≤ vec_capacity cpus.new }
{
    match cpus.push(held) {
        Ok(()) => {}
        Err(_) => {}
    }
}

/// A core is woken for each of so many CPUs, in their order. It takes no memory.
#[tactic(auto, using(crate::proofs::Starts::none_woken))]
fn wake_cores<Z: Silicon>(cpus: &mut Vec<Held>, count: u8, entry: u32, z: &mut Z)
    requires empty { cpus.old.items ≡ [] }
    requires room { count ≤ vec_capacity cpus.old }
    requires few { count ≤ 8 }
    requires entry { entry < 2 ^ 31 }
    ensures woken { WokenTo entry count (Z.seen z.old) (Z.seen z.new) cpus.new.items }
    ensures tape { Z.tape z.new ≡ Z.tape z.old }
{
    for cpu in 0..count {
        let held = wake_core(entry, cpu, z);
        add_held(cpus, held);
    }
}

/// So many spares, from core 8 on. It takes no memory.
#[tactic(auto, using(crate::proofs::Starts::no_spares, crate::proofs::Starts::spare_absent))]
fn add_spares(pool: &mut SparePool, count: u8)
    requires empty { pool.old ≡ record { spares = []; fenced = [] } }
    requires few { count ≤ 8 }
    ensures { SparesTo count pool.new }
{
    for j in 0..count {
        pool.add(SpareCore::new(CoreNo(8 + j)));
    }
}

impl Machine {
    /// A machine that has made no turn. Core k runs for CPU k; CPU 0 is operating, with the entry
    /// of a deck in its PSW, the others are stopped. The storage is that of the loaded deck, nothing
    /// was read of the console input, and spare j is core 8 + j.
    ///
    /// # Errors
    /// `NoMemory` where a list is not to be had; then the silicon is as it was.
    #[tactic(auto, using(run_laws::proofs::BoundedTurns::bounded_first))]
    pub fn new<Z: Silicon>(
        alloc: Global,
        config: Config,
        entry: Loaded,
        storage: AbsStorage,
        console: Vec<u8>,
        z: &mut Z,
    ) -> Result<Machine, NoMemory>
        requires config { IsFitting config config.cpus }
        requires storage { length storage ≡ 4096 * config.pages }
        requires entry { entry.address < 2 ^ 31 }
        requires console { length console.items ≤ 1048576 }
        requires begun { (k : ℕ) → k < 16 → (Z.seen z.old).begun k ≡ 0 }
        ensures stands { IfOk result (λ m. StandsFor m (Z.seen z.new)
            (first_model config (start config.cpus storage entry.address console.items))) }
        ensures by_mode { IfOk result (λ m. StandsByMode m (first_cores config)) }
        ensures bounded { BoundedCpus (Z.seen z.new).lines config (first_fate config) }
        ensures config { IfOk result (λ m. m.config ≡ config) }
        ensures turns { IfOk result (λ m. m.counts.turns ≡ 0) }
        ensures lines { (Z.seen z.new).lines ≡ (Z.seen z.old).lines }
        ensures begun { (k : ℕ) → (Z.seen z.new).begun k ≡ (Z.seen z.old).begun k }
        ensures words { (k w : ℕ) → config.cpus ≤ k → w < 40
            → (Z.seen z.new).word k w ≡ (Z.seen z.old).word k w }
        ensures tape { Z.tape z.new ≡ Z.tape z.old }
        ensures refused { OnErr result (Z.seen z.new ≡ Z.seen z.old) }
    {
        let mut pool: SparePool = Pool::new(alloc)?;
        let mut cpus = Vec::with_capacity(alloc, config.cpus as usize)?;
        let keys = Keys::new(alloc, (storage.size() / 4096) as u16)?;
        let bus = Bus::new(alloc, config.cpus)?;
        let memory = Memory::new(alloc, storage)?;
        add_spares(&mut pool, config.spares);
        wake_cores(&mut cpus, config.cpus, entry.address, z);
        Ok(Machine {
            config,
            cpus,
            pool,
            memory,
            side: Side {
                keys,
                bus,
                console: Console::new(console),
                clock: 0,
            },
            counts: Counts::zeros(),
        })
    }
}
