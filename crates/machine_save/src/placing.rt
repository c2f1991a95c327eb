// Where a core of a machine is, and what it stores.
ghost use Rattle.std.specs.Prelude.{◌≡◌, ◌<◌, ◌||◌, map, nat_lt};
ghost use Rattle.std.specs.List.{range_with_len};
ghost use Rattle.run_model.specs.Cores.{belongs};
ghost use Rattle.core_turns.specs.Places.{with_cpu, with_cpus};
ghost use Rattle.saved_machine.specs.Saved.{core_at, cores_of, place_of};

use core_turns::Held;
use esa_model::machine::CpuNo;
use g5_machine::Machine;
use run_model::faults::CoreNo;
use run_model::logs::Config;
use save_model::parts::SavedCore;
use silicon::Silicon;

fn belongs(config: &Config, core: u8) -> bool
    ensures { result ≡ belongs config.now core }
{
    core < config.cpus || 8 <= core && u16::from(core) < 8 + u16::from(config.spares)
}

// Whether the core is with the CPU for which this is held.
fn is_on(held: &Held, core: u8) -> bool
    ensures { result ≡ nat_lt 0 (with_cpu core held.now) }
{
    match held {
        Held::Running(running) => running.core().0 == core,
        Held::Recovering(recovering) => recovering.core().0 == core,
        Held::Lost(_, _) | Held::Taken => false,
    }
}

// The same, where it was not found before.
fn is_on_or(found: bool, held: &Held, core: u8) -> bool
    ensures { result ≡ (found || nat_lt 0 (with_cpu core held.now)) }
{
    found || is_on(held, core)
}

// Whether the core is with some CPU.
fn is_with_cpu(m: &Machine, core: u8) -> bool
    ensures { result ≡ nat_lt 0 (with_cpus core m.now.cpus.items) }
{
    let mut found = false;
    'cpus: for i in 0..m.config().cpus {
        found = is_on_or(found, m.held(CpuNo(i)), core);
    }
    found
}

#[tactic(auto, unfolding(saved_machine::specs::Saved::place_of))]
fn place_of(m: &Machine, core: u8) -> u8
    ensures { result ≡ place_of m.now.config m.now.cpus.items m.now.pool core }
{
    if !belongs(m.config(), core) {
        0
    } else if is_with_cpu(m, core) {
        1
    } else if m.pool().is_fenced(CoreNo(core)) {
        3
    } else {
        2
    }
}

// The stored words of a core.
fn stored_of<Z: Silicon>(z: &Z, core: CoreNo) -> [u128; 40]
    requires { core.0 < 16 }
    ensures { result ≡ map ((Z.seen z.now).word core.0) (range_with_len 0 40) }
{
    let mut stored = [0; 40];
    'words: for k in 0..40usize {
        stored[k] = z.get_word(core, k as u8);
    }
    stored
}

// Core number k.
fn core_at<Z: Silicon>(m: &Machine, z: &Z, k: usize) -> SavedCore
    requires { k < 16 }
    ensures { result ≡ core_at m.now.config m.now.cpus.items m.now.pool (Z.seen z.now) k }
{
    let core = CoreNo(k as u8);
    SavedCore {
        place: place_of(m, core.0),
        zeros: 0,
        begun: z.begun(core),
        stored: stored_of(z, core),
    }
}

/// The cores of a machine over its silicon.
pub fn cores_of<Z: Silicon>(m: &Machine, z: &Z) -> [SavedCore; 16]
    ensures { result ≡ cores_of m.now.config m.now.cpus.items m.now.pool (Z.seen z.now) }
{
    let none = SavedCore {
        place: 0,
        zeros: 0,
        begun: 0,
        stored: [0; 40],
    };
    let mut cores = [none; 16];
    'cores: for k in 0..16usize {
        cores[k] = core_at(m, z, k);
    }
    cores
}
