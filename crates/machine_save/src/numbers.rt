// What holds of a CPU, as numbers of a save and back.
ghost use Rattle.std.specs.Prelude.{◌≡◌, ◌+◌, ◌*◌, ◌≤◌};
ghost use Rattle.saved_machine.specs.Numbers.{bit, call_number, mask_of, saved_cpu, state_number};
ghost use Rattle.saved_machine.specs.Numbers.{mode_number, retries_of, words_held};
ghost use Rattle.core_turns.specs.Held.{core_of};
ghost use Rattle.run_model.specs.Checkpoint.{words_of};

use core_turns::Held;
use esa_model::machine::{CpuNo, CpuState, Registers, Signals};
use runit_ecc::word_of;
use save_model::parts::SavedCpu;

fn state_number(state: CpuState) -> u8
    ensures { result ≡ state_number state }
{
    match state {
        CpuState::Operating => 0,
        CpuState::Stopped => 1,
        CpuState::CheckStop => 2,
    }
}

// A flag before the others.
fn flag_before(flag: bool, others: u8) -> u8
    requires { others ≤ 127 }
    ensures { result ≡ bit flag + 2 * others }
{
    u8::from(flag) + 2 * others
}

fn mask_of(flags: &[bool; 8]) -> u8
    ensures { result ≡ mask_of flags.now }
{
    let last = flag_before(flags[6], u8::from(flags[7]));
    let half = flag_before(flags[4], flag_before(flags[5], last));
    let most = flag_before(flags[2], flag_before(flags[3], half));
    flag_before(flags[0], flag_before(flags[1], most))
}

fn call_number(call: Option<CpuNo>) -> u8
    ensures { result ≡ call_number call }
{
    match call {
        None => 255,
        Some(cpu) => cpu.0,
    }
}

fn mode_number(held: &Held) -> u8
    ensures { result ≡ mode_number held.now }
{
    match held {
        Held::Running(_) => 0,
        Held::Recovering(_) => 1,
        Held::Lost(_, _) => 2,
        Held::Taken => 3,
    }
}

fn core_of(held: &Held) -> u8
    ensures { result ≡ core_of held.now }
{
    match held {
        Held::Running(running) => running.core().0,
        Held::Recovering(recovering) => recovering.core().0,
        Held::Lost(core, _) => core.0,
        Held::Taken => 0,
    }
}

fn retries_of(held: &Held) -> u8
    ensures { result ≡ retries_of held.now }
{
    match held {
        Held::Running(running) => running.retries(),
        Held::Recovering(recovering) => recovering.retries(),
        Held::Lost(_, retries) => *retries,
        Held::Taken => 0,
    }
}

// The checkpoint words of registers.
#[tactic(auto, unfolding(run_model::specs::Checkpoint::words_of))]
fn words_of(r: &Registers) -> [u64; 40]
    ensures { result ≡ words_of r.now }
{
    let mut words = [0; 40];
    'words: for k in 0..40usize {
        words[k] = word_of(r, k as u8);
    }
    words
}

fn words_held(held: &Held) -> [u64; 40]
    ensures { result ≡ words_held held.now }
{
    match held {
        Held::Running(running) => words_of(running.registers()),
        Held::Recovering(_) | Held::Lost(_, _) | Held::Taken => [0; 40],
    }
}

/// What a save says of a CPU: of what is held for it, and of its signals.
#[tactic(auto, unfolding(saved_machine::specs::Numbers::saved_cpu))]
pub fn saved_cpu(held: &Held, signals: &Signals) -> SavedCpu
    ensures { result ≡ saved_cpu held.now signals.now }
{
    SavedCpu {
        mode: mode_number(held),
        core: core_of(held),
        retries: retries_of(held),
        state: state_number(signals.state),
        restart: u8::from(signals.restart),
        key: u8::from(signals.key),
        malfunction: mask_of(&signals.malfunction),
        emergency: mask_of(&signals.emergency),
        external_call: call_number(signals.external_call),
        zeros: 0,
        words: words_held(held),
    }
}
