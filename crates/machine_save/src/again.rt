// What holds of a CPU, from the numbers of a save.
ghost use Rattle.std.specs.Prelude.{◌≡◌, ◌+◌, ◌*◌, ◌<◌, ◌≤◌, ◌==◌, IfSome, length};
ghost use Rattle.core_turns.specs.Held.{AreStorable};
ghost use Rattle.run_model.specs.Checkpoint.{registers_of};
ghost use Rattle.saved_machine.specs.Again.{HasFlags, SaysHeld, SaysSignals};
ghost use Rattle.saved_machine.specs.Numbers.{bit, call_number, mask_of, state_number};

use core_states::{RecoveringCore, RunningCore};
use core_turns::{Held, are_registers};
use esa_model::machine::{CpuNo, CpuState, Registers, Signals};
use run_model::faults::CoreNo;
use runit_ecc::registers_of;
use save_model::parts::SavedCpu;

fn state_of(number: u8) -> CpuState
    requires { number ≤ 2 }
    ensures { state_number result ≡ number }
{
    match number {
        0 => CpuState::Operating,
        1 => CpuState::Stopped,
        _ => CpuState::CheckStop,
    }
}

// The first flag of a number, and the number of the others.
fn first_flag(number: u8) -> (bool, u8)
    ensures { number ≡ bit result.0 + 2 * result.1 }
{
    (number % 2 == 1, number / 2)
}

fn flags_of(number: u8) -> [bool; 8]
    ensures { mask_of result ≡ number }
{
    let (first, rest) = first_flag(number);
    let (second, rest) = first_flag(rest);
    let (third, rest) = first_flag(rest);
    let (fourth, rest) = first_flag(rest);
    let (fifth, rest) = first_flag(rest);
    let (sixth, rest) = first_flag(rest);
    let (seventh, rest) = first_flag(rest);
    let (eighth, _) = first_flag(rest);
    [first, second, third, fourth, fifth, sixth, seventh, eighth]
}

fn call_of(number: u8) -> Option<CpuNo>
    ensures value { call_number result ≡ number }
    ensures caller { IfSome result (λ c. c.0 < 255) }
{
    if number == 255 {
        None
    } else {
        Some(CpuNo(number))
    }
}

fn is_one(number: u8) -> bool
    requires { number ≤ 1 }
    ensures { bit result ≡ number }
{
    number == 1
}

// That there are eight flags is known where they are read.
fn are_flags(flags: [bool; 8])
    ensures { length flags ≡ 8 }
{
    let _flags = flags;
}

/// The flags of signals are those of eight CPUs.
pub fn have_flags(signals: &Signals)
    ensures { HasFlags signals.now }
{
    are_flags(signals.malfunction);
    are_flags(signals.emergency);
}

/// The signals that a save says.
pub fn signals_of(cpu: &SavedCpu) -> Signals
    requires state { cpu.now.state ≤ 2 }
    requires restart { cpu.now.restart ≤ 1 }
    requires key { cpu.now.key ≤ 1 }
    ensures { SaysSignals cpu.now result }
{
    let signals = Signals {
        state: state_of(cpu.state),
        restart: is_one(cpu.restart),
        key: is_one(cpu.key),
        malfunction: flags_of(cpu.malfunction),
        emergency: flags_of(cpu.emergency),
        external_call: call_of(cpu.external_call),
    };
    have_flags(&signals);
    signals
}

// The registers that words say.
fn registers_in(words: &[u64; 40]) -> Registers
    ensures registers { result ≡ registers_of words.now }
    ensures widths { AreStorable result }
{
    let registers = registers_of(words);
    are_registers(&registers);
    registers
}

/// What a save says that is held for a CPU.
pub fn held_of(cpu: &SavedCpu) -> Held
    requires mode { cpu.now.mode ≤ 2 }
    requires core { cpu.now.core < 16 }
    ensures { SaysHeld cpu.now result }
{
    let core = CoreNo(cpu.core);
    match cpu.mode {
        0 => Held::Running(RunningCore::resumed(core, cpu.retries, registers_in(&cpu.words))),
        1 => Held::Recovering(RecoveringCore::resumed(core, cpu.retries)),
        _ => Held::Lost(core, cpu.retries),
    }
}
