// The answers to questions, by the machine.
ghost use Rattle.std.specs.Prelude.{◌≡◌, ◌<◌, ◌≤◌, ◌/◌, ◌^◌, ◌++◌, codes, length, slice_get};
ghost use Rattle.g5_machine.specs.Standing.{StandsFor};
ghost use Rattle.program_model.specs.Debugger.{answer, cpu_words, key_text, state_text, storage_text, words_text as text_of_words};
ghost use Rattle.run_model.specs.Numbers.{decimal as decimal_digits};
ghost use Rattle.run_model.specs.Runs.{Model};
ghost use Rattle.silicon.specs.Chip.{Chip};
ghost use Rattle.g5_debugger.specs.Answering.{TellsTurns, held_words, words_in};
ghost use Rattle.g5_debugger.specs.Order.{IsInOrder};

use crate::texts::{named_number, put_text, text, words_text};
use arrayvec::ArrayVec;
use esa_model::machine::{CpuNo, CpuState, Registers};
use esa_words::{decimal, hex2};
use g5_machine::Machine;
use program_model::questions::Question;

/// Which words of a CPU are asked for.
#[derive(Clone, Copy)]
pub enum CpuWords {
    Psw,
    General,
    Control,
    Prefix,
}

fn registers_text(registers: &Registers, words: CpuWords) -> ArrayVec<u8, 256>
    ensures { result.items ≡ text_of_words (words_in words registers.now) }
{
    match words {
        CpuWords::Psw => words_text(&[registers.psw.w0, registers.psw.w1]),
        CpuWords::General => words_text(&registers.general),
        CpuWords::Control => words_text(&registers.control),
        CpuWords::Prefix => words_text(&[registers.prefix]),
    }
}

// The words of a CPU that is not check-stopped.
fn held_text(machine: &Machine, cpu: CpuNo, words: CpuWords) -> ArrayVec<u8, 256>
    requires known { cpu.0 < machine.now.config.cpus }
    ensures { (z : Chip) → (x : Model) → StandsFor machine.now z x
        → result.items ≡ held_words (x.fate.cores.mode cpu.0)
        (words_in words (x.machine.registers cpu.0)) }
{
    match machine.registers(cpu) {
        Some(registers) => registers_text(registers, words),
        None => text(b"recovering"),
    }
}

// The words of a CPU.
fn cpu_text(machine: &Machine, cpu: CpuNo, words: CpuWords) -> ArrayVec<u8, 256>
    requires known { cpu.0 < machine.now.config.cpus }
    ensures { (z : Chip) → (x : Model) → StandsFor machine.now z x
        → result.items ≡ cpu_words x.machine x.fate.cores cpu.0
        (words_in words (x.machine.registers cpu.0)) }
{
    match machine.state(cpu) {
        CpuState::CheckStop => text(b"check-stop"),
        CpuState::Operating | CpuState::Stopped => held_text(machine, cpu, words),
    }
}

// So many bytes of the storage, from an absolute address on.
fn memory_text(machine: &Machine, at: u32, count: u8) -> ArrayVec<u8, 256>
    requires at { at < 2 ^ 24 }
    requires some { 1 ≤ count }
    requires few { count ≤ 64 }
    ensures { (z : Chip) → (x : Model) → StandsFor machine.now z x
        → result.items ≡ storage_text x.machine.storage at count }
{
    let mut out = ArrayVec::new();
    'bytes: for i in 0..count {
        let Some(byte) = machine.byte(at + u32::from(i)) else {
            return text(b"outside");
        };
        put_text(&mut out, &hex2(byte));
    }
    out
}

// The storage key of the block of an address.
fn block_text(machine: &Machine, at: u32) -> ArrayVec<u8, 256>
    requires { at < 2 ^ 24 }
    ensures { (z : Chip) → (x : Model) → StandsFor machine.now z x
        → result.items ≡ key_text (slice_get x.machine.keys (at / 4096)) }
{
    match machine.key_of((at / 4096) as u16) {
        Some(key) => text(&hex2(key)),
        None => text(b"outside"),
    }
}

fn state_name(state: CpuState) -> &'static [u8]
    ensures name { result.now ≡ state_text state }
    ensures short { length result.now ≤ 10 }
{
    match state {
        CpuState::Operating => b"operating",
        CpuState::Stopped => b"stopped",
        CpuState::CheckStop => b"check-stop",
    }
}

// The bytes written to the console and those read.
fn console_text(machine: &Machine) -> ArrayVec<u8, 256>
    ensures { (z : Chip) → (x : Model) → StandsFor machine.now z x
        → result.items ≡ answer x.machine x.fate.cores Question.Console }
{
    let (written, read) = machine.console_counts();
    named_number(&decimal(written), read)
}

// How many turns were made.
fn turns_text(turns: u64) -> ArrayVec<u8, 256>
    ensures { result.items ≡ codes "at " ++ decimal_digits turns }
{
    let mut out = text(b"at ");
    put_text(&mut out, &decimal(turns));
    out
}

/// The answer to a question in order, over the machine as it is. How many turns were made is told for
/// every machine, all else of the state that a machine stands for.
#[tactic(auto, unfolding(program_model::specs::Debugger::answer))]
pub fn answer_of(machine: &Machine, question: Question) -> ArrayVec<u8, 256>
    requires order { IsInOrder machine.now.config.cpus question }
    ensures turns { TellsTurns question machine.now.counts.turns result.items }
    ensures answer { (z : Chip) → (x : Model) → StandsFor machine.now z x
        → result.items ≡ answer x.machine x.fate.cores question }
{
    match question {
        Question::Turns(_) => turns_text(machine.turns()),
        Question::Psw(cpu) => cpu_text(machine, cpu, CpuWords::Psw),
        Question::General(cpu) => cpu_text(machine, cpu, CpuWords::General),
        Question::Control(cpu) => cpu_text(machine, cpu, CpuWords::Control),
        Question::Prefix(cpu) => cpu_text(machine, cpu, CpuWords::Prefix),
        Question::Memory(at, count) => memory_text(machine, at, count),
        Question::Key(at) => block_text(machine, at),
        Question::Cpu(cpu) => named_number(
            state_name(machine.state(cpu)),
            u64::from(machine.core(cpu).0),
        ),
        Question::Console => console_text(machine),
        Question::Quit => ArrayVec::new(),
    }
}
