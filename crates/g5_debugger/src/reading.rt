// What a line asks.
ghost use Rattle.std.specs.Prelude.{◌≡◌, ℕ, ◌<◌, ◌≤◌, ◌^◌, IfSome};
ghost use Rattle.program_model.specs.Addresses.{address as address_text};
ghost use Rattle.program_model.specs.Commands.{number_in};
ghost use Rattle.program_model.specs.Debugger.{cpu_in, memory_if, of_one_word, of_two_words, of_three_words, of_words, question};
ghost use Rattle.run_model.specs.Script.{fields};
ghost use Rattle.g5_debugger.specs.Order.{IsInOrder};

use crate::fields::{Parts, is_word, parted};
use esa_model::machine::CpuNo;
use esa_words::read_decimal;
use g5_words::address;
use program_model::questions::Question;

// The CPU of this number, where the machine has it.
fn cpu_in(cpus: u8, field: &[u8]) -> Option<CpuNo>
    requires { 1 ≤ cpus }
    ensures value { result ≡ cpu_in cpus field.now }
    ensures known { IfSome result (λ c. c.0 < cpus) }
{
    match read_decimal(field, u64::from(cpus - 1)) {
        Some(n) => Some(CpuNo(n as u8)),
        None => None,
    }
}

// The number of a decimal from `least` to `most`.
fn number_in(field: &[u8], least: u32, most: u32) -> Option<u32>
    ensures value { result ≡ number_in least most field.now }
    ensures range { IfSome result (λ n. (least ≤ n) × (n ≤ most)) }
{
    match read_decimal(field, u64::from(most)) {
        Some(n) if u64::from(least) <= n => Some(n as u32),
        _ => None,
    }
}

// The address of six capital hexadecimal digits.
fn address_in(field: &[u8]) -> Option<u32>
    ensures value { result ≡ address_text field.now }
    ensures range { IfSome result (λ n. n < 2 ^ 24) }
{
    match std::str::from_utf8(field) {
        Ok(text) => address(text),
        Err(_) => None,
    }
}

#[tactic(auto, unfolding(program_model::specs::Debugger::of_one_word))]
fn of_one(word: &[u8]) -> Option<Question>
    ensures value { result ≡ of_one_word word.now }
    ensures order { (cpus : ℕ) → IfSome result (IsInOrder cpus) }
{
    if is_word(word, b"console") {
        return Some(Question::Console);
    }
    if is_word(word, b"quit") {
        return Some(Question::Quit);
    }
    None
}

// How many bytes are asked for, from where on.
fn memory_at(at: &[u8], count: &[u8]) -> Option<Question>
    ensures value { result ≡ memory_if (address_text at.now) (number_in 1 64 count.now) }
    ensures order { (cpus : ℕ) → IfSome result (IsInOrder cpus) }
{
    let at = address_in(at)?;
    let count = number_in(count, 1, 64)?;
    Some(Question::Memory(at, count as u8))
}

#[tactic(auto, unfolding(program_model::specs::Debugger::of_two_words))]
fn of_two(cpus: u8, word: &[u8], field: &[u8]) -> Option<Question>
    requires { 1 ≤ cpus }
    ensures value { result ≡ of_two_words cpus word.now field.now }
    ensures order { IfSome result (IsInOrder cpus) }
{
    if is_word(word, b"turns") {
        return Some(Question::Turns(number_in(field, 1, 1_000_000)?));
    }
    if is_word(word, b"psw") {
        return Some(Question::Psw(cpu_in(cpus, field)?));
    }
    if is_word(word, b"regs") {
        return Some(Question::General(cpu_in(cpus, field)?));
    }
    if is_word(word, b"ctl") {
        return Some(Question::Control(cpu_in(cpus, field)?));
    }
    if is_word(word, b"prefix") {
        return Some(Question::Prefix(cpu_in(cpus, field)?));
    }
    if is_word(word, b"key") {
        return Some(Question::Key(address_in(field)?));
    }
    if is_word(word, b"cpu") {
        return Some(Question::Cpu(cpu_in(cpus, field)?));
    }
    None
}

#[tactic(auto, unfolding(program_model::specs::Debugger::of_three_words))]
fn of_three(word: &[u8], at: &[u8], count: &[u8]) -> Option<Question>
    ensures value { result ≡ of_three_words word.now at.now count.now }
    ensures order { (cpus : ℕ) → IfSome result (IsInOrder cpus) }
{
    if is_word(word, b"mem") {
        return memory_at(at, count);
    }
    None
}

fn of_fields(cpus: u8, line: &[u8]) -> Option<Question>
    requires { 1 ≤ cpus }
    ensures value { result ≡ of_words cpus (fields line.now) }
    ensures order { IfSome result (IsInOrder cpus) }
{
    match parted(line) {
        Parts::One(word) => of_one(word),
        Parts::Two(word, field) => of_two(cpus, word, field),
        Parts::Three(word, at, count) => of_three(word, at, count),
        Parts::Other => None,
    }
}

/// What a line without its line feed asks of a machine with so many CPUs, None exactly where it is
/// unknown.
#[tactic(auto, unfolding(program_model::specs::Debugger::question))]
pub fn question_of(line: &[u8], cpus: u8) -> Option<Question>
    requires { 1 ≤ cpus }
    ensures value { result ≡ question cpus line.now }
    ensures order { IfSome result (IsInOrder cpus) }
{
    if line.len() > 120 {
        return None;
    }
    of_fields(cpus, line)
}
