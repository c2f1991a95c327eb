// What an operation does.
ghost use Rattle.std.specs.Prelude.{◌≡◌, ◌+◌, ◌<◌};
ghost use Rattle.esa_model.specs.Line.{ended, interrupts_after, is_overflow as is_any_overflow};
ghost use Rattle.esa_model.specs.Line.{leaves, pair_valued, refuses, stores, valued};
ghost use Rattle.esa_model.specs.Line.{with_pair, with_value};
ghost use Rattle.row_frame.specs.Made.{IsPlain, IsQuiet};

use crate::addresses::{after, with_code};
use arrayvec::ArrayVec;
use esa_model::codes::{DECIMAL_OVERFLOW, FIXED_OVERFLOW};
use esa_model::events::{Interruption, KeySet, SentOrder};
use esa_model::instructions::Decoded;
use esa_model::machine::{Psw, Registers, Value};
use std::marker::Model;

/// What an operation does, before the PSW swap of an interruption.
#[derive(Drop)]
pub struct Effect {
    pub registers: Registers,
    /// The bytes that go to the first operand, from its front.
    pub stored: ArrayVec<u8, 256>,
    pub console_out: ArrayVec<u8, 256>,
    /// How many bytes of the console input are read, where it is read.
    pub console_in: Option<u16>,
    pub set_key: Option<KeySet>,
    /// An order to another CPU that was accepted.
    pub sent: Option<SentOrder>,
    /// The interruption after it, program or supervisor call.
    pub interruption: Option<Interruption>,
    /// The code of that interruption.
    pub code: u8,
    /// The program code that suppresses it, or 0.
    pub fault: u8,
}

impl Model for Effect {
    ghost use Rattle.esa_model.specs.Line.{Effect as What};

    ghost Value = { What };

    ghost view = { λ e. record {
      registers = e.registers;
      stored = e.stored.items;
      console_out = e.console_out.items;
      console_in = e.console_in;
      set_key = e.set_key;
      sent = e.sent;
      interruption = e.interruption;
      code = e.code;
      fault = e.fault;
    } };
}

/// The registers alone.
pub fn leave(registers: Registers) -> Effect
    ensures { result ≡ leaves registers }
{
    Effect {
        registers,
        stored: ArrayVec::new(),
        console_out: ArrayVec::new(),
        console_in: None,
        set_key: None,
        sent: None,
        interruption: None,
        code: 0,
        fault: 0,
    }
}

/// The registers, and bytes for the first operand.
pub fn store(registers: Registers, stored: ArrayVec<u8, 256>) -> Effect
    ensures { result ≡ stores registers stored.items }
{
    let mut effect = leave(registers);
    effect.stored = stored;
    effect
}

/// The registers, and bytes for the console.
pub fn write(registers: Registers, console_out: ArrayVec<u8, 256>) -> Effect
    ensures { result ≡ record (leaves registers) { console_out = console_out.items } }
{
    let mut effect = leave(registers);
    effect.console_out = console_out;
    effect
}

/// Nothing but a program exception.
pub fn refuse(registers: Registers, fault: u8) -> Effect
    ensures { result ≡ refuses registers fault }
{
    let mut effect = leave(registers);
    effect.fault = fault;
    effect
}

/// The registers with a value in R1, its condition code, and the address of the next instruction.
#[tactic(auto, unfolding(esa_model::specs::Line::with_value, esa_model::specs::Line::advanced))]
fn put_value(r: &Registers, d: &Decoded, len: u8, v: &Value) -> Registers
    requires target { d.now.r1 < 16 }
    requires code { v.now.cc < 5 }
    ensures { result ≡ with_value r.now d.now.r1 len v.now }
{
    let mut out = after(r, len);
    out.general[d.r1 as usize] = v.word;
    with_code(out, v.cc)
}

/// The same with a pair in R1, whose number is even, and its odd neighbour.
#[tactic(auto, unfolding(esa_model::specs::Line::with_pair, esa_model::specs::Line::advanced))]
fn put_pair(r: &Registers, d: &Decoded, len: u8, v: &Value) -> Registers
    requires target { d.now.r1 + 1 < 16 }
    requires code { v.now.cc < 5 }
    ensures { result ≡ with_pair r.now d.now.r1 len v.now }
{
    let mut out = after(r, len);
    out.general[d.r1 as usize] = v.word;
    out.general[d.r1 as usize + 1] = v.low;
    with_code(out, v.cc)
}

/// Whether a program code is that of a fixed-point or of a decimal overflow.
fn is_overflow(fault: u8) -> bool
    ensures { result ≡ is_any_overflow fault }
{
    fault == FIXED_OVERFLOW || fault == DECIMAL_OVERFLOW
}

/// Whether an overflow interrupts after completion, by its bit of the program mask.
/// Source: Principles of Operation, chapter on interruptions (program).
pub fn interrupts(psw: Psw, fault: u8) -> bool
    ensures { result ≡ interrupts_after psw fault }
{
    (fault == FIXED_OVERFLOW && psw.overflow_interrupts())
        || (fault == DECIMAL_OVERFLOW && psw.decimal_interrupts())
}

/// The effect that ends with a program code or 0: an overflow completes, and then interrupts or
/// not; any other code suppresses.
pub fn end(registers: Registers, interrupts: bool, fault: u8) -> Effect
    ensures effect { result ≡ ended registers interrupts fault }
    ensures plain { IsPlain result }
    ensures quiet { IsQuiet result }
{
    if !is_overflow(fault) {
        return refuse(registers, fault);
    }
    let mut effect = leave(registers);
    if interrupts {
        effect.interruption = Some(Interruption::Program);
        effect.code = fault;
    }
    effect
}

/// A value put into R1.
#[tactic(auto, unfolding(esa_model::specs::Line::valued))]
pub fn value(r: &Registers, d: &Decoded, len: u8, v: &Value) -> Effect
    requires target { d.now.r1 < 16 }
    requires code { v.now.cc < 5 }
    ensures effect { result ≡ valued r.now d.now.r1 len v.now }
    ensures plain { IsPlain result }
    ensures quiet { IsQuiet result }
{
    end(put_value(r, d, len, v), interrupts(r.psw, v.fault), v.fault)
}

/// A value of two words put into a pair.
#[tactic(auto, unfolding(esa_model::specs::Line::pair_valued))]
pub fn pair_value(r: &Registers, d: &Decoded, len: u8, v: &Value) -> Effect
    requires target { d.now.r1 + 1 < 16 }
    requires code { v.now.cc < 5 }
    ensures effect { result ≡ pair_valued r.now d.now.r1 len v.now }
    ensures plain { IsPlain result }
    ensures quiet { IsQuiet result }
{
    end(put_pair(r, d, len, v), interrupts(r.psw, v.fault), v.fault)
}
