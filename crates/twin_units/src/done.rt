// What an event does.
ghost use Rattle.std.specs.Prelude.{◌≡◌, ◌≤◌, ◌^◌, Some, length};
ghost use Rattle.esa_model.specs.Access.{referenced};
ghost use Rattle.esa_model.specs.Unit.{carried, identified, interrupted, suppressed};
ghost use Rattle.operand_access.specs.Seen.{AreInside};

use arrayvec::ArrayVec;
use esa_model::events::{Interruption, KeySet, SentOrder, Taken};
use esa_model::machine::Registers;
use operand_access::{Operands, note_operands};
use row_frame::{Effect, after};
use std::marker::Model;

/// What an event does, as far as the PSW that an interruption stores.
#[derive(Drop)]
pub(crate) struct Done {
    pub registers: Registers,
    /// The effective address at which the stored bytes begin.
    pub to: u32,
    pub stored: ArrayVec<u8, 256>,
    pub console_out: ArrayVec<u8, 256>,
    /// How many bytes of the console input are read, where it is read.
    pub console_in: Option<u16>,
    /// The blocks of 4,096 bytes that are referenced, each once: those of the instruction, of the target
    /// of EX, of the first operand, of the second operand.
    pub blocks: ArrayVec<u16, 8>,
    pub set_key: Option<KeySet>,
    pub interruption: Option<Interruption>,
    pub identification: u32,
    pub taken: Option<Taken>,
    pub sent: Option<SentOrder>,
}

impl Model for Done {
    ghost use Rattle.esa_model.specs.Unit.{Done as Deed};

    ghost Value = { Deed };

    ghost view = { λ d. record {
      registers = d.registers;
      to = d.to;
      stored = d.stored.items;
      console_out = d.console_out.items;
      console_in = d.console_in;
      blocks = d.blocks.items;
      set_key = d.set_key;
      interruption = d.interruption;
      identification = d.identification;
      taken = d.taken;
      sent = d.sent;
    } };
}

/// An interruption and nothing else, with the blocks that were referenced before; nothing at all where
/// there is no interruption.
pub(crate) fn interrupt(
    registers: Registers,
    interruption: Option<Interruption>,
    identification: u32,
    blocks: ArrayVec<u16, 8>,
) -> Done
    ensures { result ≡ interrupted registers interruption identification blocks.items }
{
    Done {
        registers,
        to: 0,
        stored: ArrayVec::new(),
        console_out: ArrayVec::new(),
        console_in: None,
        blocks,
        set_key: None,
        interruption,
        identification,
        taken: None,
        sent: None,
    }
}

/// A unit of `len` bytes that a program exception suppresses.
#[tactic(auto, unfolding(esa_model::specs::Unit::suppressed))]
pub(crate) fn suppress(r: &Registers, len: u8, code: u8, blocks: ArrayVec<u16, 8>) -> Done
    ensures done { result ≡ suppressed r.now len code blocks.items }
{
    let identification = len as u32 * 0x1_0000 + code as u32;
    interrupt(
        after(r, len),
        Some(Interruption::Program),
        identification,
        blocks,
    )
}

/// The identification of the interruption that an effect ends with, 0 where there is none.
fn identify(interruption: Option<Interruption>, len: u8, code: u8) -> u32
    ensures { result ≡ identified interruption len code }
{
    match interruption {
        Some(_) => len as u32 * 0x1_0000 + code as u32,
        None => 0,
    }
}

/// An effect that nothing suppresses.
#[tactic(auto, unfolding(esa_model::specs::Unit::carried))]
pub(crate) fn carry(
    r: &Registers,
    len: u8,
    os: &Operands,
    e: Effect,
    mut blocks: ArrayVec<u16, 8>,
) -> Done
    requires inside { AreInside r.now (2 ^ 24) os.now }
    requires room { length blocks.items ≤ 4 }
    ensures done { result ≡ carried r.now len os.now e blocks.items }
    ensures few { length (referenced r.now os.now blocks.items) ≤ 8 }
{
    note_operands(r, os, &mut blocks);
    Done {
        registers: e.registers,
        to: os.first.at,
        stored: e.stored,
        console_out: e.console_out,
        console_in: e.console_in,
        blocks,
        set_key: e.set_key,
        interruption: e.interruption,
        identification: identify(e.interruption, len, e.code),
        taken: None,
        sent: e.sent,
    }
}
