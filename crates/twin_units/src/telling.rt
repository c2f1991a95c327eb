// What a packet tells of an event.
ghost use Rattle.std.specs.Prelude.{◌≡◌, ◌==◌, ◌≤◌, if◌then◌else◌, length};
ghost use Rattle.esa_model.specs.Machine.{registers_after};
ghost use Rattle.esa_model.specs.Packet.{console_count, console_kind, fields, filled, first_piece, old_psw, piece_at};

use crate::done::Done;
use abs_storage::View;
use arrayvec::ArrayVec;
use esa_model::events::Interruption;
use esa_model::machine::{Psw, Registers};
use operand_access::place_of;
use result_packet::{
    Fields, interruption_number, key_block, key_byte, order_number, order_target, psw_left,
    taken_number, taken_sender,
};

/// The registers after an event: the new PSW of an interruption is fetched after all that is stored.
#[tactic(auto, unfolding(esa_model::specs::Machine::registers_after, esa_model::specs::Machine::psw_after, esa_model::specs::Machine::storage_after))]
fn registers_left<V: View>(r: &Registers, d: &Done, view: &mut V) -> Registers
    ensures registers { result ≡ registers_after r.now d.now (V.bytes view.old) }
    ensures same { V.bytes view.new ≡ V.bytes view.old }
{
    let stored = d.stored.as_slice();
    let mut left = d.registers;
    left.psw = psw_left(
        r,
        view,
        d.to,
        stored,
        d.interruption,
        left.psw,
        d.identification,
    );
    left
}

/// The PSW that an interruption stores, zeros where nothing interrupts.
fn old_of(interruption: Option<Interruption>, psw: Psw) -> Psw
    ensures { result ≡ old_psw interruption psw }
{
    match interruption {
        Some(_) => psw,
        None => Psw { w0: 0, w1: 0 },
    }
}

/// What is done with the console: 0 nothing, 1 a write, 2 a read, also where no byte was left.
fn console_of(read: Option<u16>, out: &[u8]) -> u8
    ensures { result ≡ console_kind read out.now }
{
    match read {
        Some(_) => 2,
        None => if out.is_empty() { 0 } else { 1 },
    }
}

/// How many bytes are read from the console or written to it.
fn count_of(read: Option<u16>, out: &[u8]) -> u16
    requires { length out.now ≤ 256 }
    ensures { result ≡ console_count read out.now }
{
    match read {
        Some(count) => count,
        None => out.len() as u16,
    }
}

/// The length of the first piece, which ends with its block of 4,096 bytes.
fn first_len_of(d: &Done) -> u16
    ensures len { result ≡ first_piece d.now }
    ensures most { result ≤ length d.now.stored }
{
    let stored = d.stored.len() as u32;
    let left = 4096 - d.to % 4096;
    stored.min(left) as u16
}

/// The absolute address of a piece, 0 where it has no byte.
fn place_for(r: &Registers, at: u64, len: u16) -> u32
    ensures { result ≡ piece_at r.now at len }
{
    if len == 0 { 0 } else { place_of(r, at) }
}

/// Eight slots of referenced blocks, zeros after those that there are.
fn slots_of(blocks: &ArrayVec<u16, 8>) -> [u16; 8]
    ensures { result ≡ filled 8 blocks.now.items }
{
    let mut slots = [0; 8];
    slots[..blocks.len()].copy_from_slice(blocks.as_slice());
    slots
}

/// 256 bytes: some, and zeros.
fn padded(bytes: &[u8]) -> [u8; 256]
    requires { length bytes.now ≤ 256 }
    ensures { result ≡ filled 256 bytes.now }
{
    let mut tail = [0; 256];
    tail[..bytes.len()].copy_from_slice(bytes);
    tail
}

/// The bytes that are stored, or else those for the console.
fn tail_of(d: &Done) -> [u8; 256]
    ensures { result ≡ filled 256 (if length d.now.stored == 0 then d.now.console_out else d.now.stored) }
{
    if d.stored.is_empty() {
        padded(d.console_out.as_slice())
    } else {
        padded(d.stored.as_slice())
    }
}

/// What the packet of an event of a CPU with the registers `r` tells, field by field.
#[tactic(auto, unfolding(esa_model::specs::Packet::fields))]
pub(crate) fn fields_of<V: View>(r: &Registers, d: &Done, view: &mut V) -> Fields
    ensures fields { result ≡ fields r.now d.now (V.bytes view.old) }
    ensures same { V.bytes view.new ≡ V.bytes view.old }
{
    let out = d.console_out.as_slice();
    let first_len = first_len_of(d);
    let second_len = d.stored.len() as u16 - first_len;
    let first_at = place_for(r, d.to as u64, first_len);
    let second_at = place_for(r, d.to as u64 + first_len as u64, second_len);
    Fields {
        registers: registers_left(r, d, view),
        kind: interruption_number(d.interruption),
        old: old_of(d.interruption, d.registers.psw),
        identification: d.identification,
        request: taken_number(d.taken),
        sender: taken_sender(d.taken),
        order_to: order_target(d.sent),
        order: order_number(d.sent),
        block: key_block(d.set_key),
        key: key_byte(d.set_key),
        console: console_of(d.console_in, out),
        count: count_of(d.console_in, out),
        first_len,
        first_at,
        second_len,
        second_at,
        block_count: d.blocks.len() as u8,
        blocks: slots_of(&d.blocks),
        tail: tail_of(d),
    }
}
