// STCTL and LCTL.
ghost use Rattle.std.specs.Prelude.{◌≡◌, ◌≤◌, ◌<◌, ◌+◌, ◌*◌, ◌++◌, length, map};
ghost use Rattle.std.specs.List.{range_with_len};
ghost use Rattle.arrayvec.specs.ArrayVec.{array_vec_len};
ghost use Rattle.byteorder.specs.Endian.{big_bytes};
ghost use Rattle.esa_model.specs.Line.{register_count as count_of};
ghost use Rattle.esa_model.specs.ControlRows.{loaded_register, store_control as row_of_stctl, load_control as row_of_lctl};

use crate::outcome::{Controlled, change};
use arrayvec::ArrayVec;
use byteorder::{BigEndian, ByteOrder};
use esa_model::instructions::Decoded;
use esa_model::machine::Registers;

/// How many registers are named: R1 to R3, 0 after 15.
pub fn register_count(d: &Decoded) -> u8
    requires first { d.now.r1 < 16 }
    requires second { d.now.r2 < 16 }
    ensures count { result ≡ count_of d.now }
    ensures some { 1 ≤ result }
    ensures most { result ≤ 16 }
{
    (d.r2 + 16 - d.r1) % 16 + 1
}

/// A word at the end of a list.
fn append(list: &mut ArrayVec<u8, 64>, word: u32)
    requires { array_vec_len list.old + 4 ≤ 64 }
    ensures items { list.new.items ≡ list.old.items ++ big_bytes 4 word }
    ensures len { array_vec_len list.new ≡ array_vec_len list.old + 4 }
{
    let mut bytes = [0; 4];
    BigEndian::write_u32(&mut bytes, word);
    let _ = list.try_extend_from_slice(&bytes);
}

/// STCTL.
#[tactic(auto, unfolding(esa_model::specs::ControlRows::store_control))]
pub fn store_control(r: &Registers, d: &Decoded) -> Controlled
    requires first { d.now.r1 < 16 }
    requires second { d.now.r2 < 16 }
    ensures { result ≡ row_of_stctl r.now d.now }
{
    let mut stored = ArrayVec::new();
    for k in 0..register_count(d) {
        append(&mut stored, r.control[((d.r1 + k) % 16) as usize]);
    }
    Controlled {
        registers: *r,
        stored,
        set_key: None,
        fault: 0,
    }
}

/// Register `n` after LCTL.
fn load_register(r: &Registers, d: &Decoded, operand: &[u8], n: u8) -> u32
    requires first { d.now.r1 < 16 }
    requires second { d.now.r2 < 16 }
    requires bytes { length operand.now ≡ 4 * count_of d.now }
    requires number { n < 16 }
    ensures { result ≡ loaded_register r.now d.now operand.now n }
{
    let k = (n + 16 - d.r1) % 16;
    if k < register_count(d) {
        BigEndian::read_u32(&operand[4 * k as usize..])
    } else {
        r.control[n as usize]
    }
}

/// All control registers after LCTL.
fn load_all(r: &Registers, d: &Decoded, operand: &[u8]) -> [u32; 16]
    requires first { d.now.r1 < 16 }
    requires second { d.now.r2 < 16 }
    requires bytes { length operand.now ≡ 4 * count_of d.now }
    ensures { result ≡ map (loaded_register r.now d.now operand.now) (range_with_len 0 16) }
{
    let mut control = [0; 16];
    for n in 0..16 {
        control[n as usize] = load_register(r, d, operand, n);
    }
    control
}

/// LCTL.
#[tactic(auto, unfolding(esa_model::specs::ControlRows::load_control))]
pub fn load_control(r: &Registers, d: &Decoded, operand: &[u8]) -> Controlled
    requires first { d.now.r1 < 16 }
    requires second { d.now.r2 < 16 }
    requires bytes { length operand.now ≡ 4 * count_of d.now }
    ensures { result ≡ row_of_lctl r.now d.now operand.now }
{
    change(Registers {
        control: load_all(r, d, operand),
        ..*r
    })
}
