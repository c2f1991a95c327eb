// ISKE, RRBE and SSKE.
ghost use Rattle.std.specs.Prelude.{◌≡◌, ◌<◌, Some};
ghost use Rattle.esa_model.specs.ControlRows.{changes, insert_key as row_of_iske, reset_reference as row_of_rrbe, set_key_from as row_of_sske};

use crate::outcome::{Controlled, change};
use arrayvec::ArrayVec;
use esa_model::instructions::Decoded;
use esa_model::machine::Registers;

/// Registers, and a key that is set.
fn set_key(registers: Registers, key: u8) -> Controlled
    ensures { result ≡ record (changes registers) { set_key = Some key } }
{
    Controlled {
        registers,
        stored: ArrayVec::new(),
        set_key: Some(key),
        fault: 0,
    }
}

/// ISKE.
#[tactic(auto, unfolding(esa_model::specs::ControlRows::insert_key))]
pub fn insert_key(r: &Registers, key: u8, d: &Decoded) -> Controlled
    requires { d.now.r1 < 16 }
    ensures { result ≡ row_of_iske r.now key d.now }
{
    let n = d.r1 as usize;
    let mut out = *r;
    out.general[n] = r.general[n] / 256 * 256 + u32::from(key / 2 * 2);
    change(out)
}

/// RRBE.
#[tactic(auto, unfolding(esa_model::specs::ControlRows::reset_reference))]
pub fn reset_reference(r: &Registers, key: u8) -> Controlled
    ensures { result ≡ row_of_rrbe r.now key }
{
    let code = key / 4 % 2 * 2 + key / 2 % 2;
    let out = Registers {
        psw: r.psw.with_condition_code(code),
        ..*r
    };
    set_key(out, key / 8 * 8 + key % 4)
}

/// SSKE.
#[tactic(auto, unfolding(esa_model::specs::ControlRows::set_key_from))]
pub fn set_key_from(r: &Registers, d: &Decoded) -> Controlled
    requires { d.now.r1 < 16 }
    ensures { result ≡ row_of_sske r.now d.now }
{
    set_key(*r, (r.general[d.r1 as usize] % 256 / 2 * 2) as u8)
}
