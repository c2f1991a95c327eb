//! Condition code and program mask as bits of a register.

ghost use Rattle.std.specs.Prelude.{◌≡◌, ◌+◌, ◌*◌, ◌%◌, ◌<◌, ◌^◌};
ghost use Rattle.esa_model.specs.Psw.{code_of, program_mask};
ghost use Rattle.esa_model.specs.BranchRows.{set_program_mask as row_of_spm, insert_program_mask as row_of_ipm};

use crate::registers::{first_of, psw_at, with_first, with_psw};
use esa_model::instructions::Decoded;
use esa_model::machine::{Psw, Registers};
use esa_model::words::bits;

/// SPM.
#[tactic(auto, unfolding(esa_model::specs::BranchRows::set_program_mask))]
pub(crate) fn set_program_mask(next: u32, r: &Registers, d: &Decoded) -> Registers
    requires { d.now.r1 < 16 }
    ensures { result ≡ row_of_spm next r.now d.now }
{
    let both = bits(first_of(r, d), 2, 7) as u8;
    with_psw(r, psw_at(r.psw, next).with_code_and_mask(both))
}

/// A word with condition code and program mask in place of its first byte.
fn with_code_and_mask(p: Psw, word: u32) -> u32
    ensures { result ≡ code_of p * 2 ^ 28 + program_mask p * 2 ^ 24 + word % 2 ^ 24 }
{
    u32::from(p.condition_code()) * 0x1000_0000
        + u32::from(p.program_mask()) * 0x100_0000
        + word % 0x100_0000
}

/// IPM.
#[tactic(auto, unfolding(esa_model::specs::BranchRows::insert_program_mask))]
pub(crate) fn insert_program_mask(next: u32, r: &Registers, d: &Decoded) -> Registers
    requires { d.now.r1 < 16 }
    ensures { result ≡ row_of_ipm next r.now d.now }
{
    let word = with_code_and_mask(r.psw, first_of(r, d));
    with_first(r, d, word, psw_at(r.psw, next))
}
