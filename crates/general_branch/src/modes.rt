//! Branching with a change of the addressing mode.

ghost use Rattle.std.specs.Prelude.{◌≡◌, ◌+◌, ◌*◌, ◌%◌, ◌<◌, ◌^◌};
ghost use Rattle.esa_model.specs.Psw.{mode_bit};
ghost use Rattle.esa_model.specs.BranchRows.{by_mode, branch_and_set_mode as row_of_bsm, branch_and_save_and_set_mode as row_of_bassm};

use crate::links::save_of;
use crate::registers::{first_of, psw_at, second_of, with_first, with_psw};
use esa_model::instructions::Decoded;
use esa_model::machine::{Psw, Registers};

/// The PSW with mode and address by R2; register number 0 changes neither.
fn psw_by_mode(r: &Registers, d: &Decoded, next: u32) -> Psw
    requires { d.now.r2 < 16 }
    ensures { result ≡ by_mode r.now d.now next }
{
    if d.r2 == 0 {
        psw_at(r.psw, next)
    } else {
        r.psw.in_mode(second_of(r, d))
    }
}

/// A word with the addressing mode as its bit 0.
fn with_mode(p: Psw, word: u32) -> u32
    ensures { result ≡ mode_bit p * 2 ^ 31 + word % 2 ^ 31 }
{
    p.mode_bit() * 0x8000_0000 + word % 0x8000_0000
}

/// BSM.
#[tactic(auto, unfolding(esa_model::specs::BranchRows::branch_and_set_mode))]
pub(crate) fn branch_and_set_mode(next: u32, r: &Registers, d: &Decoded) -> Registers
    requires first { d.now.r1 < 16 }
    requires second { d.now.r2 < 16 }
    ensures { result ≡ row_of_bsm next r.now d.now }
{
    let p = psw_by_mode(r, d, next);
    if d.r1 == 0 {
        with_psw(r, p)
    } else {
        with_first(r, d, with_mode(r.psw, first_of(r, d)), p)
    }
}

/// BASSM.
#[tactic(auto, unfolding(esa_model::specs::BranchRows::branch_and_save_and_set_mode))]
pub(crate) fn branch_and_save_and_set_mode(next: u32, r: &Registers, d: &Decoded) -> Registers
    requires first { d.now.r1 < 16 }
    requires second { d.now.r2 < 16 }
    ensures { result ≡ row_of_bassm next r.now d.now }
{
    with_first(r, d, save_of(r.psw, next), psw_by_mode(r, d, next))
}
