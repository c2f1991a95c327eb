//! The registers and the PSW that a branch leaves.

ghost use Rattle.std.specs.Prelude.{◌≡◌, ◌<◌};
ghost use Rattle.esa_model.specs.BranchRows.{first, second, at_address, with_psw as psw_set, with_first as first_set, register_target as target_of};

use esa_model::instructions::Decoded;
use esa_model::machine::{Psw, Registers};

/// The word in R1.
pub(crate) fn first_of(r: &Registers, d: &Decoded) -> u32
    requires { d.now.r1 < 16 }
    ensures { result ≡ first r.now d.now }
{
    r.general[d.r1 as usize]
}

/// The word in R2 or R3.
pub(crate) fn second_of(r: &Registers, d: &Decoded) -> u32
    requires { d.now.r2 < 16 }
    ensures { result ≡ second r.now d.now }
{
    r.general[d.r2 as usize]
}

/// The PSW with an instruction address, in its mode.
#[tactic(auto, unfolding(esa_model::specs::BranchRows::at_address))]
pub(crate) fn psw_at(p: Psw, to: u32) -> Psw
    ensures { result ≡ at_address p to }
{
    p.with_address(p.wrapped(u64::from(to)))
}

/// The registers with another PSW.
pub(crate) fn with_psw(r: &Registers, psw: Psw) -> Registers
    ensures { result ≡ psw_set r.now psw }
{
    Registers { psw, ..*r }
}

/// The registers with a word in R1 and another PSW.
pub(crate) fn with_first(r: &Registers, d: &Decoded, word: u32, psw: Psw) -> Registers
    requires { d.now.r1 < 16 }
    ensures { result ≡ first_set r.now d.now word psw }
{
    let mut after = with_psw(r, psw);
    after.general[d.r1 as usize] = word;
    after
}

/// The branch address of a row of form RR: register number 0 does not branch.
pub(crate) fn register_target(r: &Registers, d: &Decoded, next: u32) -> u32
    requires { d.now.r2 < 16 }
    ensures { result ≡ target_of r.now d.now next }
{
    if d.r2 == 0 { next } else { second_of(r, d) }
}
