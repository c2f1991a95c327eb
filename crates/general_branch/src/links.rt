//! Branching with a link.

ghost use Rattle.std.specs.Prelude.{◌≡◌, ◌<◌};
ghost use Rattle.esa_model.specs.BranchRows.{link_of as link, save_of as save, wide_link, branch_and_link as row_of_bal, branch_and_link_register as row_of_balr, branch_and_save as row_of_bas, branch_and_save_register as row_of_basr};

use crate::registers::{psw_at, register_target, with_first};
use esa_model::instructions::Decoded;
use esa_model::machine::{Psw, Registers};

/// The link of 31-bit mode.
fn wide_link_of(next: u32) -> u32
    ensures { result ≡ wide_link next }
{
    0x8000_0000 + next % 0x8000_0000
}

/// The link of BRANCH AND LINK.
#[tactic(auto, unfolding(esa_model::specs::BranchRows::link_of))]
fn link_of(p: Psw, length: u8, next: u32) -> u32
    ensures { result ≡ link p length next }
{
    if p.is_wide() {
        wide_link_of(next)
    } else {
        u32::from(length % 4) * 0x4000_0000
            + u32::from(p.condition_code()) * 0x1000_0000
            + u32::from(p.program_mask()) * 0x100_0000
            + next % 0x100_0000
    }
}

/// The link of BRANCH AND SAVE.
#[tactic(auto, unfolding(esa_model::specs::BranchRows::save_of))]
pub(crate) fn save_of(p: Psw, next: u32) -> u32
    ensures { result ≡ save p next }
{
    if p.is_wide() {
        wide_link_of(next)
    } else {
        next % 0x100_0000
    }
}

/// BAL.
#[tactic(auto, unfolding(esa_model::specs::BranchRows::branch_and_link))]
pub(crate) fn branch_and_link(
    length: u8,
    next: u32,
    target: u32,
    r: &Registers,
    d: &Decoded,
) -> Registers
    requires { d.now.r1 < 16 }
    ensures { result ≡ row_of_bal length next target r.now d.now }
{
    with_first(r, d, link_of(r.psw, length, next), psw_at(r.psw, target))
}

/// BALR.
#[tactic(auto, unfolding(esa_model::specs::BranchRows::branch_and_link_register))]
pub(crate) fn branch_and_link_register(
    length: u8,
    next: u32,
    r: &Registers,
    d: &Decoded,
) -> Registers
    requires first { d.now.r1 < 16 }
    requires second { d.now.r2 < 16 }
    ensures { result ≡ row_of_balr length next r.now d.now }
{
    branch_and_link(length, next, register_target(r, d, next), r, d)
}

/// BAS and BRAS.
#[tactic(auto, unfolding(esa_model::specs::BranchRows::branch_and_save))]
pub(crate) fn branch_and_save(next: u32, target: u32, r: &Registers, d: &Decoded) -> Registers
    requires { d.now.r1 < 16 }
    ensures { result ≡ row_of_bas next target r.now d.now }
{
    with_first(r, d, save_of(r.psw, next), psw_at(r.psw, target))
}

/// BASR.
#[tactic(auto, unfolding(esa_model::specs::BranchRows::branch_and_save_register))]
pub(crate) fn branch_and_save_register(next: u32, r: &Registers, d: &Decoded) -> Registers
    requires first { d.now.r1 < 16 }
    requires second { d.now.r2 < 16 }
    ensures { result ≡ row_of_basr next r.now d.now }
{
    branch_and_save(next, register_target(r, d, next), r, d)
}
