//! Branching on a condition code, a count or an index.

ghost use Rattle.std.specs.Prelude.{◌≡◌, ◌<◌};
ghost use Rattle.esa_model.specs.BranchRows.{is_selected, less_one, index_of as index, comparand, is_high};
ghost use Rattle.esa_model.specs.BranchRows.{branch_on_condition as row_of_bc, branch_on_condition_register as row_of_bcr, branch_on_count as row_of_bct, branch_on_count_register as row_of_bctr, branch_on_index_high as row_of_bxh, branch_on_index_low_or_equal as row_of_bxle};

use crate::registers::{first_of, psw_at, register_target, second_of, with_first, with_psw};
use esa_model::instructions::Decoded;
use esa_model::machine::Registers;
use esa_model::words::signed32;

/// Whether a mask selects a condition code.
fn selects(mask: u8, code: u8) -> bool
    requires { code < 4 }
    ensures { result ≡ is_selected mask code }
{
    (mask >> (3 - code)) % 2 == 1
}

/// BC and BRC.
#[tactic(auto, unfolding(esa_model::specs::BranchRows::branch_on_condition))]
pub(crate) fn branch_on_condition(next: u32, target: u32, r: &Registers, d: &Decoded) -> Registers
    ensures { result ≡ row_of_bc next target r.now d.now }
{
    let taken = selects(d.r1, r.psw.condition_code());
    with_psw(r, psw_at(r.psw, if taken { target } else { next }))
}

/// BCR.
#[tactic(auto, unfolding(esa_model::specs::BranchRows::branch_on_condition_register))]
pub(crate) fn branch_on_condition_register(next: u32, r: &Registers, d: &Decoded) -> Registers
    requires { d.now.r2 < 16 }
    ensures { result ≡ row_of_bcr next r.now d.now }
{
    branch_on_condition(next, register_target(r, d, next), r, d)
}

/// One less, modulo 2^32.
fn decrement(word: u32) -> u32
    ensures { result ≡ less_one word }
{
    word.wrapping_sub(1)
}

/// BCT and BRCT.
#[tactic(auto, unfolding(esa_model::specs::BranchRows::branch_on_count))]
pub(crate) fn branch_on_count(next: u32, target: u32, r: &Registers, d: &Decoded) -> Registers
    requires { d.now.r1 < 16 }
    ensures { result ≡ row_of_bct next target r.now d.now }
{
    let count = decrement(first_of(r, d));
    let to = if count == 0 { next } else { target };
    with_first(r, d, count, psw_at(r.psw, to))
}

/// BCTR.
#[tactic(auto, unfolding(esa_model::specs::BranchRows::branch_on_count_register))]
pub(crate) fn branch_on_count_register(next: u32, r: &Registers, d: &Decoded) -> Registers
    requires first { d.now.r1 < 16 }
    requires second { d.now.r2 < 16 }
    ensures { result ≡ row_of_bctr next r.now d.now }
{
    branch_on_count(next, register_target(r, d, next), r, d)
}

/// The sum of R1 and R3, modulo 2^32.
fn index_of(r: &Registers, d: &Decoded) -> u32
    requires first { d.now.r1 < 16 }
    requires second { d.now.r2 < 16 }
    ensures { result ≡ index r.now d.now }
{
    first_of(r, d).wrapping_add(second_of(r, d))
}

/// R3 where its number is odd, else its odd neighbour.
fn comparand_of(r: &Registers, d: &Decoded) -> u32
    requires { d.now.r2 < 16 }
    ensures { result ≡ comparand r.now d.now }
{
    r.general[(d.r2 / 2 * 2 + 1) as usize]
}

/// Whether the sum is above the comparand.
fn is_index_high(r: &Registers, d: &Decoded) -> bool
    requires first { d.now.r1 < 16 }
    requires second { d.now.r2 < 16 }
    ensures { result ≡ is_high r.now d.now }
{
    signed32(comparand_of(r, d)) < signed32(index_of(r, d))
}

/// BXH and BRXH.
#[tactic(auto, unfolding(esa_model::specs::BranchRows::branch_on_index_high))]
pub(crate) fn branch_on_index_high(next: u32, target: u32, r: &Registers, d: &Decoded) -> Registers
    requires first { d.now.r1 < 16 }
    requires second { d.now.r2 < 16 }
    ensures { result ≡ row_of_bxh next target r.now d.now }
{
    let to = if is_index_high(r, d) { target } else { next };
    with_first(r, d, index_of(r, d), psw_at(r.psw, to))
}

/// BXLE and BRXLE.
#[tactic(auto, unfolding(esa_model::specs::BranchRows::branch_on_index_low_or_equal))]
pub(crate) fn branch_on_index_low_or_equal(
    next: u32,
    target: u32,
    r: &Registers,
    d: &Decoded,
) -> Registers
    requires first { d.now.r1 < 16 }
    requires second { d.now.r2 < 16 }
    ensures { result ≡ row_of_bxle next target r.now d.now }
{
    let to = if is_index_high(r, d) { next } else { target };
    with_first(r, d, index_of(r, d), psw_at(r.psw, to))
}
