//! MVN, MVC, MVZ, NC, OC, XC, CLC and TRT on strings of bytes.

ghost use Rattle.std.specs.Prelude.{◌≡◌, ◌+◌, ◌<◌, ◌≤◌, IsTrue, IfSome, position, length, slice_range, ◌==◌, if◌then◌else◌};
ghost use Rattle.std.specs.List.{list_all};
ghost use Rattle.esa_model.specs.Moves.{is_move, is_logical, combined, merged, moved, is_zero, move_code, compare_code, has_function, hit_of};

use esa_model::codes::STAYS;
use esa_model::long_operands::Hit;
use std::cmp::Ordering;

/// The byte that is stored over `a`, from the byte `b` of the second operand, by the opcode of MVN,
/// MVC, MVZ, NC, OC or XC. Source: Principles of Operation, chapter on general instructions.
#[tactic(auto, unfolding(esa_model::specs::Moves::combined))]
pub fn combine(op: u8, a: u8, b: u8) -> u8
    requires { IsTrue (is_move op) }
    ensures { result ≡ combined op a b }
{
    match op {
        0xD1 => a / 16 * 16 + b % 16, // MVN
        0xD2 => b, // MVC
        0xD3 => b / 16 * 16 + a % 16, // MVZ
        0xD4 => a & b, // NC
        0xD6 => a | b, // OC
        0xD7 => a ^ b, // XC
        _ => unreachable!(),
    }
}

fn are_all_zero(stored: &[u8]) -> bool
    ensures { result ≡ list_all is_zero stored.now }
{
    stored.iter().all(|b| *b == 0)
}

/// The condition code of a row that stored these bytes: of NC, OC and XC 0 where all are zero and
/// else 1; it stays at the others. Source: Principles of Operation, chapter on general
/// instructions.
#[tactic(auto, unfolding(esa_model::specs::Moves::move_code))]
pub fn code_of(op: u8, stored: &[u8]) -> u8
    ensures code { result ≡ move_code op stored.now }
    ensures small { result < 5 }
{
    match op {
        0xD4 | 0xD6 | 0xD7 => u8::from(!are_all_zero(stored)),
        _ => STAYS,
    }
}

/// The condition code of CLC: 0 equal, 1 first low, 2 first high, by the first unequal pair of
/// bytes.
/// Source: Principles of Operation, chapter on general instructions.
#[tactic(auto, unfolding(esa_model::specs::Moves::compare_code))]
pub fn compare_bytes(first: &[u8], second: &[u8]) -> u8
    ensures { result ≡ compare_code first.now second.now }
{
    match first.cmp(&second) {
        Ordering::Equal => 0,
        Ordering::Less => 1,
        Ordering::Greater => 2,
    }
}

/// Stores each combined byte; the operands do not overlap.
fn merge(op: u8, first: &mut [u8], second: &[u8])
    requires row { IsTrue (is_move op) }
    requires same { length first.old ≡ length second.now }
    ensures { first.new ≡ merged op first.old second.now }
{
    for i in 0..first.len() {
        first[i] = combine(op, first[i], second[i]);
    }
}

/// MVN, MVC, MVZ, NC, CLC, OC and XC (X'D1' to X'D7') on two operands that do not overlap: gives
/// the condition code, or the one that stays. CLC stores nothing. Source: Principles of Operation,
/// chapter on general instructions.
pub fn logical(op: u8, first: &mut [u8], second: &[u8]) -> u8
    requires row { IsTrue (is_logical op) }
    requires some { 1 ≤ length first.old }
    requires few { length first.old ≤ 256 }
    requires same { length first.old ≡ length second.now }
    ensures stored { first.new ≡ (if op == 0xD5 then first.old
        else merged op first.old second.now) }
    ensures code { result ≡ (if op == 0xD5 then compare_code first.old second.now
        else move_code op first.new) }
{
    if op == 0xD5 {
        return compare_bytes(first, second);
    }
    merge(op, first, second);
    code_of(op, first)
}

/// MVN, MVC, MVZ, NC, OC and XC on two operands of `len` bytes in one area, at the places `to` and
/// `from`, byte by byte from the left: gives the condition code, or the one that stays. Source:
/// Principles of Operation, chapter on general instructions.
pub fn overlapped(op: u8, area: &mut [u8], to: usize, from: usize, len: usize) -> u8
    requires row { IsTrue (is_move op) }
    requires first { to + len ≤ length area.old }
    requires second { from + len ≤ length area.old }
    ensures stored { area.new ≡ moved op to from len area.old }
    ensures code { result ≡ move_code op (slice_range area.new to (to + len)) }
{
    for i in 0..len {
        area[to + i] = combine(op, area[to + i], area[from + i]);
    }
    code_of(op, &area[to..to + len])
}

/// The place of the first byte whose function byte is not zero.
fn place_of_hit(first: &[u8], functions: &[u8; 256]) -> Option<usize>
    ensures value { result ≡ position (has_function functions.now) first.now }
    ensures within { IfSome result (λ i. i < length first.now) }
{
    first.iter().position(|b| functions[usize::from(*b)] != 0)
}

/// TRT (X'DD'): the first byte from the left whose function byte is not zero, None where there is
/// none. Source: Principles of Operation, chapter on general instructions.
#[tactic(auto, unfolding(esa_model::specs::Moves::hit_of))]
pub fn translate_test(first: &[u8], functions: &[u8; 256]) -> Option<Hit>
    requires some { 1 ≤ length first.now }
    requires few { length first.now ≤ 256 }
    ensures { result ≡ hit_of first.now functions.now }
{
    match place_of_hit(first, functions) {
        Some(i) => Some(Hit {
            at: i as u16,
            function: functions[usize::from(first[i])],
        }),
        None => None,
    }
}
