// Addresses and condition codes, as rows put them.
ghost use Rattle.std.specs.Prelude.{◌≡◌, ◌<◌, ◌^◌, slice_index};
ghost use Rattle.esa_model.specs.Line.{advanced, coded, first_at, indexed, second_at};

use esa_model::codes::STAYS;
use esa_model::instructions::Decoded;
use esa_model::machine::Registers;
use operand_access::effective;

/// The registers with the address of the next instruction, which is `len` bytes on.
#[tactic(auto, unfolding(esa_model::specs::Line::advanced))]
pub fn after(r: &Registers, len: u8) -> Registers
    ensures { result ≡ advanced r.now len }
{
    let next = r.psw.wrapped(u64::from(r.psw.address()) + u64::from(len));
    Registers {
        psw: r.psw.with_address(next),
        ..*r
    }
}

/// The registers with a condition code, or the one that they have where it stays.
pub fn with_code(r: Registers, code: u8) -> Registers
    requires { code < 5 }
    ensures { result ≡ coded r code }
{
    if code == STAYS {
        r
    } else {
        Registers {
            psw: r.psw.with_condition_code(code),
            ..r
        }
    }
}

/// The registers with the address of the next instruction and a condition code, or `STAYS` in its
/// place.
pub fn after_coded(r: &Registers, len: u8, code: u8) -> Registers
    requires { code < 5 }
    ensures { result ≡ coded (advanced r.now len) code }
{
    with_code(after(r, len), code)
}

/// A general register.
pub fn general_of(r: &Registers, n: u8) -> u32
    requires { n < 16 }
    ensures { result ≡ slice_index r.now.general n }
{
    r.general[n as usize]
}

/// The address of RX.
pub fn indexed_of(r: &Registers, d: &Decoded) -> u32
    requires base { d.now.b2 < 16 }
    requires index { d.now.r2 < 16 }
    requires displacement { d.now.d2 < 4096 }
    ensures address { result ≡ indexed r.now d.now }
    ensures small { result < 2 ^ 31 }
{
    effective(r, d.b2, d.r2, d.d2)
}

/// The second address of S, RS and SS.
pub fn second_of(r: &Registers, d: &Decoded) -> u32
    requires base { d.now.b2 < 16 }
    requires displacement { d.now.d2 < 4096 }
    ensures address { result ≡ second_at r.now d.now }
    ensures small { result < 2 ^ 31 }
{
    effective(r, d.b2, 0, d.d2)
}

/// The first address of SI and SS.
pub fn first_of(r: &Registers, d: &Decoded) -> u32
    requires base { d.now.b1 < 16 }
    requires displacement { d.now.d1 < 4096 }
    ensures address { result ≡ first_at r.now d.now }
    ensures small { result < 2 ^ 31 }
{
    effective(r, d.b1, 0, d.d1)
}
