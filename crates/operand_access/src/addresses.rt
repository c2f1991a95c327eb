ghost use Rattle.std.specs.Prelude.{◌≡◌, ◌+◌, ◌<◌, ◌^◌};
ghost use Rattle.esa_model.specs.Access.{place};
ghost use Rattle.esa_model.specs.Line.{part as part_of, effective as effective_of};
ghost use Rattle.esa_model.specs.Relative.{relative as relative_to};

use abs_storage::absolute;
use esa_model::machine::Registers;

/// A register in an address: number 0 counts as zero.
fn part(r: &Registers, n: u8) -> u32
    requires { n < 16 }
    ensures { result ≡ part_of r.now n }
{
    if n == 0 { 0 } else { r.general[n as usize] }
}

/// The sum of base, index and displacement in the mode of the PSW; a register number 0 counts as
/// zero. Source: Principles of Operation, chapter on program execution (address generation).
#[tactic(auto, unfolding(esa_model::specs::Line::effective))]
pub fn effective(r: &Registers, base: u8, index: u8, displacement: u16) -> u32
    requires base { base < 16 }
    requires index { index < 16 }
    requires displacement { displacement < 4096 }
    ensures address { result ≡ effective_of r.now base index displacement }
    ensures small { result < 2 ^ 31 }
{
    r.psw.wrapped(part(r, base) as u64 + part(r, index) as u64 + displacement as u64)
}

/// The address as many halfwords from `at` as the signed number says, in the mode of the PSW.
/// Source: Principles of Operation, chapter on program execution (relative branch addresses).
#[tactic(auto, unfolding(esa_model::specs::Relative::relative))]
pub fn relative(r: &Registers, at: u32, halfwords: u16) -> u32
    ensures address { result ≡ relative_to r.now at halfwords }
    ensures small { result < 2 ^ 31 }
{
    let forward = at as u64 + 2 * halfwords as u64;
    if halfwords < 0x8000 {
        r.psw.wrapped(forward)
    } else {
        r.psw.wrapped(forward + 0x7FFE_0000)
    }
}

/// The absolute address of an effective one.
#[tactic(auto, unfolding(esa_model::specs::Access::place))]
pub fn place_of(r: &Registers, n: u64) -> u32
    ensures { result ≡ place r.now n }
{
    absolute(r.prefix, r.psw.wrapped(n))
}
