// SPX, STPX and STAP.
ghost use Rattle.std.specs.Prelude.{◌≡◌, ◌<◌, ◌≤◌, ◌^◌, length};
ghost use Rattle.esa_model.specs.ControlRows.{prefix_bits, set_prefix as row_of_spx, store_prefix as row_of_stpx, store_number as row_of_stap};

use crate::outcome::{Controlled, change, keep, suppress};
use byteorder::{BigEndian, ByteOrder};
use esa_model::codes::ADDRESSING;
use esa_model::machine::{CpuNo, Registers};

/// Bits 1-19 of a word.
fn page_of(word: u32) -> u32
    ensures bits { result ≡ prefix_bits word }
    ensures small { result < 2 ^ 31 }
{
    word % 0x8000_0000 / 0x1000 * 0x1000
}

/// SPX.
#[tactic(auto, unfolding(esa_model::specs::ControlRows::set_prefix))]
pub fn set_prefix(r: &Registers, size: u32, operand: &[u8]) -> Controlled
    requires { 4 ≤ length operand.now }
    ensures { result ≡ row_of_spx r.now size operand.now }
{
    let prefix = page_of(BigEndian::read_u32(operand));
    if size < prefix + 0x1000 {
        return suppress(r, ADDRESSING);
    }
    change(Registers { prefix, ..*r })
}

/// STPX.
#[tactic(auto, unfolding(esa_model::specs::ControlRows::store_prefix))]
pub fn store_prefix(r: &Registers) -> Controlled
    ensures { result ≡ row_of_stpx r.now }
{
    let mut bytes = [0; 4];
    BigEndian::write_u32(&mut bytes, page_of(r.prefix));
    keep(*r, &bytes)
}

/// STAP.
#[tactic(auto, unfolding(esa_model::specs::ControlRows::store_number))]
pub fn store_number(r: &Registers, cpu: CpuNo) -> Controlled
    ensures { result ≡ row_of_stap r.now cpu.0 }
{
    let mut bytes = [0; 2];
    BigEndian::write_u16(&mut bytes, u16::from(cpu.0));
    keep(*r, &bytes)
}
