// SSM, STNSM, STOSM and LPSW.
ghost use Rattle.std.specs.Prelude.{◌≡◌, ◌≤◌, length};
ghost use Rattle.esa_model.specs.ControlRows.{with_mask as masked, set_system_mask as row_of_ssm, store_then_and as row_of_stnsm, store_then_or as row_of_stosm, load_psw as row_of_lpsw};

use crate::outcome::{Controlled, change, keep};
use byteorder::{BigEndian, ByteOrder};
use esa_model::instructions::Decoded;
use esa_model::machine::{Psw, Registers};

/// The registers with a system mask.
fn with_mask(r: &Registers, mask: u8) -> Registers
    ensures { result ≡ masked r.now mask }
{
    Registers {
        psw: r.psw.with_system_mask(mask),
        ..*r
    }
}

/// SSM.
#[tactic(auto, unfolding(esa_model::specs::ControlRows::set_system_mask))]
pub fn set_system_mask(r: &Registers, operand: &[u8]) -> Controlled
    requires { 1 ≤ length operand.now }
    ensures { result ≡ row_of_ssm r.now operand.now }
{
    change(with_mask(r, operand[0]))
}

/// STNSM.
#[tactic(auto, unfolding(esa_model::specs::ControlRows::store_then_and))]
pub fn store_then_and(r: &Registers, d: &Decoded) -> Controlled
    ensures { result ≡ row_of_stnsm r.now d.now }
{
    let mask = r.psw.system_mask();
    keep(with_mask(r, mask & (d.imm % 256) as u8), &[mask])
}

/// STOSM.
#[tactic(auto, unfolding(esa_model::specs::ControlRows::store_then_or))]
pub fn store_then_or(r: &Registers, d: &Decoded) -> Controlled
    ensures { result ≡ row_of_stosm r.now d.now }
{
    let mask = r.psw.system_mask();
    keep(with_mask(r, mask | (d.imm % 256) as u8), &[mask])
}

/// LPSW.
#[tactic(auto, unfolding(esa_model::specs::ControlRows::load_psw))]
pub fn load_psw(r: &Registers, operand: &[u8]) -> Controlled
    requires { 8 ≤ length operand.now }
    ensures { result ≡ row_of_lpsw r.now operand.now }
{
    change(Registers {
        psw: Psw {
            w0: BigEndian::read_u32(operand),
            w1: BigEndian::read_u32(&operand[4..]),
        },
        ..*r
    })
}
