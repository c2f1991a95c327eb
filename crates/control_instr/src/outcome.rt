// What a row makes.
ghost use Rattle.std.specs.Prelude.{◌≡◌, ◌≤◌, length};
ghost use Rattle.esa_model.specs.ControlRows.{changes, keeps, suppresses};

use arrayvec::ArrayVec;
use esa_model::machine::Registers;
use std::marker::Model;

/// What a control instruction makes: the registers after it, in which the instruction address is
/// not advanced, the bytes that it stores from the front of its operand on, the key that SSKE or
/// RRBE sets, and the program code that suppresses it, or 0. Where there is one the registers are
/// as they were.
#[derive(Drop)]
pub struct Controlled {
    pub registers: Registers,
    pub stored: ArrayVec<u8, 64>,
    pub set_key: Option<u8>,
    pub fault: u8,
}

impl Model for Controlled {
    ghost use Rattle.esa_model.specs.ControlRows.{Control};

    ghost Value = { Control };

    ghost view = { λ c. record {
      registers = c.registers;
      stored = c.stored.items;
      set_key = c.set_key;
      fault = c.fault;
    } };
}

/// Other registers, and nothing else.
pub fn change(registers: Registers) -> Controlled
    ensures { result ≡ changes registers }
{
    Controlled {
        registers,
        stored: ArrayVec::new(),
        set_key: None,
        fault: 0,
    }
}

/// The same registers, and a program code.
pub fn suppress(r: &Registers, fault: u8) -> Controlled
    ensures { result ≡ suppresses r.now fault }
{
    Controlled {
        registers: *r,
        stored: ArrayVec::new(),
        set_key: None,
        fault,
    }
}

/// The bytes as a list.
fn list_of(bytes: &[u8]) -> ArrayVec<u8, 64>
    requires { length bytes.now ≤ 64 }
    ensures { result.items ≡ bytes.now }
{
    let mut list = ArrayVec::new();
    let _ = list.try_extend_from_slice(bytes);
    list
}

/// Registers, and bytes that are stored.
pub fn keep(registers: Registers, bytes: &[u8]) -> Controlled
    requires { length bytes.now ≤ 64 }
    ensures { result ≡ keeps registers bytes.now }
{
    Controlled {
        registers,
        stored: list_of(bytes),
        set_key: None,
        fault: 0,
    }
}
