ghost use Rattle.std.specs.Prelude.{◌≡◌, ◌≤◌, length};
ghost use Rattle.std.specs.List.{range_with_len};
ghost use Rattle.esa_model.specs.Access.{whole as whole_of, none as none_of};

use arrayvec::ArrayVec;
use std::marker::Model;

/// The bytes of an operand that an instruction uses: an effective address, and their offsets from
/// it in the order of use; whether they are tested for fetching, and for storing.
#[derive(Drop)]
pub struct Operand {
    pub at: u32,
    pub offsets: ArrayVec<u8, 256>,
    pub fetch: bool,
    pub store: bool,
}

impl Model for Operand {
    ghost use Rattle.esa_model.specs.Access.{Operand as Used};

    ghost Value = { Used };

    ghost view = { λ o. record { at = o.at; offsets = o.offsets.items; fetch = o.fetch; store = o.store } };
}

/// Two operands; paired where they are used byte and byte in turn.
#[derive(Drop)]
pub struct Operands {
    pub first: Operand,
    pub second: Operand,
    pub paired: bool,
}

impl Model for Operands {
    ghost use Rattle.esa_model.specs.Access.{Operands as AllUsed};

    ghost Value = { AllUsed };

    ghost view = { λ o. record { first = o.first; second = o.second; paired = o.paired } };
}

/// The offsets of so many bytes.
#[tactic(auto, using(crate::proofs::Turn::range_more))]
fn numbers(len: u32) -> ArrayVec<u8, 256>
    requires { len ≤ 256 }
    ensures items { result.items ≡ range_with_len 0 len }
    ensures len { length result.items ≡ len }
{
    let mut list = ArrayVec::new();
    for k in 0..len {
        list.push(k as u8);
    }
    list
}

/// An operand of `len` bytes, each of which is used.
pub fn whole(at: u32, len: u32, fetch: bool, store: bool) -> Operand
    requires { len ≤ 256 }
    ensures whole { result ≡ whole_of at len fetch store }
    ensures len { length result.offsets ≡ len }
    ensures front { result.offsets ≡ range_with_len 0 (length result.offsets) }
{
    Operand {
        at,
        offsets: numbers(len),
        fetch,
        store,
    }
}

/// No operand.
pub fn none() -> Operand
    ensures { result ≡ none_of }
{
    Operand {
        at: 0,
        offsets: ArrayVec::new(),
        fetch: false,
        store: false,
    }
}
