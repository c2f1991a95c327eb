// The PSW after an event, which an interruption fetches after all that the event stores.
ghost use Rattle.std.specs.Prelude.{◌≡◌, ◌<◌, ◌≤◌, ℕ, List, Some, length, get_or};
ghost use Rattle.esa_model.specs.Access.{byte};
ghost use Rattle.esa_model.specs.Line.{word_at};
ghost use Rattle.esa_model.specs.Machine.{psw_after, psw_bytes};
ghost use Rattle.esa_model.specs.Machine.{identification_bytes as bytes_identifying};
ghost use Rattle.esa_model.specs.Places.{old_at, identification_at};
ghost use Rattle.result_packet.specs.Fetched.{left_by, stored_by};

use crate::swap_bytes::{identification_bytes, old_psw_bytes};
use abs_storage::View;
use arrayvec::ArrayVec;
use byteorder::{BigEndian, ByteOrder};
use esa_model::events::Interruption;
use esa_model::machine::{Psw, Registers};
use operand_access::{overlaid, place_of};
use psw_interrupts::places_of;
use std::marker::Model;

/// Three stores of an event at effective addresses, in their order: of the operand, of the old
/// PSW and of the identification.
#[derive(Drop)]
struct Stores<'a> {
    to: u32,
    operand: &'a [u8],
    old_at: u32,
    old: ArrayVec<u8, 8>,
    own_at: u32,
    own: ArrayVec<u8, 4>,
}

impl<'a> Model for Stores<'a> {
    ghost use Rattle.std.specs.Prelude.{◌≤◌, length};
    ghost use Rattle.result_packet.specs.Fetched.{Stores as Stored};

    ghost Value = { Stored };

    ghost view = { λ s. record {
      to = s.to;
      operand = s.operand.now;
      old_at = s.old_at;
      old = s.old.items;
      own_at = s.own_at;
      own = s.own.items;
    } };

    ghost invariant = { λ s. length s.operand.now ≤ 256 };
}

impl<'a> Stores<'a> {
    /// The stores of an event that interrupts.
    fn new(
        to: u32,
        operand: &'a [u8],
        kind: Interruption,
        psw: Psw,
        identification: u32,
    ) -> Stores<'a>
        requires { length operand.now ≤ 256 }
        ensures { result ≡ record {
          to = to;
          operand = operand.now;
          old_at = old_at kind;
          old = psw_bytes psw;
          own_at = identification_at kind;
          own = bytes_identifying kind identification;
        } }
    {
        let places = places_of(kind);
        Stores {
            to,
            operand,
            old_at: places.old_at as u32,
            old: old_psw_bytes(psw),
            own_at: places.identification as u32,
            own: identification_bytes(kind, identification),
        }
    }

    /// What an absolute address holds after them, from what it held before.
    fn overlay(&self, r: &Registers, a: u32, before: u8) -> u8
        ensures { (storage : List ℕ) → a < length storage → get_or storage a 0 ≡ before
            → result ≡ get_or (stored_by r.now self.now storage) a 0 }
    {
        let first = overlaid(r, self.to, self.operand, a, before);
        let second = overlaid(r, self.old_at, self.old.as_slice(), a, first);
        overlaid(r, self.own_at, self.own.as_slice(), a, second)
    }

    /// The byte at an effective address after them.
    #[tactic(auto, using(crate::proofs::AfterStores::outside_after), unfolding(esa_model::specs::Access::byte))]
    fn byte<V: View>(&self, r: &Registers, view: &mut V, n: u64) -> u8
        ensures byte { result ≡ byte r.now (stored_by r.now self.now (V.bytes view.old)) n }
        ensures same { V.bytes view.new ≡ V.bytes view.old }
    {
        let a = place_of(r, n);
        match view.byte(a) {
            None => 0,
            Some(before) => self.overlay(r, a, before),
        }
    }

    /// The word at an effective address after them.
    #[tactic(auto, unfolding(esa_model::specs::Line::word_at, esa_model::specs::Access::bytes))]
    fn word<V: View>(&self, r: &Registers, view: &mut V, n: u32) -> u32
        requires { n < 512 }
        ensures word { result ≡ word_at r.now (stored_by r.now self.now (V.bytes view.old)) n }
        ensures same { V.bytes view.new ≡ V.bytes view.old }
    {
        let at = n as u64;
        let bytes = [
            self.byte(r, view, at),
            self.byte(r, view, at + 1),
            self.byte(r, view, at + 2),
            self.byte(r, view, at + 3),
        ];
        BigEndian::read_u32(&bytes)
    }
}

/// The PSW after an event of a CPU with the registers `r`: it stores `stored` from the effective
/// address `to` on, and then an interruption, if there is one, stores `psw` and its
/// identification, and fetches its new PSW. Without an interruption it is `psw`.
///
/// Source: Principles of Operation, chapter on interruptions. That the new PSW is fetched after
/// all stores is a choice of this project.
#[tactic(auto, unfolding(esa_model::specs::Machine::psw_after, esa_model::specs::Machine::storage_after))]
pub fn psw_left<V: View>(
    r: &Registers,
    view: &mut V,
    to: u32,
    stored: &[u8],
    kind: Option<Interruption>,
    psw: Psw,
    identification: u32,
) -> Psw
    requires { length stored.now ≤ 256 }
    ensures psw { result ≡ psw_after r.now (left_by r.now to stored.now kind psw identification)
        (V.bytes view.old) }
    ensures same { V.bytes view.new ≡ V.bytes view.old }
{
    let Some(kind) = kind else {
        return psw;
    };
    let stores = Stores::new(to, stored, kind, psw, identification);
    let at = places_of(kind).new_at as u32;
    let w0 = stores.word(r, view, at);
    let w1 = stores.word(r, view, at + 4);
    Psw { w0, w1 }
}
