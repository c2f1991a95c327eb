ghost use Rattle.std.specs.Prelude.{◌≡◌, ◌≤◌, ◌<◌, length, min, IfSome, IsNone};
ghost use Rattle.abs_storage.specs.Places.{place_at, cut_of, begins_outside as is_begun_outside};
ghost use Rattle.abs_storage.specs.Places.{HaveBytes, IsInside, HasByteOutside};

use crate::{AbsStorage, absolute};

/// Where the bytes of an operand lie: `first_len` of them from the absolute address `first` on, the
/// other `second_len` from `second` on. The first piece ends with the page of the first byte; where
/// the operand lies in that page alone `second` and `second_len` are 0.
#[derive(Clone, Copy, Debug, PartialEq, Eq)]
pub struct Pieces {
    pub first: u32,
    pub first_len: u16,
    pub second: u32,
    pub second_len: u16,
}

/// The absolute address of an address in the mode.
#[tactic(auto, unfolding(crate::specs::Places::place_at))]
fn place(prefix: u32, wide: bool, at: u64) -> u32
    ensures { result ≡ place_at prefix wide at }
{
    let real = if wide {
        at % 0x8000_0000
    } else {
        at % 0x100_0000
    };
    absolute(prefix, real as u32)
}

fn lesser(a: u16, b: u16) -> u16
    ensures { result ≡ min a b }
{
    if a < b { a } else { b }
}

/// The pieces of an operand, wherever they lie.
#[tactic(auto, unfolding(crate::specs::Places::cut_of))]
fn cut(prefix: u32, wide: bool, real: u32, len: u16) -> Pieces
    requires { len ≤ 256 }
    ensures { result ≡ cut_of prefix wide real len }
{
    let first_len = lesser(len, 4096 - (real % 4096) as u16);
    let second_len = len - first_len;
    Pieces {
        first: place(prefix, wide, real as u64),
        first_len,
        second: if second_len == 0 {
            0
        } else {
            place(prefix, wide, real as u64 + first_len as u64)
        },
        second_len,
    }
}

/// Whether a piece begins outside a storage of so many bytes.
fn begins_outside(p: Pieces, size: u32) -> bool
    ensures { result ≡ is_begun_outside size p }
{
    if p.first < size {
        p.second_len != 0 && p.second >= size
    } else {
        true
    }
}

impl AbsStorage {
    /// The pieces of the operand of `len` bytes from a real address on, whose addresses wrap at
    /// 2^31 where `wide`, else at 2^24; `None` exactly where one of its bytes is outside the
    /// storage.
    pub fn pieces(&self, prefix: u32, real: u32, len: u16, wide: bool) -> Option<Pieces>
        requires some { 0 < len }
        requires most { len ≤ 256 }
        ensures cut { IfSome result (λ p. p ≡ cut_of prefix wide real len) }
        ensures bytes { IfSome result (λ p. HaveBytes prefix wide real len p) }
        ensures inside { IfSome result (λ _. IsInside prefix wide real len (length self.now)) }
        ensures outside { IsNone result → HasByteOutside prefix wide real len (length self.now) }
    {
        let pieces = cut(prefix, wide, real, len);
        if begins_outside(pieces, self.size()) {
            None
        } else {
            Some(pieces)
        }
    }
}
