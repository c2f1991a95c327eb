ghost use Rattle.std.specs.Prelude.{◌≡◌, ◌+◌, ◌-◌, ◌<◌, ◌≤◌, ◌^◌};
ghost use Rattle.run_model.specs.Code.{IsCodeword, Reads, read_of, encoded, value_of, places};
ghost use Rattle.runit_ecc.specs.Syndrome.{check_masks};
ghost use Rattle.runit_ecc.specs.Bounds.{IsValueBelow};

use crate::parity::{changed, parity_of, syndrome_of, with_all_checks};
use crate::places::{placed_in, value_at};
use run_model::readings::Read;

// The positions below 128 whose number has the bit 2^j, for each j that is named, as a mask: runs of 2^j zeros and
// 2^j ones in turn.
macro_rules! check_masks {
    ($($j:literal)*) => {
        [$((u128::MAX / ((1u128 << (1u32 << $j)) + 1)) << (1u32 << $j)),*]
    };
}

/// The code that stores D bits with C check bits: any one wrong bit is corrected, any two are found. The positions are
/// 0 to D + C - 1, of which 0 holds the overall parity, 1, 2, 4, .. the checks and the others the value.
///
/// It is proved once for all D and C that these conditions hold of, among them 32 and 7, and 64 and 8.
pub struct Code<const D: u32, const C: u32>;

impl<const D: u32, const C: u32> Code<D, C> {
    /// The codeword of a value.
    pub fn encode(value: u128) -> u128
        requires small { D + C < 128 }
        requires some { 2 ≤ C }
        requires few { C ≤ 8 }
        requires checks { D + C ≤ 2 ^ (C - 1) }
        requires needed { 2 ^ (C - 2) < D + C }
        requires room { places (D + C) ≡ D }
        requires fits { value < 2 ^ D }
        ensures codeword { IsCodeword (D + C) C result }
        ensures value { value_of (D + C) result ≡ value }
        ensures is { result ≡ encoded (D + C) C value }
    {
        let masks = check_masks!(0 1 2 3 4 5 6);
        coded(&masks, D + C, C, value)
    }

    /// What a stored word says, by its parities: a codeword is clean, a word one position from a codeword is corrected
    /// there, and any other, also a number of more than D + C bits, is uncorrectable.
    pub fn read(stored: u128) -> Read
        requires small { D + C < 128 }
        requires some { 2 ≤ C }
        requires few { C ≤ 8 }
        requires checks { D + C ≤ 2 ^ (C - 1) }
        requires room { places (D + C) ≡ D }
        ensures reads { Reads (D + C) C stored result }
        ensures is { result ≡ read_of (D + C) C stored }
        ensures below { IsValueBelow (2 ^ D) result }
    {
        let masks = check_masks!(0 1 2 3 4 5 6);
        reading(&masks, D + C, C, stored)
    }
}

// The codeword of n positions with c checks.
fn coded(masks: &[u128], n: u32, c: u32, value: u128) -> u128
    requires masks { masks.now ≡ check_masks }
    requires small { n < 128 }
    requires some { 2 ≤ c }
    requires few { c ≤ 8 }
    requires checks { n ≤ 2 ^ (c - 1) }
    requires needed { 2 ^ (c - 2) < n }
    requires fits { value < 2 ^ places n }
    ensures { result ≡ encoded n c value }
{
    let w = placed_in(c - 1, value);
    let s = syndrome_of(masks, c - 1, w);
    let r = with_all_checks(c - 1, s, w);
    if parity_of(r) == 0 { r } else { changed(r, 0) }
}

// What a word of n positions with c checks says.
fn reading(masks: &[u128], n: u32, c: u32, stored: u128) -> Read
    requires masks { masks.now ≡ check_masks }
    requires small { n < 128 }
    requires some { 2 ≤ c }
    requires few { c ≤ 8 }
    requires checks { n ≤ 2 ^ (c - 1) }
    ensures { Reads n c stored result }
{
    if stored >> n != 0 {
        return Read::Uncorrectable;
    }
    let s = syndrome_of(masks, c - 1, stored);
    if parity_of(stored) == 0 {
        if s == 0 {
            Read::Clean(value_at(c - 1, stored))
        } else {
            Read::Uncorrectable
        }
    } else if s < n {
        Read::Corrected(value_at(c - 1, changed(stored, s)), s as u8)
    } else {
        Read::Uncorrectable
    }
}
