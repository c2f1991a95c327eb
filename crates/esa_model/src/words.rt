//! Words as whole numbers. Source: Principles of Operation, chapter on general instructions, signed
//! and unsigned binary numbers; bits are numbered from 0 at the left.

ghost use Rattle.std.specs.Prelude.{◌≡◌, ◌%◌, ◌^◌, ◌≤◌, pos, unsigned_abs};
ghost use Rattle.std.specs.Int.{w32, cast_signed, int_rem_euclid};
ghost use Rattle.esa_model.specs.Word.{bits as bits_of};

/// The word of a whole number, modulo 2^32.
pub fn wrap32(x: i128) -> u32
    ensures { result ≡ unsigned_abs (int_rem_euclid x (pos 4294967296)) }
{
    x.rem_euclid(0x1_0000_0000) as u32
}

/// The whole number of a word in two's complement.
pub fn signed32(x: u32) -> i32
    ensures { result ≡ cast_signed w32 x }
{
    x.cast_signed()
}

/// The number in the bits `from` to `to` of a word, both of them included.
pub fn bits(w: u32, from: u8, to: u8) -> u32
    requires order { from ≤ to }
    requires inside { to ≤ 31 }
    ensures { result ≡ bits_of w from to }
{
    let shifted = u64::from(w >> (31 - to));
    (shifted % (1u64 << (to - from + 1))) as u32
}
