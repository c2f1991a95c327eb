// The bytes of words, as lists.
ghost use Rattle.std.specs.Prelude.{◌≡◌, ◌+◌, ◌≤◌, ◌++◌, ◌∷◌, [], length};
ghost use Rattle.byteorder.specs.Endian.{big_bytes};

use arrayvec::ArrayVec;
use byteorder::{BigEndian, ByteOrder};
use row_frame::listed;

/// One byte.
pub(crate) fn one_byte(byte: u8) -> ArrayVec<u8, 256>
    ensures bytes { result.items ≡ byte ∷ [] }
    ensures len { length result.items ≡ 1 }
{
    listed(&[byte])
}

/// The bytes of a halfword.
pub(crate) fn half_bytes(half: u16) -> ArrayVec<u8, 256>
    ensures bytes { result.items ≡ big_bytes 2 half }
    ensures len { length result.items ≡ 2 }
{
    let mut bytes = [0; 2];
    BigEndian::write_u16(&mut bytes, half);
    listed(&bytes)
}

/// The bytes of a word.
pub(crate) fn word_bytes(word: u32) -> ArrayVec<u8, 256>
    ensures bytes { result.items ≡ big_bytes 4 word }
    ensures len { length result.items ≡ 4 }
{
    let mut bytes = [0; 4];
    BigEndian::write_u32(&mut bytes, word);
    listed(&bytes)
}

/// Puts the bytes of a word at the end.
pub(crate) fn put_word(out: &mut ArrayVec<u8, 256>, word: u32)
    requires { length out.old.items ≤ 252 }
    ensures bytes { out.new.items ≡ out.old.items ++ big_bytes 4 word }
    ensures len { length out.new.items ≡ length out.old.items + 4 }
{
    let mut bytes = [0; 4];
    BigEndian::write_u32(&mut bytes, word);
    let _ = out.try_extend_from_slice(&bytes);
}

/// The bytes of a pair of words.
pub(crate) fn pair_bytes(word: u32, low: u32) -> ArrayVec<u8, 256>
    ensures bytes { result.items ≡ big_bytes 4 word ++ big_bytes 4 low }
    ensures len { length result.items ≡ 8 }
{
    let mut out = word_bytes(word);
    put_word(&mut out, low);
    out
}
