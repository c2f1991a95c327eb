// The texts of answers.
ghost use Rattle.std.specs.Prelude.{◌≡◌, ◌≤◌, ◌+◌, ◌*◌, ◌++◌, length, codes, flat_map};
ghost use Rattle.arrayvec.specs.ArrayVec.{array_vec_len};
ghost use Rattle.program_model.specs.Debugger.{two_texts, words_text};
ghost use Rattle.run_model.specs.Numbers.{decimal as decimal_digits, hex_text};
ghost use Rattle.g5_debugger.specs.Words.{after_blank};

use arrayvec::ArrayVec;
use esa_words::{decimal, hex8};

/// Adds bytes to a text that has room for them.
pub fn put_text(out: &mut ArrayVec<u8, 256>, bytes: &[u8])
    requires { array_vec_len out.old + length bytes.now ≤ 256 }
    ensures { out.new.items ≡ out.old.items ++ bytes.now }
{
    let _ = out.try_extend_from_slice(bytes);
}

/// A text of up to 256 bytes.
pub fn text(bytes: &[u8]) -> ArrayVec<u8, 256>
    requires { length bytes.now ≤ 256 }
    ensures { result.items ≡ bytes.now }
{
    let mut out = ArrayVec::new();
    put_text(&mut out, bytes);
    out
}

// A blank and a word.
fn put_word(out: &mut ArrayVec<u8, 256>, word: u32)
    requires { array_vec_len out.old ≤ 247 }
    ensures text { out.new.items ≡ out.old.items ++ after_blank word }
    ensures room { array_vec_len out.new ≡ array_vec_len out.old + 9 }
{
    put_text(out, b" ");
    put_text(out, &hex8(word));
}

fn put_words(out: &mut ArrayVec<u8, 256>, words: &[u32])
    requires { array_vec_len out.old + 9 * length words.now ≤ 256 }
    ensures { out.new.items ≡ out.old.items ++ flat_map after_blank words.now }
{
    for word in words {
        put_word(out, *word);
    }
}

/// Up to 16 words, parted by one blank.
pub fn words_text(words: &[u32]) -> ArrayVec<u8, 256>
    requires { length words.now ≤ 16 }
    ensures { result.items ≡ words_text words.now }
{
    let mut out = ArrayVec::new();
    let Some((first, more)) = words.split_first() else {
        return out;
    };
    put_text(&mut out, &hex8(*first));
    put_words(&mut out, more);
    out
}

/// A name and a number, parted by one blank.
pub fn named_number(name: &[u8], number: u64) -> ArrayVec<u8, 256>
    requires { length name.now ≤ 100 }
    ensures { result.items ≡ two_texts name.now (decimal_digits number) }
{
    let mut out = text(name);
    put_text(&mut out, b" ");
    put_text(&mut out, &decimal(number));
    out
}
