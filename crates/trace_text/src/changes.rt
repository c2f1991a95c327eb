// The part of a line that tells what a commit changed.
#![tactic(auto)]

ghost use Rattle.std.specs.Prelude.{◌≡◌, ◌+◌, ◌≤◌, ◌++◌, not, length};
ghost use Rattle.arrayvec.specs.ArrayVec.{array_vec_len};
ghost use Rattle.run_model.specs.Trace.{changes_text, stretch_start};
ghost use Rattle.trace_text.specs.Spelling.{goes_on, spelled_byte};

use arrayvec::ArrayVec;
use esa_model::changes::Changed;
use esa_words::{hex2, hex6};

/// Adds bytes to a line that has room for them.
pub fn put(out: &mut ArrayVec<u8, 2048>, bytes: &[u8])
    requires { array_vec_len out.old + length bytes.now ≤ 2048 }
    ensures { out.new.items ≡ out.old.items ++ bytes.now }
{
    let _ = out.try_extend_from_slice(bytes);
}

// Whether a byte stands at the address that follows the one before it.
fn follows(next: Option<u64>, c: Changed) -> bool
    ensures { result ≡ goes_on next c }
{
    match next {
        Some(next) => next == u64::from(c.at),
        None => false,
    }
}

fn put_start(out: &mut ArrayVec<u8, 2048>, first: u32)
    requires { array_vec_len out.old + length (stretch_start first) ≤ 2048 }
    ensures { out.new.items ≡ out.old.items ++ stretch_start first }
{
    put(out, b" ");
    put(out, &hex6(first));
    put(out, b"=");
}

fn put_byte(out: &mut ArrayVec<u8, 2048>, c: Changed, is_first: bool)
    requires { array_vec_len out.old + length (spelled_byte is_first c) ≤ 2048 }
    ensures { out.new.items ≡ out.old.items ++ spelled_byte is_first c }
{
    if is_first {
        put_start(out, c.at);
    }
    put(out, &hex2(c.byte));
}

/// Adds what was changed to a line that has room for it.
pub fn put_changes(out: &mut ArrayVec<u8, 2048>, changed: &[Changed])
    requires { array_vec_len out.old + length (changes_text changed.now) ≤ 2048 }
    ensures { out.new.items ≡ out.old.items ++ changes_text changed.now }
{
    let mut next = None;
    for c in changed {
        put_byte(out, *c, !follows(next, *c));
        next = Some(u64::from(c.at) + 1);
    }
}
