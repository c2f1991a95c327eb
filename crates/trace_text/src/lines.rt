// A whole line.
#![tactic(auto)]

ghost use Rattle.std.specs.Prelude.{◌≡◌, ◌≤◌, length};
ghost use Rattle.arrayvec.specs.ArrayVec.{array_vec_len};
ghost use Rattle.esa_model.specs.Changes.{stretches};
ghost use Rattle.run_model.specs.Trace.{trace_line};
ghost use Rattle.trace_text.specs.Spelling.{line_start};

use crate::Changed;
use crate::changes::{put, put_changes};
use arrayvec::ArrayVec;
use esa_model::machine::{CpuNo, Psw};
use esa_words::{decimal, hex8};

// The line as far as the PSW, in place of what the list has.
fn put_head(out: &mut ArrayVec<u8, 2048>, commit: u64, cpu: CpuNo, psw: Psw)
    requires { commit ≤ 1000000 }
    ensures text { out.new.items ≡ line_start commit cpu.0 psw }
    ensures room { array_vec_len out.new ≤ 60 }
{
    out.clear();
    put(out, &decimal(commit));
    put(out, b" C");
    put(out, &decimal(u64::from(cpu.0)));
    put(out, b" ");
    put(out, &hex8(psw.w0));
    put(out, b" ");
    put(out, &hex8(psw.w1));
}

/// Puts the line of a commit into a list, in place of what it has: its number, its CPU, the PSW after
/// it, and the bytes of storage whose values it changed, which are at most 268 in at most 140 stretches
/// of successive addresses.
#[tactic(auto, unfolding(run_model::specs::Trace::trace_line))]
pub fn put_line(
    out: &mut ArrayVec<u8, 2048>,
    commit: u64,
    cpu: CpuNo,
    psw: Psw,
    changed: &[Changed],
)
    requires commits { commit ≤ 1000000 }
    requires bytes { length changed.now ≤ 268 }
    requires stretches { length (stretches changed.now) ≤ 140 }
    ensures { out.new.items ≡ trace_line commit cpu.0 psw changed.now }
{
    put_head(out, commit, cpu, psw);
    put_changes(out, changed);
    put(out, b"\n");
}
