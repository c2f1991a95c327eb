// The lines of the log, written.
#![tactic(auto)]

ghost use Rattle.std.specs.Prelude.{◌≡◌, ◌+◌, ◌≤◌, ◌++◌, length};
ghost use Rattle.arrayvec.specs.ArrayVec.{array_vec_len};
ghost use Rattle.run_model.specs.Numbers.{decimal as decimal_text};
ghost use Rattle.run_model.specs.LogLines.{cause_text, what_text, cpu_text, entry_line, heading, head_line};
ghost use Rattle.run_model.specs.declared.logs.What.TheVariants.{Fail, Corrected};
ghost use Rattle.run_model.specs.LogLines.{head as head_text, tail as tail_text};

use crate::{Config, Entry, What};
use arrayvec::ArrayVec;
use esa_words::decimal;
use run_model::faults::Cause;

// Adds bytes to a line that has room for them.
fn put(out: &mut ArrayVec<u8, 64>, bytes: &[u8])
    requires { array_vec_len out.old + length bytes.now ≤ 64 }
    ensures { out.new.items ≡ out.old.items ++ bytes.now }
{
    let _ = out.try_extend_from_slice(bytes);
}

// Adds a number of at most twenty digits.
fn put_long(out: &mut ArrayVec<u8, 64>, n: u64)
    requires { array_vec_len out.old + 20 ≤ 64 }
    ensures text { out.new.items ≡ out.old.items ++ decimal_text n }
    ensures room { array_vec_len out.new ≤ array_vec_len out.old + 20 }
{
    put(out, &decimal(n));
}

// Adds a number of at most three digits.
fn put_byte(out: &mut ArrayVec<u8, 64>, n: u8)
    requires { array_vec_len out.old + 3 ≤ 64 }
    ensures text { out.new.items ≡ out.old.items ++ decimal_text n }
    ensures room { array_vec_len out.new ≤ array_vec_len out.old + 3 }
{
    put(out, &decimal(u64::from(n)));
}

// Adds the cause of a failure.
fn put_cause(out: &mut ArrayVec<u8, 64>, why: Cause)
    requires { array_vec_len out.old + 8 ≤ 64 }
    ensures text { out.new.items ≡ out.old.items ++ cause_text why }
    ensures room { array_vec_len out.new ≤ array_vec_len out.old + 8 }
{
    match why {
        Cause::Fetch => put(out, b"FETCH"),
        Cause::Mismatch => put(out, b"MISMATCH"),
        Cause::Store => put(out, b"STORE"),
    }
}

// Adds a failure: its cause and the number of the attempt.
fn put_fail(out: &mut ArrayVec<u8, 64>, why: Cause, n: u64)
    requires { array_vec_len out.old + 34 ≤ 64 }
    ensures text { out.new.items ≡ out.old.items ++ what_text (Fail why n) }
    ensures room { array_vec_len out.new ≤ array_vec_len out.old + 34 }
{
    put(out, b"FAIL ");
    put_cause(out, why);
    put(out, b" ");
    put_long(out, n);
}

// Adds a name and a number.
fn put_one(out: &mut ArrayVec<u8, 64>, name: &[u8], n: u8)
    requires { array_vec_len out.old + length name.now + 3 ≤ 64 }
    ensures text { out.new.items ≡ out.old.items ++ (name.now ++ decimal_text n) }
    ensures room { array_vec_len out.new ≤ array_vec_len out.old + length name.now + 3 }
{
    put(out, name);
    put_byte(out, n);
}

// Adds a correction: the word and the position.
fn put_corrected(out: &mut ArrayVec<u8, 64>, word: u8, bit: u8)
    requires { array_vec_len out.old + 34 ≤ 64 }
    ensures text { out.new.items ≡ out.old.items ++ what_text (Corrected word bit) }
    ensures room { array_vec_len out.new ≤ array_vec_len out.old + 34 }
{
    put_one(out, b"CORRECTED ", word);
    put_one(out, b" ", bit);
}

// Adds what happened.
fn put_what(out: &mut ArrayVec<u8, 64>, what: What)
    requires { array_vec_len out.old + 34 ≤ 64 }
    ensures text { out.new.items ≡ out.old.items ++ what_text what }
    ensures room { array_vec_len out.new ≤ array_vec_len out.old + 34 }
{
    match what {
        What::Fail(why, n) => put_fail(out, why, n),
        What::Retry(r) => put_one(out, b"RETRY ", r),
        What::Corrected(word, bit) => put_corrected(out, word, bit),
        What::Uncorrectable(word) => put_one(out, b"UNCORRECTABLE ", word),
        What::Fenced => put(out, b"FENCED"),
        What::Spared(core) => put_one(out, b"SPARED ", core.0),
        What::NoSpare => put(out, b"NOSPARE"),
        What::Stop => put(out, b"STOP"),
        What::Returned => put(out, b"RETURNED"),
    }
}

// Adds the CPU, or `-` where a core is returned.
fn put_cpu(out: &mut ArrayVec<u8, 64>, e: &Entry)
    requires { array_vec_len out.old + 3 ≤ 64 }
    ensures text { out.new.items ≡ out.old.items ++ cpu_text e.now }
    ensures room { array_vec_len out.new ≤ array_vec_len out.old + 3 }
{
    match e.what {
        What::Returned => put(out, b"-"),
        _ => put_byte(out, e.cpu.0),
    }
}

/// The line of an entry. The CPU of a returned core is written `-`.
#[tactic(auto, unfolding(run_model::specs::LogLines::entry_line))]
pub fn write(e: &Entry) -> ArrayVec<u8, 64>
    ensures { result.items ≡ entry_line e.now }
{
    let mut out = ArrayVec::new();
    put_long(&mut out, e.turn);
    put(&mut out, b" ");
    put_cpu(&mut out, e);
    put(&mut out, b" ");
    put_byte(&mut out, e.core.0);
    put(&mut out, b" ");
    put_what(&mut out, e.what);
    put(&mut out, b"\n");
    out
}

// The first line of a log with these numbers.
#[tactic(auto, unfolding(run_model::specs::LogLines::head_line))]
pub fn head_of(cpus: u8, spares: u8, threshold: u8) -> ArrayVec<u8, 64>
    ensures { result.items ≡ head_line (heading cpus spares threshold) }
{
    let mut out = ArrayVec::new();
    put_one(&mut out, b"G5LOG 2 CPUS ", cpus);
    put_one(&mut out, b" SPARES ", spares);
    put_one(&mut out, b" THRESHOLD ", threshold);
    put(&mut out, b"\n");
    out
}

/// The first line of the log of a machine that is made so.
pub fn head(c: &Config) -> ArrayVec<u8, 64>
    ensures { result.items ≡ head_text c.now }
{
    head_of(c.cpus, c.spares, c.threshold)
}

/// The last line of a log: the turns that were made, and the cores that were returned.
#[tactic(auto, unfolding(run_model::specs::LogLines::tail))]
pub fn tail(turns: u64, returned: u64) -> ArrayVec<u8, 64>
    ensures { result.items ≡ tail_text turns returned }
{
    let mut out = ArrayVec::new();
    put(&mut out, b"END ");
    put_long(&mut out, turns);
    put(&mut out, b" RETURNED ");
    put_long(&mut out, returned);
    put(&mut out, b"\n");
    out
}
