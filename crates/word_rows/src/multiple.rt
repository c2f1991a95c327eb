// STM and LM: registers R1 to R3 in ascending order, 0 after 15.
// Source: Principles of Operation, chapter on general instructions.
ghost use Rattle.std.specs.Prelude.{◌≡◌, ◌*◌, ◌≤◌, ◌<◌, length, []};
ghost use Rattle.esa_model.specs.Line.{register_count};
ghost use Rattle.esa_model.specs.Rows.Stores.{load_multiple as load_line, loaded, registers_loaded, registers_stored, store_multiple as store_line};
ghost use Rattle.row_frame.specs.Made.{inputs, IsInRange, IsPlain, Covers, IsQuiet};

use crate::lists::put_word;
use abs_storage::View;
use arrayvec::ArrayVec;
use esa_model::instructions::Decoded;
use esa_model::machine::Registers;
use row_frame::{Effect, Instruction, after, general_of, leave, second_of, store, word_of};

/// The number of registers from R1 to R3.
pub(crate) fn count_of(d: &Decoded) -> u8
    requires { IsInRange d.now }
    ensures count { result ≡ register_count d.now }
    ensures few { result ≤ 16 }
{
    (d.r2 + 16 - d.r1) % 16 + 1
}

/// The bytes of registers R1 to R3.
#[tactic(auto, using(crate::proofs::Successive::stored_more, crate::proofs::Successive::stored_none, crate::proofs::Successive::stored_all))]
fn registers_of(r: &Registers, d: &Decoded) -> ArrayVec<u8, 256>
    requires { IsInRange d.now }
    ensures bytes { result.items ≡ registers_stored r.now d.now }
    ensures len { length result.items ≡ 4 * register_count d.now }
{
    let mut out = ArrayVec::new();
    for k in 0..count_of(d) {
        put_word(&mut out, general_of(r, (d.r1 + k) % 16));
    }
    out
}

/// STORE MULTIPLE: the words of registers R1 to R3.
pub(crate) fn store_multiple(r: &Registers, i: &Instruction) -> Effect
    requires { IsInRange i.now.decoded }
    ensures effect { result ≡ store_line.effect (inputs r.now [] i.now) }
    ensures covers { Covers (store_line.operands (inputs r.now [] i.now)) result }
    ensures quiet { IsQuiet result }
{
    store(after(r, i.len), registers_of(r, &i.decoded))
}

/// A register after LM: the word at its place after R1, where it is one of those.
fn register_after<V: View>(r: &Registers, view: &mut V, d: &Decoded, n: u8) -> u32
    requires fields { IsInRange d.now }
    requires number { n < 16 }
    ensures word { result ≡ loaded r.now (V.bytes view.old) d.now n }
    ensures same { V.bytes view.new ≡ V.bytes view.old }
{
    let k = (n + 16 - d.r1) % 16;
    if k < count_of(d) {
        word_of(r, view, second_of(r, d) + 4 * u32::from(k))
    } else {
        general_of(r, n)
    }
}

/// The registers after LM.
fn registers_after<V: View>(r: &Registers, view: &mut V, d: &Decoded) -> [u32; 16]
    requires fields { IsInRange d.now }
    ensures words { result ≡ registers_loaded r.now (V.bytes view.old) d.now }
    ensures same { V.bytes view.new ≡ V.bytes view.old }
{
    let mut out = [0; 16];
    for n in 0..16u8 {
        out[usize::from(n)] = register_after(r, view, d, n);
    }
    out
}

/// LOAD MULTIPLE: registers R1 to R3 from successive words.
pub(crate) fn load_multiple<V: View>(r: &Registers, view: &mut V, i: &Instruction) -> Effect
    requires { IsInRange i.now.decoded }
    ensures effect { result ≡ load_line.effect (inputs r.now (V.bytes view.old) i.now) }
    ensures plain { IsPlain result }
    ensures quiet { IsQuiet result }
    ensures same { V.bytes view.new ≡ V.bytes view.old }
{
    let next = after(r, i.len);
    leave(Registers {
        general: registers_after(r, view, &i.decoded),
        ..next
    })
}
