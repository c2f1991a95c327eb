// EDIT and EDIT AND MARK, whose source is tested as far as it is used.
// Source: Principles of Operation, chapter on decimal instructions.
ghost use Rattle.std.specs.Prelude.{◌≡◌, ◌≤◌, ◌<◌, ℕ, List, [], length};
ghost use Rattle.esa_model.specs.Access.{bytes};
ghost use Rattle.esa_model.specs.Edit.{answer, edited_pattern, state, SameUpTo};
ghost use Rattle.esa_model.specs.Rows.Decimals.{with_mark as marked_by};
ghost use Rattle.byte_rows.specs.Classes.{edit_ending, editing_effect, editing_operands};
ghost use Rattle.row_frame.specs.Made.{IsInRange, Fits, Covers, IsQuiet};

use crate::registers::address_marked;
use abs_storage::View;
use decimal_instr::{Edited, edit};
use esa_model::machine::Registers;
use operand_access::{Operands, gather, whole};
use row_frame::{
    Effect, Instruction, after, first_of, listed, refuse, second_of, store, two, with_code,
};

/// An edit; it uses no more source bytes than the pattern has.
fn edited(pattern: &mut [u8], source: &[u8]) -> Edited
    requires some { 1 ≤ length pattern.old }
    requires few { length pattern.old ≤ 256 }
    requires enough { length pattern.old ≤ length source.now }
    ensures answer { result ≡ answer (state source.now pattern.old) }
    ensures pattern { pattern.new ≡ edited_pattern source.now pattern.old }
    ensures code { result.cc < 5 }
    ensures used { result.used ≤ length pattern.old }
    ensures alike { (other : List ℕ) → SameUpTo (length pattern.old) source.now other
        → (answer (state other pattern.old) ≡ result)
        × (edited_pattern other pattern.old ≡ pattern.new) }
{
    edit(pattern, source)
}

/// An edit of the digits from an effective address on, which are read into `source`.
fn edit_by<V: View>(
    r: &Registers,
    view: &mut V,
    at: u32,
    pattern: &mut [u8],
    source: &mut [u8],
) -> Edited
    requires some { 1 ≤ length pattern.old }
    requires few { length pattern.old ≤ 256 }
    requires room { length source.old ≡ length pattern.old }
    ensures answer { result
        ≡ answer (state (bytes r.now (V.bytes view.old) at 256) pattern.old) }
    ensures pattern { pattern.new
        ≡ edited_pattern (bytes r.now (V.bytes view.old) at 256) pattern.old }
    ensures code { result.cc < 5 }
    ensures used { result.used ≤ length pattern.old }
    ensures same { V.bytes view.new ≡ V.bytes view.old }
{
    gather(r, view, at, source);
    edited(pattern, source)
}

/// The same. Of the 256 bytes that might be used it reads as many as the pattern has, since it uses
/// no more.
fn edit_from<V: View>(r: &Registers, view: &mut V, at: u32, pattern: &mut [u8]) -> Edited
    requires some { 1 ≤ length pattern.old }
    requires few { length pattern.old ≤ 256 }
    ensures answer { result
        ≡ answer (state (bytes r.now (V.bytes view.old) at 256) pattern.old) }
    ensures pattern { pattern.new
        ≡ edited_pattern (bytes r.now (V.bytes view.old) at 256) pattern.old }
    ensures code { result.cc < 5 }
    ensures used { result.used ≤ length pattern.old }
    ensures same { V.bytes view.new ≡ V.bytes view.old }
{
    let mut area = [0; 256];
    let len = pattern.len();
    edit_by(r, view, at, pattern, &mut area[..len])
}

/// The operands of an edit.
pub(crate) fn edit_operands<V: View>(
    marking: bool,
    r: &Registers,
    view: &mut V,
    i: &Instruction,
) -> Operands
    requires fields { IsInRange i.now.decoded }
    ensures operands { result ≡ editing_operands marking r.now (V.bytes view.old) i.now }
    ensures fits { Fits result }
    ensures same { V.bytes view.new ≡ V.bytes view.old }
{
    let d = &i.decoded;
    let len = u32::from(d.len) + 1;
    let mut area = [0; 256];
    let pattern = &mut area[..len as usize];
    gather(r, view, first_of(r, d), pattern);
    let e = edit_from(r, view, second_of(r, d), pattern);
    two(
        whole(first_of(r, d), len, true, true),
        whole(second_of(r, d), u32::from(e.used), true, false),
    )
}

/// The registers with the address of the digit that EDMK marks, from an operand at `at`.
#[tactic(auto, unfolding(esa_model::specs::Line::advanced))]
fn with_mark(marking: bool, r: &Registers, at: u32, mark: Option<u16>) -> Registers
    ensures { result ≡ marked_by marking r.now at mark }
{
    let mut out = *r;
    if let Some(k) = mark {
        if marking {
            out.general[1] = address_marked(r, u64::from(at) + u64::from(k));
        }
    }
    out
}

/// What an edit does, by its answer and the pattern that it leaves.
fn edit_end(marking: bool, r: &Registers, len: u8, at: u32, e: &Edited, pattern: &[u8]) -> Effect
    requires code { e.now.cc < 5 }
    requires few { length pattern.now ≤ 256 }
    ensures effect { result ≡ edit_ending marking r.now len at e.now pattern.now }
    ensures short { length result.stored ≤ length pattern.now }
    ensures console { result.console_out ≡ [] }
    ensures quiet { IsQuiet result }
{
    if e.fault == 0 {
        let marked = with_mark(marking, &after(r, len), at, e.mark);
        return store(with_code(marked, e.cc), listed(pattern));
    }
    refuse(*r, e.fault)
}

/// What an edit does.
pub(crate) fn edit_effect<V: View>(
    marking: bool,
    r: &Registers,
    view: &mut V,
    i: &Instruction,
) -> Effect
    requires fields { IsInRange i.now.decoded }
    ensures effect { result ≡ editing_effect marking r.now (V.bytes view.old) i.now }
    ensures covers { Covers (editing_operands marking r.now (V.bytes view.old) i.now) result }
    ensures quiet { IsQuiet result }
    ensures same { V.bytes view.new ≡ V.bytes view.old }
{
    let d = &i.decoded;
    let mut area = [0; 256];
    let pattern = &mut area[..usize::from(d.len) + 1];
    gather(r, view, first_of(r, d), pattern);
    let e = edit_from(r, view, second_of(r, d), pattern);
    edit_end(marking, r, i.len, first_of(r, d), &e, pattern)
}
