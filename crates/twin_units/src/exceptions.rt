// The priority of exceptions, for a row.
ghost use Rattle.std.specs.Prelude.{◌≡◌, ℕ, ◌≤◌, ◌^◌, List, Some, length};
ghost use Rattle.control_rows.specs.Orders.{Sends};
ghost use Rattle.esa_model.specs.Access.{refused as refusal};
ghost use Rattle.esa_model.specs.Line.{Side as Beside};
ghost use Rattle.esa_model.specs.Machine.{Machine};
ghost use Rattle.esa_model.specs.Rows.All.{line};
ghost use Rattle.esa_model.specs.Unit.{carried, performed, suppressed};
ghost use Rattle.operand_access.specs.Seen.{memory, AreEven, AreInside};
ghost use Rattle.packet_law.specs.Sound.{IsSound};
ghost use Rattle.row_frame.specs.Made.{situation, Covers, Fits, IsInRange, ReadsConsole, SetsKey};
ghost use Rattle.twin_units.specs.Units.{IsAt, IsKnown};

use crate::done::{Done, carry, suppress};
use crate::rows::{effect_of, in_order, operands};
use abs_storage::View;
use arrayvec::ArrayVec;
use esa_model::codes::{PRIVILEGED, SPECIFICATION};
use esa_model::instructions::Row;
use esa_model::kinds::Kind;
use esa_model::machine::{CpuNo, Registers};
use operand_access::{Operands, refused_of};
use packet_law::sound_rows;
use result_packet::Side;
use row_frame::{Effect, Instruction};
use storage_keys::Keys;

// A list is no longer than its type allows: said here of lists whose values later clauses name.

fn few_blocks(blocks: &ArrayVec<u16, 8>)
    ensures { length blocks.now.items ≤ 8 }
{
    let _count = blocks.len();
}

fn short_list(bytes: &ArrayVec<u8, 256>)
    ensures { length bytes.now.items ≤ 256 }
{
    let _count = bytes.len();
}

fn short_lists(e: &Effect)
    ensures stored { length e.now.stored ≤ 256 }
    ensures written { length e.now.console_out ≤ 256 }
{
    short_list(&e.stored);
    short_list(&e.console_out);
}

/// A suppressed unit, seen to be sound.
pub(crate) fn stop(r: &Registers, len: u8, code: u8, blocks: ArrayVec<u16, 8>) -> Done
    ensures done { result ≡ suppressed r.now len code blocks.items }
    ensures sound { (m : Machine) (i : ℕ) → IsSound m i result }
{
    few_blocks(&blocks);
    suppress(r, len, code, blocks)
}

/// A completed row, seen to be sound.
fn complete(r: &Registers, len: u8, os: &Operands, e: Effect, blocks: ArrayVec<u16, 8>) -> Done
    requires inside { AreInside r.now (2 ^ 24) os.now }
    requires fits { Fits os.now }
    requires covers { Covers os.now e }
    requires fault { e.fault ≡ 0 }
    requires room { length blocks.items ≤ 4 }
    ensures done { result ≡ carried r.now len os.now e blocks.items }
    ensures sound { (m : Machine) (i : ℕ) (storage : List ℕ) (side : Beside) → IsAt m i r.now storage side
        → refusal r.now (memory storage side.keys) os.now ≡ 0
        → ReadsConsole e.console_in (length side.console) e.console_out → Sends side.bus e.sent
        → SetsKey e.set_key → IsSound m i result }
{
    sound_rows();
    short_lists(&e);
    carry(r, len, os, e, blocks)
}

/// The first code that refuses a byte of the operands, or 0; then all are inside the greatest storage.
fn refusal_of<V: View>(r: &Registers, keys: &Keys, view: &V, os: &Operands) -> u8
    requires { AreEven os.now }
    ensures code { result ≡ refusal r.now (memory (V.bytes view.now) keys.now) os.now }
    ensures inside { result ≡ 0 → AreInside r.now (2 ^ 24) os.now }
{
    // Its clause bounds the storage, so that the numbers of blocks fit in 16 bits.
    let _size = view.size();
    refused_of(r, keys, view, os)
}

/// The exceptions from the privileged operation on, in their order, for a row.
#[tactic(auto, unfolding(esa_model::specs::Unit::performed, esa_model::specs::Unit::exception))]
pub(crate) fn perform<V: View>(
    row: &Row,
    kind: Kind,
    r: &Registers,
    cpu: CpuNo,
    view: &mut V,
    side: &Side,
    i: &Instruction,
    blocks: ArrayVec<u16, 8>,
) -> Done
    requires fields { IsInRange i.now.decoded }
    requires room { length blocks.items ≤ 4 }
    requires known { IsKnown kind row.now.opcode }
    ensures done { result ≡ performed row.now (line kind row.now.opcode)
        (situation r.now cpu.0 (V.bytes view.old) side.now i.now) blocks.items }
    ensures sound { (m : Machine) → IsAt m cpu.0 r.now (V.bytes view.old) side.now → IsSound m cpu.0 result }
    ensures same { V.bytes view.new ≡ V.bytes view.old }
{
    let len = i.len;
    if row.privileged && r.psw.is_problem() {
        return stop(r, len, PRIVILEGED, blocks);
    }
    if !in_order(kind, row.opcode, r, cpu, view, side, i) {
        return stop(r, len, SPECIFICATION, blocks);
    }
    let os = operands(kind, row.opcode, r, cpu, view, side, i);
    let code = refusal_of(r, &side.keys, view, &os);
    if code != 0 {
        return stop(r, len, code, blocks);
    }
    let e = effect_of(kind, row.opcode, r, cpu, view, side, i);
    if e.fault != 0 {
        return stop(r, len, e.fault, blocks);
    }
    complete(r, len, &os, e, blocks)
}
