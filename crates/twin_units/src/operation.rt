// One unit of operation, from the bytes of its instruction.
ghost use Rattle.std.specs.Prelude.{◌≡◌, ℕ, ◌≤◌, ◌<◌, ◌^◌, ◌%◌, List, [], Some, true, false, length};
ghost use Rattle.esa_model.specs.Access.{codes, noted_of, whole as whole_of};
ghost use Rattle.esa_model.specs.Line.{part};
ghost use Rattle.esa_model.specs.Machine.{Machine};
ghost use Rattle.esa_model.specs.Rows.All.{is_of_kind};
ghost use Rattle.esa_model.specs.Table.{kind_at, kind_numbered, length_of, row_at, row_numbered};
ghost use Rattle.esa_model.specs.Unit.{executed, instructed, modified, target_of};
ghost use Rattle.esa_model.specs.Word.{first_code};
ghost use Rattle.operand_access.specs.Seen.{memory, IsInside};
ghost use Rattle.packet_law.specs.Sound.{IsSound};
ghost use Rattle.twin_units.specs.Units.{IsAt, unit_of_bytes};

use crate::done::Done;
use crate::exceptions::{perform, stop};
use abs_storage::View;
use arrayvec::ArrayVec;
use esa_model::codes::{EXECUTE, EXECUTED, OPERATION};
use esa_model::instructions::{Decoded, Row};
use esa_model::kinds::Kind;
use esa_model::machine::{CpuNo, Registers};
use esa_table::{decode, kind, row};
use operand_access::{effective, instruction, note_operand, operand_code, whole};
use result_packet::Side;
use row_frame::Instruction;
use storage_keys::Keys;

/// The row of an instruction of the table.
fn row_of(d: &Decoded) -> Row
    requires { row_at d.now.row ≡ Some (row_numbered d.now.row) }
    ensures { result ≡ row_numbered d.now.row }
{
    match row(d.row) {
        Some(row) => row,
        None => unreachable!(),
    }
}

/// The kind of the row of an instruction of the table.
fn kind_of(d: &Decoded) -> Kind
    requires { kind_at d.now.row ≡ Some (kind_numbered d.now.row) }
    ensures { result ≡ kind_numbered d.now.row }
{
    match kind(d.row) {
        Some(kind) => kind,
        None => unreachable!(),
    }
}

/// What the six bytes of an instruction do.
#[tactic(auto, unfolding(esa_model::specs::Unit::instructed))]
fn instruct<V: View>(
    r: &Registers,
    cpu: CpuNo,
    view: &mut V,
    side: &Side,
    bytes: &[u8; 6],
    own: u32,
    len: u8,
    blocks: ArrayVec<u16, 8>,
) -> Done
    requires { length blocks.items ≤ 4 }
    ensures done { result ≡ instructed r.now cpu.0 (V.bytes view.old) side.now bytes.now own len blocks.items }
    ensures sound { (m : Machine) → IsAt m cpu.0 r.now (V.bytes view.old) side.now → IsSound m cpu.0 result }
    ensures same { V.bytes view.new ≡ V.bytes view.old }
{
    let Some(decoded) = decode(bytes) else {
        return stop(r, len, OPERATION, blocks);
    };
    let row = row_of(&decoded);
    let kind = kind_of(&decoded);
    let i = Instruction { decoded, own, len };
    perform(&row, kind, r, cpu, view, side, &i, blocks)
}

/// The address of the target of EX, from its bytes.
fn target_at(r: &Registers, bytes: &[u8; 6]) -> u32
    ensures { result ≡ target_of r.now bytes.now }
{
    let displacement = (bytes[2] % 16) as u16 * 256 + bytes[3] as u16;
    effective(r, bytes[2] / 16, bytes[1] % 16, displacement)
}

/// The low byte of a register, 0 for register number 0.
fn low_byte(r: &Registers, n: u8) -> u8
    requires { n < 16 }
    ensures { result ≡ part r.now n % 256 }
{
    if n == 0 {
        0
    } else {
        (r.general[n as usize] % 256) as u8
    }
}

/// The target's bytes as EX has them done: the second or-ed with the low byte of R1.
fn modify(r: &Registers, r1: u8, target: &[u8; 6]) -> [u8; 6]
    requires { r1 < 16 }
    ensures { result ≡ modified r.now r1 target.now }
{
    let mut bytes = *target;
    bytes[1] = target[1] | low_byte(r, r1);
    bytes
}

/// EX, from its bytes: its target with the length and the next address of EX.
#[tactic(auto, unfolding(esa_model::specs::Unit::executed, esa_model::specs::Unit::fetched_blocks))]
fn execute<V: View>(
    r: &Registers,
    cpu: CpuNo,
    view: &mut V,
    side: &Side,
    bytes: &[u8; 6],
    mut blocks: ArrayVec<u16, 8>,
) -> Done
    requires { length blocks.items ≤ 2 }
    ensures done { result ≡ executed r.now cpu.0 (V.bytes view.old) side.now bytes.now blocks.items }
    ensures sound { (m : Machine) → IsAt m cpu.0 r.now (V.bytes view.old) side.now → IsSound m cpu.0 result }
    ensures same { V.bytes view.new ≡ V.bytes view.old }
{
    // Its clause bounds the storage, so that the numbers of blocks fit in 16 bits.
    let _size = view.size();
    let at = target_at(r, bytes);
    let target = instruction(r, &side.keys, view, at);
    if target.fault != 0 {
        return stop(r, 4, target.fault, blocks);
    }
    note_operand(r, &whole(at, target.len as u32, true, false), &mut blocks);
    if target.bytes[0] == EXECUTE {
        return stop(r, 4, EXECUTED, blocks);
    }
    let modified = modify(r, bytes[1] / 16, &target.bytes);
    instruct(r, cpu, view, side, &modified, at, 4, blocks)
}

/// The length of an instruction in bytes, by its first byte.
pub(crate) fn length_by(first: u8) -> u8
    ensures len { result ≡ length_of first }
    ensures short { result ≤ 6 }
{
    if first < 64 {
        2
    } else if first < 192 {
        4
    } else {
        6
    }
}

/// Why the bytes of an instruction may not be fetched, or 0; then all are inside the greatest storage.
fn code_of<V: View>(r: &Registers, keys: &Keys, view: &V, at: u32, len: u8) -> u8
    requires short { len ≤ 6 }
    ensures code { result ≡ first_code (codes r.now (memory (V.bytes view.now) keys.now) (whole_of at len true false)) }
    ensures inside { result ≡ 0 → IsInside r.now (2 ^ 24) (whole_of at len true false) }
{
    // Its clause bounds the storage, so that the numbers of blocks fit in 16 bits.
    let _size = view.size();
    operand_code(r, keys, view, &whole(at, len as u32, true, false))
}

/// The blocks of an instruction.
fn blocks_of(r: &Registers, at: u32, len: u8) -> ArrayVec<u16, 8>
    requires short { len ≤ 6 }
    requires inside { IsInside r.now (2 ^ 24) (whole_of at len true false) }
    ensures blocks { result.items ≡ noted_of r.now (whole_of at len true false) [] }
    ensures few { length result.items ≤ 2 }
{
    let mut blocks = ArrayVec::new();
    note_operand(r, &whole(at, len as u32, true, false), &mut blocks);
    blocks
}

/// The unit of operation of six bytes that are said to stand at the instruction address. Where they were fetched
/// there it is the unit that is due; any others give a sound unit too, a suppressed one where as many bytes may
/// not be fetched there.
#[tactic(auto, unfolding(crate::specs::Units::unit_of_bytes))]
pub(crate) fn unit_from<V: View>(
    bytes: &[u8; 6],
    r: &Registers,
    cpu: CpuNo,
    view: &mut V,
    side: &Side,
) -> Done
    ensures done { result ≡ unit_of_bytes r.now cpu.0 (V.bytes view.old) side.now bytes.now }
    ensures sound { (m : Machine) → IsAt m cpu.0 r.now (V.bytes view.old) side.now → IsSound m cpu.0 result }
    ensures same { V.bytes view.new ≡ V.bytes view.old }
{
    let at = r.psw.address();
    let len = length_by(bytes[0]);
    let code = code_of(r, &side.keys, view, at, len);
    if code != 0 {
        return stop(r, len, code, ArrayVec::new());
    }
    let blocks = blocks_of(r, at, len);
    if bytes[0] == EXECUTE {
        execute(r, cpu, view, side, bytes, blocks)
    } else {
        instruct(r, cpu, view, side, bytes, at, len, blocks)
    }
}
