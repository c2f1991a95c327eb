// DIAGNOSE, whose two functions are the console.
ghost use Rattle.std.specs.Prelude.{◌≡◌, ◌≤◌, None, [], length, min, take, IfSome};
ghost use Rattle.esa_model.specs.ControlRows.{console_called};
ghost use Rattle.esa_model.specs.Line.{general, leaves, second_at};
ghost use Rattle.esa_model.specs.Rows.Controls.{diagnose_line, read_effect, registers_read, text_at};
ghost use Rattle.row_frame.specs.Made.{inputs, situation, Covers, IsInRange, ReadsConsole};

use abs_storage::View;
use arrayvec::ArrayVec;
use control_instr::console_call;
use esa_model::instructions::Decoded;
use esa_model::machine::{CpuNo, Registers};
use result_packet::{Console, Side};
use row_frame::{Effect, Instruction, after, bytes_of, general_of, leave, second_of, write};

/// The function that is called, true for reading: the second address names it, R3 has the count.
#[tactic(auto, using(crate::proofs::Called::count_known))]
pub fn function_called(r: &Registers, d: &Decoded) -> Option<bool>
    requires { IsInRange d.now }
    ensures called { result ≡ console_called (second_at r.now d.now) (general r.now d.now.r2) }
    ensures count { IfSome result (λ reads. general r.now d.now.r2 ≤ 256) }
{
    console_call(second_of(r, d), general_of(r, d.r2))
}

/// The address of the bytes that are written or read.
#[tactic(auto, unfolding(esa_model::specs::Rows::Controls::text_at))]
pub fn text_of(r: &Registers, d: &Decoded) -> u32
    requires { IsInRange d.now }
    ensures { result ≡ text_at r.now d.now }
{
    r.psw.wrapped(u64::from(general_of(r, d.r1)))
}

/// How many bytes a read gets.
fn count_read(count: u32, console: &Console) -> u32
    ensures { result ≡ min count (length console.now) }
{
    let left = console.left();
    if count < left { count } else { left }
}

/// The next bytes of the console input.
fn read_ahead(console: &Console, count: u32) -> ArrayVec<u8, 256>
    requires some { count ≤ 256 }
    requires left { count ≤ length console.now }
    ensures bytes { result.items ≡ take count console.now }
    ensures len { length result.items ≡ count }
{
    let mut list = ArrayVec::new();
    for k in 0..count {
        list.push(console.ahead(k).unwrap_or(0));
    }
    list
}

/// The registers after a read: R3 has the number of bytes.
#[tactic(auto, unfolding(esa_model::specs::Line::advanced))]
fn with_count<V: View>(r: &Registers, view: &V, i: &Instruction, count: u32) -> Registers
    requires { IsInRange i.now.decoded }
    ensures { result ≡ registers_read (inputs r.now (V.bytes view.now) i.now) count }
{
    let mut out = after(r, i.len);
    out.general[i.decoded.r2 as usize] = count;
    out
}

/// A read: the next bytes for the first operand, and their number in R3.
fn read<V: View>(r: &Registers, cpu: CpuNo, view: &V, side: &Side, i: &Instruction) -> Effect
    requires fields { IsInRange i.now.decoded }
    requires some { general r.now i.now.decoded.r2 ≤ 256 }
    ensures effect { result ≡ read_effect
        (situation r.now cpu.0 (V.bytes view.now) side.now i.now) }
    ensures short { length result.stored ≤ general r.now i.now.decoded.r2 }
    ensures console_out { result.console_out ≡ [] }
    ensures reads { ReadsConsole result.console_in (length side.now.console) result.console_out }
    ensures sent { result.sent ≡ None }
    ensures set_key { result.set_key ≡ None }
{
    let count = count_read(general_of(r, i.decoded.r2), &side.console);
    let mut e = leave(with_count(r, view, i, count));
    e.stored = read_ahead(&side.console, count);
    e.console_in = Some(count as u16);
    e
}

/// What DIAGNOSE does.
pub fn diagnose_effect<V: View>(
    r: &Registers,
    cpu: CpuNo,
    view: &mut V,
    side: &Side,
    i: &Instruction,
) -> Effect
    requires fields { IsInRange i.now.decoded }
    ensures effect { result ≡ diagnose_line.effect
        (situation r.now cpu.0 (V.bytes view.old) side.now i.now) }
    ensures covers { Covers (diagnose_line.operands
        (situation r.now cpu.0 (V.bytes view.old) side.now i.now)) result }
    ensures reads { ReadsConsole result.console_in (length side.now.console) result.console_out }
    ensures sent { result.sent ≡ None }
    ensures set_key { result.set_key ≡ None }
    ensures same { V.bytes view.new ≡ V.bytes view.old }
{
    let d = &i.decoded;
    match function_called(r, d) {
        Some(true) => read(r, cpu, view, side, i),
        Some(false) => {
            let text = bytes_of(r, view, text_of(r, d), general_of(r, d.r2));
            write(after(r, i.len), text)
        }
        None => leave(*r),
    }
}
