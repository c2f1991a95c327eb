// The rows on the clock, the clock comparator and the CPU timer.
ghost use Rattle.std.specs.Prelude.{◌≡◌, [], IsTrue, length};
ghost use Rattle.std.specs.Option.{unwrap_or};
ghost use Rattle.byteorder.specs.Endian.{big_bytes, big_number};
ghost use Rattle.esa_model.specs.Access.{bytes};
ghost use Rattle.esa_model.specs.Clocks.{clock_row as clock_row_of, is_clock_row};
ghost use Rattle.esa_model.specs.Line.{advanced, coded, stores};
ghost use Rattle.esa_model.specs.Rows.Controls.{sets_clock_line};
ghost use Rattle.row_frame.specs.Made.{situation, IsInRange, IsPlain, IsQuiet};

use abs_storage::View;
use arrayvec::ArrayVec;
use byteorder::{BigEndian, ByteOrder};
use control_instr::clock_row;
use esa_model::machine::{CpuNo, Registers};
use operand_access::gather;
use result_packet::Side;
use row_frame::{Effect, Instruction, after, after_coded, leave, listed, second_of, store};

/// The doubleword at an effective address.
fn doubleword_at<V: View>(r: &Registers, view: &mut V, at: u32) -> u64
    ensures number { result ≡ big_number 8 (bytes r.now (V.bytes view.old) at 8) }
    ensures same { V.bytes view.new ≡ V.bytes view.old }
{
    let mut bytes = [0; 8];
    gather(r, view, at, &mut bytes);
    BigEndian::read_u64(&bytes)
}

/// The bytes of a doubleword.
fn bytes_of_doubleword(value: u64) -> ArrayVec<u8, 256>
    ensures bytes { result.items ≡ big_bytes 8 value }
    ensures len { length result.items ≡ 8 }
{
    let mut bytes = [0; 8];
    BigEndian::write_u64(&mut bytes, value);
    listed(&bytes)
}

/// STORE CLOCK: the clock before the event.
pub fn clock_effect(r: &Registers, clock: u64, len: u8) -> Effect
    ensures effect { result ≡ stores (coded (advanced r.now len) 0) (big_bytes 8 clock) }
    ensures bytes { length result.stored ≡ 8 }
    ensures console_out { result.console_out ≡ [] }
    ensures quiet { IsQuiet result }
{
    store(after_coded(r, len, 0), bytes_of_doubleword(clock))
}

/// A row that sets the clock comparator or the CPU timer.
#[tactic(auto, unfolding(esa_model::specs::Line::advanced))]
pub fn sets_clock_effect<V: View>(
    opcode: u16,
    r: &Registers,
    cpu: CpuNo,
    view: &mut V,
    side: &Side,
    i: &Instruction,
) -> Effect
    requires fields { IsInRange i.now.decoded }
    requires known { IsTrue (is_clock_row opcode) }
    ensures effect { result ≡ (sets_clock_line opcode).effect
        (situation r.now cpu.0 (V.bytes view.old) side.now i.now) }
    ensures plain { IsPlain result }
    ensures quiet { IsQuiet result }
    ensures same { V.bytes view.new ≡ V.bytes view.old }
{
    let operand = doubleword_at(r, view, second_of(r, &i.decoded));
    let row = clock_row(opcode, &r.clocks, side.clock, operand);
    let words = row.words;
    let mut out = after(r, i.len);
    out.clocks = words;
    leave(out)
}

/// A row that stores the clock comparator or the CPU timer.
pub fn stores_clock_effect(opcode: u16, r: &Registers, clock: u64, len: u8) -> Effect
    requires known { IsTrue (is_clock_row opcode) }
    ensures effect { result ≡ stores (advanced r.now len)
        (big_bytes 8 (unwrap_or (clock_row_of opcode r.now.clocks clock 0).stored 0)) }
    ensures bytes { length result.stored ≡ 8 }
    ensures console_out { result.console_out ≡ [] }
    ensures quiet { IsQuiet result }
{
    let value = clock_row(opcode, &r.clocks, clock, 0).stored.unwrap_or(0);
    store(after(r, len), bytes_of_doubleword(value))
}
