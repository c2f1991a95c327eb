// The fetch latch of the event that is due.
ghost use Rattle.std.specs.Prelude.{◌≡◌, ◌∷◌, replicate, true};
ghost use Rattle.esa_model.specs.Latch.{is_good, latch as latch_bytes, latch_of, unit_latch};
ghost use Rattle.operand_access.specs.Seen.{memory};

use abs_storage::View;
use esa_model::machine::{CpuNo, Due, Registers};
use operand_access::instruction;
use psw_interrupts::due;
use result_packet::{FetchLatch, Side, latches_tell_one_bit};

/// The number of an event, what it tells of an instruction, and the six bytes of that.
fn bytes_of(event: u8, told: u8, instruction: &[u8; 6]) -> [u8; 8]
    ensures { result ≡ event ∷ told ∷ instruction.now }
{
    let mut bytes = [0; 8];
    bytes[0] = event;
    bytes[1] = told;
    bytes[2..].copy_from_slice(instruction);
    bytes
}

/// The number of an event that has no instruction, and zeros.
fn number_alone(event: u8) -> [u8; 8]
    ensures { result ≡ event ∷ replicate 7 0 }
{
    [event, 0, 0, 0, 0, 0, 0, 0]
}

/// The bytes for a unit of operation: its instruction, or why the fetch of that is refused.
fn unit_bytes<V: View>(r: &Registers, view: &mut V, side: &Side) -> [u8; 8]
    ensures bytes { result ≡ unit_latch r.now (memory (V.bytes view.old) side.now.keys) }
    ensures same { V.bytes view.new ≡ V.bytes view.old }
{
    let fetched = instruction(r, &side.keys, view, r.psw.address());
    if fetched.fault == 0 {
        bytes_of(0, fetched.len, &fetched.bytes)
    } else {
        bytes_of(4, fetched.fault, &fetched.bytes)
    }
}

/// The bytes for an event.
fn bytes_for<V: View>(event: Due, r: &Registers, view: &mut V, side: &Side) -> [u8; 8]
    ensures bytes { result ≡ latch_of r.now (memory (V.bytes view.old) side.now.keys) event }
    ensures same { V.bytes view.new ≡ V.bytes view.old }
{
    match event {
        Due::Idle => number_alone(0),
        Due::External(_) => number_alone(1),
        Due::Restart => number_alone(2),
        Due::Early => number_alone(3),
        Due::UnitOfOperation => unit_bytes(r, view, side),
    }
}

/// The fetch latch of the event that is due, sealed: byte 0 is 0 for a unit of operation, 1 an external
/// interruption, 2 a restart, 3 an early specification exception, 4 a unit whose fetch is refused; byte 1
/// is the length of the instruction in bytes, of a refused fetch the program code; bytes 2 to 7 are the
/// instruction, of a refused fetch its first halfword where that was fetched. Where the CPU is idle all
/// eight are zero.
#[tactic(auto, unfolding(esa_model::specs::Latch::latch))]
pub fn latch<V: View>(r: &Registers, cpu: CpuNo, view: &mut V, side: &Side) -> FetchLatch
    ensures bytes { result.bytes ≡ latch_bytes r.now cpu.0 (V.bytes view.old) side.now }
    ensures good { is_good result.bytes result.odd ≡ true }
    ensures same { V.bytes view.new ≡ V.bytes view.old }
{
    latches_tell_one_bit();
    let bytes = bytes_for(due(r, side.clock, &side.bus, cpu), r, view, side);
    FetchLatch { bytes, odd: false }.sealed()
}
