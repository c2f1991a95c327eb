// What the event of a fetch latch does, and its packet.
ghost use Rattle.std.specs.Prelude.{◌≡◌, false, drop};
ghost use Rattle.esa_model.specs.Latch.{latch as latch_bytes};
ghost use Rattle.esa_model.specs.Machine.{Machine, done, is_idle};
ghost use Rattle.packet_law.specs.Sound.{IsSound};
ghost use Rattle.twin_units.specs.Results.{IsPacket, IsStep};
ghost use Rattle.twin_units.specs.Units.{due_beside, IsAt};

use crate::done::Done;
use crate::interruptions::{early, external, refused_fetch, restart};
use crate::operation::unit_from;
use crate::telling::fields_of;
use abs_storage::View;
use esa_model::machine::{CpuNo, Registers};
use packet_law::{Packet, applied_is_next, told};
use psw_interrupts::enabled;
use result_packet::{FetchLatch, Side};

/// The six bytes of the instruction.
fn instruction_in(latch: &[u8; 8]) -> [u8; 6]
    ensures { result ≡ drop 2 latch.now }
{
    let mut bytes = [0; 6];
    bytes.copy_from_slice(&latch[2..]);
    bytes
}

/// What the event does that the eight bytes of a latch tell.
fn event_told<V: View>(
    latch: &[u8; 8],
    r: &Registers,
    cpu: CpuNo,
    view: &mut V,
    side: &Side,
) -> Done
    ensures done { latch.now ≡ latch_bytes r.now cpu.0 (V.bytes view.old) side.now → is_idle (due_beside r.now cpu.0 side.now) ≡ false
        → result ≡ done r.now cpu.0 (V.bytes view.old) side.now }
    ensures sound { (m : Machine) → IsAt m cpu.0 r.now (V.bytes view.old) side.now → IsSound m cpu.0 result }
    ensures same { V.bytes view.new ≡ V.bytes view.old }
{
    match latch[0] {
        0 => unit_from(&instruction_in(latch), r, cpu, view, side),
        1 => external(r, enabled(r, side.clock, &side.bus, cpu)),
        2 => restart(r),
        3 => early(r),
        _ => refused_fetch(r, latch[2], latch[1]),
    }
}

/// The packet of the event that a fetch latch tells, for a CPU with these registers. Applied where the
/// latch is that of the event which is due, it is the step of the machine. A latch that is not gives a
/// packet too.
pub fn compute<V: View>(
    latch: &FetchLatch,
    r: &Registers,
    cpu: CpuNo,
    view: &mut V,
    side: &Side,
) -> Packet
    ensures packet { IsPacket latch.now.bytes r.now cpu.0 (V.bytes view.old) side.now result }
    ensures step { IsStep latch.now.bytes r.now cpu.0 (V.bytes view.old) side.now result }
    ensures same { V.bytes view.new ≡ V.bytes view.old }
{
    applied_is_next();
    let d = event_told(&latch.bytes, r, cpu, view, side);
    let f = fields_of(r, &d, view);
    told(&f)
}
