// The two result units that are handed to a core: one that works by the rule, and one for tests that
// always answers one packet.
ghost use Rattle.std.specs.Prelude.{◌≡◌, ◌+◌, ◌-◌, ◌<◌, ◌^◌, IsTrue, Some, None, true, false};
ghost use Rattle.twin_units.specs.Results.{UnitView, IsPacket, IsStep};
ghost use Rattle.twin_units.specs.UnitsSeen.{plain, fixed};

use crate::computing::compute;
use abs_storage::View;
use esa_model::machine::{CpuNo, Registers};
use result_packet::{FetchLatch, Packet, Side};

/// One of the two units whose packets are compared. What is seen of it is the number of its calls, the
/// packet that it answered last, if any, and whether it is exact.
pub trait ResultUnit {
    ghost seen: { Self → UnitView };

    /// The packet of a fetch latch, for a CPU with these registers. It adds one call, and its answer
    /// becomes the unit's last packet. Of an exact unit it is the packet that `compute` gives.
    fn work<V: View>(
        &mut self,
        latch: &FetchLatch,
        r: &Registers,
        cpu: CpuNo,
        view: &mut V,
        side: &Side,
    ) -> Packet
        requires { (seen self.old).calls < 2 ^ 64 - 1 }
        ensures calls { (seen self.new).calls ≡ (seen self.old).calls + 1 }
        ensures last { (seen self.new).last ≡ Some result }
        ensures kind { (seen self.new).exact ≡ (seen self.old).exact }
        ensures packet { IsTrue (seen self.old).exact
            → IsPacket latch.now.bytes r.now cpu.0 (V.bytes view.old) side.now result }
        ensures step { IsTrue (seen self.old).exact
            → IsStep latch.now.bytes r.now cpu.0 (V.bytes view.old) side.now result }
        ensures same { V.bytes view.new ≡ V.bytes view.old };
}

/// A unit that works by `compute`.
#[derive(Drop)]
pub struct PlainUnit {
    calls: u64,
    last: Option<Packet>,
}

impl PlainUnit {
    /// A unit that has made no call.
    pub fn new() -> PlainUnit
        ensures { plain result ≡ record { calls = 0; last = None; exact = true } }
    {
        PlainUnit {
            calls: 0,
            last: None,
        }
    }
}

impl ResultUnit for PlainUnit {
    ghost use Rattle.twin_units.specs.UnitsSeen.{plain};

    ghost seen = { λ u. plain u };

    fn work<V: View>(
        &mut self,
        latch: &FetchLatch,
        r: &Registers,
        cpu: CpuNo,
        view: &mut V,
        side: &Side,
    ) -> Packet {
        let packet = compute(latch, r, cpu, view, side);
        self.calls += 1;
        self.last = Some(packet);
        packet
    }
}

/// A unit that always answers one packet, for tests.
#[derive(Drop)]
pub struct FixedUnit {
    packet: Packet,
    calls: u64,
}

impl FixedUnit {
    /// A unit that will answer this packet, and has made no call.
    pub fn new(packet: Packet) -> FixedUnit
        ensures unit { fixed result ≡ record { calls = 0; last = None; exact = false } }
        ensures packet { result.packet ≡ packet }
    {
        FixedUnit { packet, calls: 0 }
    }
}

impl ResultUnit for FixedUnit {
    ghost use Rattle.twin_units.specs.UnitsSeen.{fixed};

    ghost seen = { λ u. fixed u };

    fn work<V: View>(
        &mut self,
        _latch: &FetchLatch,
        _r: &Registers,
        _cpu: CpuNo,
        _view: &mut V,
        _side: &Side,
    ) -> Packet {
        self.calls += 1;
        self.packet
    }
}
