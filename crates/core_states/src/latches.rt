// Latches are sealed, handed in, and tested as they come back.
ghost use Rattle.std.specs.Prelude.{◌≡◌, ◌<◌, length, true, IsTrue, not};
ghost use Rattle.std.specs.Option.{is_some};
ghost use Rattle.esa_model.specs.Latch.{is_good};
ghost use Rattle.run_model.specs.Strikes.{fetch_bit, store_bit};
ghost use Rattle.silicon.specs.Chip.{Stays, last};
ghost use Rattle.silicon.specs.Tape.{tell};
ghost use Rattle.silicon.specs.declared.handed.Handed.TheVariants as handed;
ghost use Rattle.core_states.specs.Trial.{setting, fetch_latch as latch_due, store_latch as latch_of};
ghost use Rattle.core_states.specs.Trial.{passes_fetch as comes_good, passes_store as leaves_good};

use abs_storage::View;
use esa_model::machine::{CpuNo, Registers};
use result_packet::{FetchLatch, Packet, Side, StoreLatch};
use run_model::faults::CoreNo;
use silicon::Silicon;
use twin_units::latch;

/// The sealed latch of the event that is due.
#[tactic(auto, using(crate::proofs::Parities::odd_by_good))]
pub(crate) fn fetch_latch<V: View>(
    r: &Registers,
    cpu: CpuNo,
    view: &mut V,
    side: &Side,
) -> FetchLatch
    ensures is { result ≡ latch_due (setting r.now cpu.0 (V.bytes view.old) side.now) }
    ensures good { is_good result.bytes result.odd ≡ true }
    ensures eight { length result.bytes ≡ 8 }
    ensures view { V.bytes view.new ≡ V.bytes view.old }
{
    latch(r, cpu, view, side)
}

/// The sealed latch of a packet.
#[tactic(auto, using(crate::proofs::Parities::good_sealed))]
pub(crate) fn store_latch(packet: &Packet) -> StoreLatch
    ensures is { result ≡ latch_of packet.now }
    ensures good { is_good result.packet result.odd ≡ true }
{
    StoreLatch {
        packet: *packet,
        odd: false,
    }
    .sealed()
}

/// Whether a good fetch latch is good after it was passed: then it is as it was.
#[tactic(auto, using(crate::proofs::Parities::passes_as_unstruck, crate::proofs::Parities::same_where_good), unfolding(crate::specs::Trial::passes_fetch))]
pub(crate) fn passes_fetch<Z: Silicon>(core: CoreNo, latch: &mut FetchLatch, z: &mut Z) -> bool
    requires core { core.0 < 16 }
    requires begun { 0 < (Z.seen z.old).begun core.0 }
    requires good { is_good latch.old.bytes latch.old.odd ≡ true }
    requires eight { length latch.old.bytes ≡ 8 }
    ensures good { result ≡ comes_good latch.old
        (fetch_bit (Z.seen z.old).lines core.0 (last (Z.seen z.old) core.0)) }
    ensures unstruck { result
        ≡ not (is_some (fetch_bit (Z.seen z.old).lines core.0 (last (Z.seen z.old) core.0))) }
    ensures same { IsTrue result → latch.new.bytes ≡ latch.old.bytes }
    ensures stays { Stays (Z.seen z.old) (Z.seen z.new) }
    ensures tape { Z.tape z.new ≡ tell (Z.tape z.old)
        (handed.Fetch core (last (Z.seen z.old) core.0) latch.old) }
{
    z.pass_fetch(core, latch);
    latch.is_good()
}

/// Whether a good store latch is good after it was passed.
#[tactic(auto, using(crate::proofs::Parities::leaves_as_unstruck), unfolding(crate::specs::Trial::passes_store))]
pub(crate) fn passes_store<Z: Silicon>(core: CoreNo, latch: &mut StoreLatch, z: &mut Z) -> bool
    requires core { core.0 < 16 }
    requires begun { 0 < (Z.seen z.old).begun core.0 }
    requires good { is_good latch.old.packet latch.old.odd ≡ true }
    requires long { length latch.old.packet ≡ 512 }
    ensures good { result ≡ leaves_good latch.old
        (store_bit (Z.seen z.old).lines core.0 (last (Z.seen z.old) core.0)) }
    ensures unstruck { result
        ≡ not (is_some (store_bit (Z.seen z.old).lines core.0 (last (Z.seen z.old) core.0))) }
    ensures stays { Stays (Z.seen z.old) (Z.seen z.new) }
    ensures tape { Z.tape z.new ≡ tell (Z.tape z.old)
        (handed.Store core (last (Z.seen z.old) core.0) latch.old) }
{
    z.pass_store(core, latch);
    latch.is_good()
}
