use fault_script::Unit;
use result_packet::{FetchLatch, Packet, StoreLatch};
use run_model::faults::CoreNo;

/// A latch or packet as it was handed in, with its core and attempt.
#[derive(Clone, Copy)]
pub enum Handed {
    Fetch(CoreNo, u64, FetchLatch),
    Packet(CoreNo, u64, Unit, Packet),
    Store(CoreNo, u64, StoreLatch),
}
