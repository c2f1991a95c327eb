// What a pass over the entries remembers: of CPUs, of the last turn, of cores.
#![tactic(auto)]

ghost use Rattle.std.specs.Prelude.{ℕ, ◌≡◌, ◌+◌, ◌<◌, ◌≤◌, ◌^◌, ◌==◌, ◌&&◌, List, [], ◌∷◌, Some, slice_get, slice_index, nat_lt, if◌then◌else◌, length};
ghost use Rattle.run_model.specs.declared.logs.Entry.{Entry as LogEntry};
ghost use Rattle.run_model.specs.declared.logs.What.TheVariants.{Retry};
ghost use Rattle.run_model.specs.Cores.{is_spare_number};
ghost use Rattle.run_model.specs.Cores.{lowest as lowest_of};
ghost use Rattle.run_model.specs.Lawful.{bit};
ghost use Rattle.run_model.specs.Sorts.{is_spared_to};
ghost use Rattle.log_audit.specs.Remembered.{chain_by, hand, learn, no_turn, recall, unknown};
ghost use Rattle.log_audit.specs.Remembers.{Remembers};
ghost use Rattle.log_audit.specs.declared.memory.KnownCpu.{KnownCpu as Known};

use crate::sorts::{
    after_fence_by, core_by, fence_by, is_corrected, is_fail, is_fence, is_reason, is_returned,
    is_stop, is_uncorrectable, retry_number,
};
use service_log::{Config, Entry, What};

/// What is remembered of a CPU.
#[derive(Clone, Copy)]
pub struct KnownCpu {
    /// It has a STOP.
    pub stopped: bool,
    /// The turn of its FENCED since its last SPARED.
    pub fenced: Option<u64>,
    pub core: u8,
    /// The last of its entries other than CORRECTED is a FAIL.
    pub failed: bool,
    /// The number of that entry where it is a RETRY, else 0.
    pub retry: u8,
    /// The same of the entry before it.
    pub retry_before: u8,
    /// Up to that entry, how far the retries go back without a gap to the first.
    pub chain: u8,
    /// The same up to the entry before it.
    pub chain_before: u8,
}

/// What is remembered of the last entry and of its turn.
#[derive(Clone, Copy)]
pub struct LastTurn {
    pub turn: u64,
    pub cpu: u8,
    /// The last entry is a RETURNED.
    pub returned: bool,
    /// The turn has an UNCORRECTABLE.
    pub uncorrectable: bool,
    /// The turn has an UNCORRECTABLE or a NOSPARE.
    pub reason: bool,
    /// The turn has a FENCED.
    pub fenced: bool,
    /// A FENCED of the turn stands last but for CORRECTED.
    pub just_fenced: bool,
}

/// What is remembered of all entries so far: of eight CPUs, of the last turn, and for each of 16
/// cores how often it was returned, taken and fenced.
#[derive(Drop)]
pub struct Memory {
    pub cpus: [KnownCpu; 8],
    pub last: LastTurn,
    pub returned: [u64; 16],
    pub taken: [u64; 16],
    pub fenced: [u64; 16],
}

// ---- CPUs

fn unknown(cpu: u8) -> KnownCpu
    ensures { result ≡ unknown cpu }
{
    KnownCpu {
        stopped: false,
        fenced: None,
        core: cpu,
        failed: false,
        retry: 0,
        retry_before: 0,
        chain: 0,
        chain_before: 0,
    }
}

fn chain_of_retry(r: u8, failed: bool, chain: u8) -> u8
    ensures { result ≡ chain_by (Retry r) failed chain }
{
    if failed && (r == 1 || u16::from(chain) + 1 == u16::from(r)) {
        r
    } else {
        0
    }
}

fn chain_by(what: What, failed: bool, chain: u8) -> u8
    ensures { result ≡ chain_by what failed chain }
{
    match what {
        What::Retry(r) => chain_of_retry(r, failed, chain),
        _ => 0,
    }
}

// What is known of a CPU after an entry of it.
fn learn(what: What, turn: u64, k: KnownCpu) -> KnownCpu
    ensures { result ≡ learn what turn k }
{
    if is_corrected(what) {
        return k;
    }
    KnownCpu {
        stopped: is_stop(what) || k.stopped,
        fenced: fence_by(what, turn, k.fenced),
        core: core_by(what, k.core),
        failed: is_fail(what),
        retry: retry_number(what),
        retry_before: k.retry,
        chain: chain_by(what, k.failed, k.chain_before),
        chain_before: k.chain,
    }
}

/// What is known of a CPU; of one past the eighth nothing is kept.
pub fn known_of(cpus: &[KnownCpu], cpu: u8) -> KnownCpu
    requires { length cpus.now ≡ 8 }
    ensures { cpu < 8 → slice_get cpus.now cpu ≡ Some result }
{
    if cpu < 8 {
        cpus[cpu as usize]
    } else {
        unknown(cpu)
    }
}

pub fn teach(cpus: &mut [KnownCpu], e: Entry)
    requires { length cpus.old ≡ 8 }
    ensures { (i : ℕ) (k : Known) → i < 8 → slice_get cpus.old i ≡ Some k
        → slice_get cpus.new i ≡ Some (if e.cpu.0 == i then learn e.what e.turn k else k) }
{
    let cpu = e.cpu.0;
    if cpu < 8 {
        let at = cpu as usize;
        cpus[at] = learn(e.what, e.turn, cpus[at]);
    }
}

// ---- the last turn

pub fn recall(e: Entry, last: LastTurn) -> LastTurn
    ensures { result ≡ recall e last }
{
    let same = last.turn == e.turn;
    LastTurn {
        turn: e.turn,
        cpu: e.cpu.0,
        returned: is_returned(e.what),
        uncorrectable: is_uncorrectable(e.what) || (same && last.uncorrectable),
        reason: is_reason(e.what) || (same && last.reason),
        fenced: is_fence(e.what) || (same && last.fenced),
        just_fenced: after_fence_by(e.what, true, same && last.just_fenced),
    }
}

fn no_turn() -> LastTurn
    ensures { result ≡ no_turn }
{
    LastTurn {
        turn: 0,
        cpu: 0,
        returned: false,
        uncorrectable: false,
        reason: false,
        fenced: false,
        just_fenced: false,
    }
}

// ---- cores

// Counts one more for a core below 16, where that is asked.
pub fn tick(counts: &mut [u64], core: u8, more: bool)
    requires long { length counts.old ≡ 16 }
    requires room { (k : ℕ) → k < 16 → slice_index counts.old k < 2 ^ 32 }
    ensures { (k : ℕ) → k < 16
        → slice_index counts.new k ≡ bit ((core == k) && more) + slice_index counts.old k }
{
    if more && core < 16 {
        counts[core as usize] += 1;
    }
}

pub fn tick_taken(counts: &mut [u64], what: What)
    requires long { length counts.old ≡ 16 }
    requires room { (k : ℕ) → k < 16 → slice_index counts.old k < 2 ^ 32 }
    ensures { (k : ℕ) → k < 16
        → slice_index counts.new k ≡ bit (is_spared_to k what) + slice_index counts.old k }
{
    match what {
        What::Spared(core) => tick(counts, core.0, true),
        _ => {}
    }
}

fn is_spare_number(c: Config, core: u8) -> bool
    requires { c.spares ≤ 8 }
    ensures { result ≡ is_spare_number c core }
{
    8 <= core && core < 8 + c.spares
}

fn is_on_hand(c: Config, taken: u64, returned: u64, core: u8) -> bool
    requires spares { c.spares ≤ 8 }
    requires room { returned < 2 ^ 32 }
    ensures { result ≡ nat_lt taken (returned + bit (is_spare_number c core)) }
{
    if is_spare_number(c, core) {
        taken < returned + 1
    } else {
        taken < returned
    }
}

/// The lowest core on hand.
pub fn lowest(c: Config, taken: &[u64], returned: &[u64]) -> Option<u8>
    requires spares { c.spares ≤ 8 }
    requires taken { length taken.now ≡ 16 }
    requires returned { length returned.now ≡ 16 }
    requires room { (k : ℕ) → k < 16 → slice_index returned.now k < 2 ^ 32 }
    ensures { result
        ≡ lowest_of (hand c (λ k. slice_index taken.now k) (λ k. slice_index returned.now k)) 0 16 }
{
    'cores: for core in 0..16 {
        let at = core as usize;
        if is_on_hand(c, taken[at], returned[at], core) {
            return Some(core);
        }
    }
    None
}

// ---- all of it

impl Memory {
    /// Before the first entry.
    pub fn new() -> Memory
        ensures { Remembers [] 0 result }
    {
        Memory {
            cpus: [
                unknown(0),
                unknown(1),
                unknown(2),
                unknown(3),
                unknown(4),
                unknown(5),
                unknown(6),
                unknown(7),
            ],
            last: no_turn(),
            returned: [0; 16],
            taken: [0; 16],
            fenced: [0; 16],
        }
    }
}
