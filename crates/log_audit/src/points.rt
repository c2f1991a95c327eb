// The seven points that an entry meets, by what is remembered.
#![tactic(auto)]

ghost use Rattle.std.specs.Prelude.{◌≡◌, ◌≤◌, ◌<◌, ℕ};
ghost use Rattle.run_model.specs.Lawful.{allows, is_none, is_some_of};
ghost use Rattle.run_model.specs.declared.logs.What.TheVariants.{Fenced, Retry};
ghost use Rattle.log_audit.specs.Points.{first_failed};
ghost use Rattle.log_audit.specs.Remembered.{core_known, failed_all, failed_to, fenced_by, points_by, retry_by, returned_by, spared_by, stop_by, turn_by};

use crate::memory::{KnownCpu, LastTurn};
use crate::sorts::is_returned;
use program_model::refusals::AuditRefusal;
use service_log::{Config, Entry, What};

// The turn is one of the log's, and may follow the one before.
fn turn_by(last: u64, r: LastTurn, e: Entry) -> bool
    ensures { result ≡ turn_by last r e }
{
    let may_share = r.cpu == e.cpu.0 && (!r.returned && !is_returned(e.what));
    1 <= e.turn && (e.turn <= last && (r.turn < e.turn || (r.turn == e.turn && may_share)))
}

fn allows(turn: u64, fenced: Option<u64>) -> bool
    ensures { result ≡ allows turn fenced }
{
    match fenced {
        None => true,
        Some(f) => f == turn,
    }
}

// The CPU is the machine's, goes on, and is on that core.
fn core_by(c: Config, k: KnownCpu, e: Entry) -> bool
    ensures { result ≡ core_known c k e }
{
    let open = allows(e.turn, k.fenced);
    is_returned(e.what) || (e.cpu.0 < c.cpus && (!k.stopped && (open && k.core == e.core.0)))
}

fn failed_to(r: u8, k: KnownCpu) -> bool
    requires { 1 ≤ r }
    ensures { result ≡ failed_to r k }
{
    k.failed && (r == 1 || k.retry_before == r - 1)
}

fn failed_all(threshold: u8, k: KnownCpu) -> bool
    ensures { result ≡ failed_all threshold k }
{
    k.failed && (threshold == 0 || k.chain_before == threshold)
}

fn may_retry(c: Config, k: KnownCpu, r: u8) -> bool
    ensures { result ≡ retry_by c k (Retry r) }
{
    1 <= r && (r <= c.threshold && failed_to(r, k))
}

// A RETRY comes after its FAIL, up to the threshold.
fn retry_by(c: Config, k: KnownCpu, what: What) -> bool
    ensures { result ≡ retry_by c k what }
{
    match what {
        What::Retry(r) => may_retry(c, k, r),
        _ => true,
    }
}

fn may_fence(c: Config, k: KnownCpu, r: LastTurn, turn: u64) -> bool
    ensures { result ≡ fenced_by c k r turn Fenced }
{
    let in_vain = failed_all(c.threshold, k);
    match k.fenced {
        None => (r.turn == turn && r.uncorrectable) || in_vain,
        Some(_) => false,
    }
}

// A FENCED is the first, after an UNCORRECTABLE or a FAIL past the threshold.
fn fenced_by(c: Config, k: KnownCpu, r: LastTurn, turn: u64, what: What) -> bool
    ensures { result ≡ fenced_by c k r turn what }
{
    match what {
        What::Fenced => may_fence(c, k, r, turn),
        _ => true,
    }
}

fn is_some_of(core: u8, lowest: Option<u8>) -> bool
    ensures { result ≡ is_some_of core lowest }
{
    match lowest {
        None => false,
        Some(k) => k == core,
    }
}

fn is_none(lowest: Option<u8>) -> bool
    ensures { result ≡ is_none lowest }
{
    match lowest {
        None => true,
        Some(_) => false,
    }
}

// SPARED and NOSPARE come after a FENCED; the core is the lowest on hand, or none is.
fn spared_by(r: LastTurn, turn: u64, lowest: Option<u8>, what: What) -> bool
    ensures { result ≡ spared_by r turn lowest what }
{
    let near = r.turn == turn && r.just_fenced;
    match what {
        What::Spared(core) => near && is_some_of(core.0, lowest),
        What::NoSpare => near && is_none(lowest),
        _ => true,
    }
}

// A STOP comes after an UNCORRECTABLE or a NOSPARE, and a FENCED.
fn stop_by(r: LastTurn, turn: u64, what: What) -> bool
    ensures { result ≡ stop_by r turn what }
{
    let same = r.turn == turn;
    match what {
        What::Stop => (same && r.reason) && (same && r.fenced),
        _ => true,
    }
}

// A returned core is fenced.
fn returned_by(fenced: bool, what: What) -> bool
    ensures { result ≡ returned_by fenced what }
{
    match what {
        What::Returned => fenced,
        _ => true,
    }
}

/// The refusal of an entry on the line of this number, or None where it meets all points: by what
/// is known of its CPU, of the last turn, of the lowest core on hand, and whether its core is
/// fenced.
pub fn refusal_by(
    number: u32,
    c: Config,
    last: u64,
    k: KnownCpu,
    r: LastTurn,
    lowest: Option<u8>,
    fenced: bool,
    e: Entry,
) -> Option<AuditRefusal>
    ensures { result ≡ first_failed number (points_by c last k r lowest fenced e) }
{
    if !turn_by(last, r, e) {
        return Some(AuditRefusal::Turn(number));
    }
    if !core_by(c, k, e) {
        return Some(AuditRefusal::Core(number));
    }
    if !retry_by(c, k, e.what) {
        return Some(AuditRefusal::Retry(number));
    }
    if !fenced_by(c, k, r, e.turn, e.what) {
        return Some(AuditRefusal::Fenced(number));
    }
    if !spared_by(r, e.turn, lowest, e.what) {
        return Some(AuditRefusal::Spared(number));
    }
    if !stop_by(r, e.turn, e.what) {
        return Some(AuditRefusal::Stop(number));
    }
    if !returned_by(fenced, e.what) {
        return Some(AuditRefusal::Returned(number));
    }
    None
}
