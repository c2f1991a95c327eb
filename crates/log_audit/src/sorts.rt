// The sorts of log entries, and what an entry changes.
#![tactic(auto)]

ghost use Rattle.std.specs.Prelude.{◌≡◌};
ghost use Rattle.run_model.specs.Sorts.{is_corrected, is_fail, is_fence, is_reason, is_returned, is_spared, is_stop, is_uncorrectable};
ghost use Rattle.run_model.specs.Lawful.{after_fence_by, core_by, fence_by};
ghost use Rattle.log_audit.specs.Remembered.{retry_number};

use service_log::What;

pub fn is_returned(what: What) -> bool
    ensures { result ≡ is_returned what }
{
    match what {
        What::Returned => true,
        _ => false,
    }
}

pub fn is_fence(what: What) -> bool
    ensures { result ≡ is_fence what }
{
    match what {
        What::Fenced => true,
        _ => false,
    }
}

pub fn is_uncorrectable(what: What) -> bool
    ensures { result ≡ is_uncorrectable what }
{
    match what {
        What::Uncorrectable(_) => true,
        _ => false,
    }
}

// Why a CPU is check-stopped.
pub fn is_reason(what: What) -> bool
    ensures { result ≡ is_reason what }
{
    match what {
        What::Uncorrectable(_) => true,
        What::NoSpare => true,
        _ => false,
    }
}

pub fn is_stop(what: What) -> bool
    ensures { result ≡ is_stop what }
{
    match what {
        What::Stop => true,
        _ => false,
    }
}

pub fn is_spared(what: What) -> bool
    ensures { result ≡ is_spared what }
{
    match what {
        What::Spared(_) => true,
        _ => false,
    }
}

pub fn is_fail(what: What) -> bool
    ensures { result ≡ is_fail what }
{
    match what {
        What::Fail(_, _) => true,
        _ => false,
    }
}

pub fn is_corrected(what: What) -> bool
    ensures { result ≡ is_corrected what }
{
    match what {
        What::Corrected(_, _) => true,
        _ => false,
    }
}

// The number of a retry; 0 for every other entry.
pub fn retry_number(what: What) -> u8
    ensures { result ≡ retry_number what }
{
    match what {
        What::Retry(r) => r,
        _ => 0,
    }
}

// The turn of a CPU's last FENCED with no SPARED behind it, after an entry of that turn.
pub fn fence_by(what: What, turn: u64, before: Option<u64>) -> Option<u64>
    ensures { result ≡ fence_by what turn before }
{
    match what {
        What::Fenced => Some(turn),
        What::Spared(_) => None,
        _ => before,
    }
}

// The core of a CPU after an entry.
pub fn core_by(what: What, before: u8) -> u8
    ensures { result ≡ core_by what before }
{
    match what {
        What::Spared(core) => core.0,
        _ => before,
    }
}

// Whether a FENCED stands last but for CORRECTED.
pub fn after_fence_by(what: What, now: bool, before: bool) -> bool
    ensures { result ≡ after_fence_by what now before }
{
    match what {
        What::Corrected(_, _) => before,
        What::Fenced => now,
        _ => false,
    }
}
