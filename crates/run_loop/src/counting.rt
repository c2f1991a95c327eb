// What is counted of turns.
ghost use Rattle.std.specs.Prelude.{◌≡◌, ℕ, ◌+◌, ◌<◌, ◌≤◌, ◌^◌, length};
ghost use Rattle.run_model.specs.Counts.{commits_by, count_what, count_entries, count_turn, none_made};
ghost use Rattle.run_loop.specs.Bounds.{Below};
ghost use Rattle.run_loop.specs.Engines.{told_of};

use crate::engine::Turn;
use esa_model::machine::Event;
use run_model::logs::{Entry, What};
use run_model::outputs::Counts;

/// The counts before the first turn.
pub fn none_made() -> Counts
    ensures { result ≡ none_made }
{
    Counts {
        turns: 0,
        commits: 0,
        fails: 0,
        retries: 0,
        corrected: 0,
        spared: 0,
        stopped: 0,
        returned: 0,
    }
}

#[tactic(auto, using(crate::proofs::Rising::below_what))]
fn count_what(n: Counts, what: What) -> Counts
    requires { Below (2 ^ 63) n }
    ensures counts { result ≡ count_what n what }
    ensures small { (most : ℕ) → Below most n → Below (most + 1) result }
{
    match what {
        What::Fail(_, _) => Counts {
            fails: n.fails + 1,
            ..n
        },
        What::Retry(_) => Counts {
            retries: n.retries + 1,
            ..n
        },
        What::Corrected(_, _) => Counts {
            corrected: n.corrected + 1,
            ..n
        },
        What::Uncorrectable(_) => n,
        What::Fenced => n,
        What::Spared(_) => Counts {
            spared: n.spared + 1,
            ..n
        },
        What::NoSpare => n,
        What::Stop => Counts {
            stopped: n.stopped + 1,
            ..n
        },
        What::Returned => Counts {
            returned: n.returned + 1,
            ..n
        },
    }
}

fn commits_by(event: Option<Event>, n: u64) -> u64
    requires { n < 2 ^ 63 }
    ensures counts { result ≡ commits_by event n }
{
    match event {
        Some(Event::Commit(_)) => n + 1,
        Some(Event::Idle(_)) => n,
        Some(Event::Stop(_)) => n,
        Some(Event::Key(_)) => n,
        None => n,
    }
}

fn count_entries(n: Counts, entries: &[Entry]) -> Counts
    requires small { Below (2 ^ 62 + 1) n }
    requires few { length entries.now ≤ 44 }
    ensures counts { result ≡ count_entries n entries.now }
    ensures small { (most : ℕ) → Below most n → Below (most + 44) result }
{
    let mut sum = n;
    'entries: for entry in entries {
        sum = count_what(sum, entry.what);
    }
    sum
}

// The turn itself, and its commit.
#[tactic(auto, using(crate::proofs::Rising::below_turn))]
fn count_event(n: Counts, event: Option<Event>) -> Counts
    requires { Below (2 ^ 62) n }
    ensures counts { result ≡ record n { turns = n.turns + 1; commits = commits_by event n.commits } }
    ensures small { (most : ℕ) → Below most n → Below (most + 1) result }
{
    Counts {
        turns: n.turns + 1,
        commits: commits_by(event, n.commits),
        ..n
    }
}

/// The counts after a turn.
pub fn count_turn(n: Counts, turn: &Turn) -> Counts
    requires { Below (2 ^ 62) n }
    ensures counts { result ≡ count_turn n (told_of turn.now) }
    ensures small { (most : ℕ) → Below most n → Below (most + 45) result }
{
    count_entries(count_event(n, turn.event), turn.entries.as_slice())
}
