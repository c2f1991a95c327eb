// What is counted of turns.
ghost use Rattle.std.specs.Prelude.{◌≡◌, ◌+◌, ◌<◌, ◌≤◌, ◌^◌, length};
ghost use Rattle.esa_model.specs.Changes.{stretches};
ghost use Rattle.run_loop.specs.Bounds.{Below};
ghost use Rattle.run_loop.specs.Engines.{told_of};
ghost use Rattle.run_model.specs.Counts.{count_turn as count_told};
ghost use Rattle.run_model.specs.Pieces.{text};
ghost use Rattle.run_model.specs.Texts.{commit_pieces, turn_pieces};
ghost use Rattle.run_model.specs.Trace.{trace_line};
ghost use Rattle.run_model.specs.declared.outputs.Place.TheVariants.{Trace};
ghost use Rattle.gen_runs.specs.Counted.{RisesBy, nothing_counted};

use arrayvec::ArrayVec;
use esa_model::machine::{CpuNo, Event};
use run_loop::{Turn, count_turn, none_made};
use run_model::outputs::Counts;
use trace_text::put_line;

/// What is counted of turns: the numbers of a run's summary, the last of them the bytes that the trace would
/// have.
#[derive(Clone, Copy, Debug, PartialEq, Eq)]
pub struct Tally {
    pub counts: Counts,
    pub trace: u64,
}

/// The tally before the first turn.
pub fn nothing_counted() -> Tally
    ensures { result ≡ nothing_counted }
{
    Tally {
        counts: none_made(),
        trace: 0,
    }
}

// The length of a commit's trace line.
fn line_length(number: u64, cpu: CpuNo, turn: &Turn) -> u64
    requires number { number ≤ 1000000 }
    requires stretches { length (stretches turn.now.written.changed.items) ≤ 135 }
    ensures value { result
        ≡ length (trace_line number cpu.0 turn.now.psw turn.now.written.changed.items) }
    ensures small { result ≤ 2048 }
{
    let mut text = ArrayVec::new();
    put_line(&mut text, number, cpu, turn.psw, &turn.written.changed);
    text.len() as u64
}

// The length of what a turn adds to the trace, before which so many commits were made.
fn event_length(commits: u64, turn: &Turn) -> u64
    requires commits { commits < 1000000 }
    requires stretches { length (stretches turn.now.written.changed.items) ≤ 135 }
    ensures value { result
        ≡ length (text Trace (commit_pieces commits (told_of turn.now) turn.now.event)) }
    ensures small { result ≤ 2048 }
{
    match turn.event {
        Some(Event::Commit(cpu)) => line_length(commits + 1, cpu, turn),
        Some(Event::Idle(_)) => 0,
        Some(Event::Stop(_)) => 0,
        Some(Event::Key(_)) => 0,
        None => 0,
    }
}

/// Counts a turn.
pub fn add_turn(before: Tally, turn: &Turn) -> Tally
    requires below { Below (2 ^ 62) before.counts }
    requires commits { before.counts.commits < 1000000 }
    requires trace { before.trace < 2 ^ 62 }
    requires stretches { length (stretches turn.now.written.changed.items) ≤ 135 }
    ensures counts { result.counts ≡ count_told before.counts (told_of turn.now) }
    ensures trace { result.trace ≡ before.trace
        + length (text Trace (turn_pieces before.counts.commits (told_of turn.now))) }
    ensures rises { RisesBy 1 before result }
{
    let length = event_length(before.counts.commits, turn);
    Tally {
        counts: count_turn(before.counts, turn),
        trace: before.trace + length,
    }
}
