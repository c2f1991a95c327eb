// What a turn writes: its log entries, and after a commit its trace line and its console bytes.
ghost use Rattle.std.specs.Prelude.{◌≡◌, ◌<◌, ◌≤◌, [], ◌∷◌, length};
ghost use Rattle.esa_model.specs.Changes.{stretches};
ghost use Rattle.g5_writing.specs.Outputs.{HasFiles, Puts};
ghost use Rattle.run_model.specs.LogLines.{entry_line};
ghost use Rattle.run_model.specs.Pieces.{piece};
ghost use Rattle.run_model.specs.Texts.{entry_pieces, commit_pieces, turn_pieces};
ghost use Rattle.run_model.specs.Trace.{trace_line};
ghost use Rattle.run_loop.specs.Engines.{told_of};

use crate::engine::Turn;
use arrayvec::ArrayVec;
use esa_model::machine::{CpuNo, Event};
use g5_outside::{Failed, Shelf, Sink};
use g5_writing::{OutputFiles, Place, put};
use run_model::logs::Entry;
use service_log::write;
use trace_text::put_line;

fn write_entry<F: Shelf, O: Sink>(
    shelf: &mut F,
    out: &mut O,
    files: OutputFiles,
    entry: &Entry,
) -> Result<(), Failed>
    requires { HasFiles (F.seen shelf.old) files }
    ensures { Puts files (piece Place.Log (entry_line entry.now) ∷ [])
        (F.seen shelf.old) (F.seen shelf.new) (O.seen out.old) (O.seen out.new) result }
{
    let text = write(entry);
    put(shelf, out, files, Place::Log, &text)
}

fn write_entries<F: Shelf, O: Sink>(
    shelf: &mut F,
    out: &mut O,
    files: OutputFiles,
    entries: &[Entry],
) -> Result<(), Failed>
    requires { HasFiles (F.seen shelf.old) files }
    ensures { Puts files (entry_pieces entries.now)
        (F.seen shelf.old) (F.seen shelf.new) (O.seen out.old) (O.seen out.new) result }
{
    'entries: for entry in entries {
        match write_entry(shelf, out, files, entry) {
            Err(failed) => return Err(failed),
            Ok(()) => {}
        }
    }
    Ok(())
}

// Writes the trace line, with the number of the commit, and the console bytes.
fn write_commit<F: Shelf, O: Sink>(
    shelf: &mut F,
    out: &mut O,
    files: OutputFiles,
    number: u64,
    cpu: CpuNo,
    turn: &Turn,
) -> Result<(), Failed>
    requires files { HasFiles (F.seen shelf.old) files }
    requires number { number ≤ 1000000 }
    requires stretches { length (stretches turn.now.written.changed.items) ≤ 135 }
    ensures { Puts files
        (piece Place.Trace (trace_line number cpu.0 turn.now.psw turn.now.written.changed.items)
        ∷ piece Place.Out turn.now.written.console.items ∷ [])
        (F.seen shelf.old) (F.seen shelf.new) (O.seen out.old) (O.seen out.new) result }
{
    let mut text = ArrayVec::new();
    put_line(&mut text, number, cpu, turn.psw, &turn.written.changed);
    put(shelf, out, files, Place::Trace, &text)?;
    put(shelf, out, files, Place::Out, &turn.written.console)
}

#[tactic(auto, using(g5_writing::proofs::Putting::puts_none))]
fn write_event<F: Shelf, O: Sink>(
    shelf: &mut F,
    out: &mut O,
    files: OutputFiles,
    commits: u64,
    turn: &Turn,
) -> Result<(), Failed>
    requires files { HasFiles (F.seen shelf.old) files }
    requires commits { commits < 1000000 }
    requires stretches { length (stretches turn.now.written.changed.items) ≤ 135 }
    ensures { Puts files (commit_pieces commits (told_of turn.now) turn.now.event)
        (F.seen shelf.old) (F.seen shelf.new) (O.seen out.old) (O.seen out.new) result }
{
    match turn.event {
        Some(Event::Commit(cpu)) => write_commit(shelf, out, files, commits + 1, cpu, turn),
        Some(Event::Idle(_)) => Ok(()),
        Some(Event::Stop(_)) => Ok(()),
        Some(Event::Key(_)) => Ok(()),
        None => Ok(()),
    }
}

/// Writes what a turn tells, before which so many commits were made.
pub fn write_turn<F: Shelf, O: Sink>(
    shelf: &mut F,
    out: &mut O,
    files: OutputFiles,
    commits: u64,
    turn: &Turn,
) -> Result<(), Failed>
    requires files { HasFiles (F.seen shelf.old) files }
    requires commits { commits < 1000000 }
    requires stretches { length (stretches turn.now.written.changed.items) ≤ 135 }
    ensures { Puts files (turn_pieces commits (told_of turn.now))
        (F.seen shelf.old) (F.seen shelf.new) (O.seen out.old) (O.seen out.new) result }
{
    match write_entries(shelf, out, files, turn.entries.as_slice()) {
        Err(failed) => Err(failed),
        Ok(()) => write_event(shelf, out, files, commits, turn),
    }
}
