// An engine that plays five turns, over files and a console in memory.
ghost use Rattle.std.specs.Prelude.{◌≡◌, ◌≤◌, ◌^◌, [], IfOk, IfSome, length};
ghost use Rattle.esa_model.specs.Changes.{stretches};
ghost use Rattle.g5_outside.specs.MemoryShelves.{shelf_view};
ghost use Rattle.g5_writing.specs.Outputs.{HasFiles};
ghost use Rattle.run_model.specs.Counts.{none_made};
ghost use Rattle.run_loop.specs.Bounds.{Below};
ghost use Rattle.run_loop.specs.Engines.{FailsAsStruck, IsStruck};

use crate::{Engine, Turn, make_run, make_runs, make_turn, none_made};
use arrayvec::ArrayVec;
use esa_model::changes::Changed;
use esa_model::machine::{CpuNo, Event, Psw};
use g5_outside::{Failed, FileNo, MemoryShelf, MemorySink, Shelf, Sink};
use g5_writing::{OutputFiles, start_files};
use result_packet::Written;
use run_model::faults::CoreNo;
use run_model::logs::{Entry, What};
use run_model::outputs::Counts;
use run_model::schedules::{Run, RunKind};
use silicon::{ScriptSilicon, Silicon};
use std::alloc::Global;
use std::test::Fail;

#[derive(Drop)]
struct Player {
    made: u64,
}

// One entry, or none.
#[tactic(auto, using(crate::proofs::Fitting::one_struck, crate::proofs::Fitting::none_struck))]
fn entries_of(entry: Option<Entry>) -> ArrayVec<Entry, 44>
    requires { IfSome entry (λ e. IsStruck [] e.core.0 e.what) }
    ensures { FailsAsStruck [] result.items }
{
    let mut entries = ArrayVec::new();
    match entry {
        None => entries,
        Some(entry) => {
            entries.push(entry);
            entries
        }
    }
}

fn entry(turn: u64, cpu: u8, core: u8, what: What) -> Option<Entry>
    requires { IsStruck [] core what }
    ensures { IfSome result (λ e. IsStruck [] e.core.0 e.what) }
{
    Some(Entry {
        turn,
        cpu: CpuNo(cpu),
        core: CoreNo(core),
        what,
    })
}

fn changed_at(changed: Option<Changed>) -> ArrayVec<Changed, 268>
    ensures { length (stretches result.items) ≤ 1 }
{
    let mut list = ArrayVec::new();
    match changed {
        None => list,
        Some(changed) => {
            list.push(changed);
            list
        }
    }
}

fn turn_of(
    entry: Option<Entry>,
    event: Option<Event>,
    changed: Option<Changed>,
    console: &[u8],
) -> Turn
    requires { IfSome entry (λ e. IsStruck [] e.core.0 e.what) }
    ensures changed { length (stretches result.written.changed.items) ≤ 1 }
    ensures struck { FailsAsStruck [] result.entries.items }
{
    let mut written = Written::new();
    written.changed = changed_at(changed);
    let _ = written.console.try_extend_from_slice(console);
    Turn {
        entries: entries_of(entry),
        event,
        psw: Psw {
            w0: 0x0008_0000,
            w1: 0x8001_0002,
        },
        written,
    }
}

// The turn of this number: a commit after a correction, a retry, an interrupt key, the
// return of a core, and then commits that change nothing.
fn played(number: u64) -> Turn
    ensures changed { length (stretches result.written.changed.items) ≤ 1 }
    ensures struck { FailsAsStruck [] result.entries.items }
{
    match number {
        1 => turn_of(
            entry(1, 0, 0, What::Corrected(5, 10)),
            Some(Event::Commit(CpuNo(0))),
            Some(Changed {
                at: 0x12000,
                byte: 0x40,
            }),
            &[0xC8, 0xC9],
        ),
        2 => turn_of(entry(2, 0, 0, What::Retry(1)), None, None, &[]),
        3 => turn_of(None, Some(Event::Key(CpuNo(1))), None, &[]),
        4 => turn_of(entry(4, 255, 9, What::Returned), None, None, &[]),
        _ => turn_of(None, Some(Event::Commit(CpuNo(1))), None, &[]),
    }
}

impl Engine for Player {
    ghost seen = { λ p z t. record {
      lines = [];
      config = record { cpus = 2; spares = 2; pages = 32; threshold = 3 };
      turns = p.made;
      tape = t;
      ready = Unit {0};
      stands_by_mode = λ s. ⊥;
      stands = λ x. ⊥;
      hands = λ x kind. [];
    } };

    fn turn<Z: Silicon>(&mut self, _silicon: &mut Z, _kind: RunKind, told: &mut Turn) {
        self.made += 1;
        *told = played(self.made);
    }
}

const RUNS: [Run; 4] = [
    Run {
        what: RunKind::Turns(CpuNo(0)),
        count: 2,
    },
    Run {
        what: RunKind::Key(CpuNo(1)),
        count: 1,
    },
    Run {
        what: RunKind::Return(CoreNo(9)),
        count: 1,
    },
    Run {
        what: RunKind::Turns(CpuNo(1)),
        count: 1,
    },
];

const LOG: &[u8] = b"1 0 0 CORRECTED 5 10\n2 0 0 RETRY 1\n4 - 9 RETURNED\n";

const TRACE: &[u8] = b"1 C0 00080000 80010002 012000=40\n2 C1 00080000 80010002\n";

// The call of this number fails; calls are numbered from 1.
fn memory_shelf(alloc: Global, failing: u64) -> Result<MemoryShelf, Fail>
    ensures { IfOk result (λ s. (shelf_view s).numbers ≡ []) }
{
    let failing = Vec::from_slice(alloc, &[failing])?;
    Ok(MemoryShelf::new(alloc, Vec::new(alloc), failing, 200)?)
}

fn memory_sink(alloc: Global, failing: u64) -> Result<MemorySink, Fail> {
    let failing = Vec::from_slice(alloc, &[failing])?;
    Ok(MemorySink::new(alloc, failing, 200)?)
}

// How a run ended, and what it left.
#[derive(Drop)]
struct Left {
    ended: Result<Counts, Failed>,
    shelf: MemoryShelf,
    out: MemorySink,
}

// Plays the turns over a shelf and a sink of which the calls of these numbers fail.
#[tactic(auto, using(crate::proofs::Fitting::all_fit))]
fn play(alloc: Global, shelf_fails: u64, sink_fails: u64) -> Result<Left, Fail> {
    let mut shelf = memory_shelf(alloc, shelf_fails)?;
    let mut out = memory_sink(alloc, sink_fails)?;
    let mut player = Player { made: 0 };
    let mut silicon = ScriptSilicon::new();
    let ended = match start_files(&mut shelf, "L", "T") {
        Err(failed) => Err(failed),
        Ok(files) => make_runs(
            &mut player,
            &mut silicon,
            &mut shelf,
            &mut out,
            files,
            &RUNS,
            none_made(),
        ),
    };
    Ok(Left { ended, shelf, out })
}

// Whether log, trace and console have so many of the bytes that they are to have.
fn has(left: &Left, log: usize, trace: usize, console: usize) -> bool {
    let in_log = left.shelf.text_of(FileNo(0));
    let in_trace = left.shelf.text_of(FileNo(1));
    in_log.len() == log
        && LOG.starts_with(in_log)
        && in_trace.len() == trace
        && TRACE.starts_with(in_trace)
        && left.out.taken().len() == console
}

#[test]
fn turns_of_each_kind(rt: HostRuntime) -> Result<(), Fail> {
    let left = play(rt.alloc(), 0, 0)?;
    let counts = Counts {
        turns: 5,
        commits: 2,
        fails: 0,
        retries: 1,
        corrected: 1,
        spared: 0,
        stopped: 0,
        returned: 1,
    };
    assert_eq!(rt; left.ended, Ok(counts));
    assert!(rt; has(&left, 50, 56, 2));
    Ok(())
}

// The calls of the shelf: it creates log and trace, and then writes a log entry, a trace line, two log
// entries and a trace line. A fault leaves what was written before it.
#[test]
fn turns_up_to_a_fault(rt: HostRuntime) -> Result<(), Fail> {
    let cases: [(u64, u64, usize, usize, usize); 6] = [
        (3, 0, 0, 0, 0),
        (4, 0, 21, 0, 0),
        (0, 1, 21, 33, 0),
        (5, 0, 21, 33, 2),
        (6, 0, 35, 33, 2),
        (7, 0, 50, 33, 2),
    ];
    for (shelf_fails, sink_fails, log, trace, console) in cases {
        let left = play(rt.alloc(), shelf_fails, sink_fails)?;
        assert_eq!(rt; left.ended, Err(Failed));
        assert!(rt; has(&left, log, trace, console));
    }
    Ok(())
}

// So many turns and commits, and nothing else.
fn counts_of(turns: u64, commits: u64) -> Counts
    ensures { result ≡ record none_made { turns = turns; commits = commits } }
{
    Counts {
        turns,
        commits,
        fails: 0,
        retries: 0,
        corrected: 0,
        spared: 0,
        stopped: 0,
        returned: 0,
    }
}

// One turn, and the two of a run, after others: their commits are numbered on.
fn play_on<F: Shelf, O: Sink>(
    shelf: &mut F,
    out: &mut O,
    files: OutputFiles,
    start: Counts,
) -> Result<Counts, Failed>
    requires files { HasFiles (F.seen shelf.old) files }
    requires below { Below (2 ^ 60) start }
    requires commits { start.commits ≤ 999990 }
{
    let mut player = Player { made: 4 };
    let mut silicon = ScriptSilicon::new();
    let kind = RunKind::Turns(CpuNo(1));
    let mut told = Turn::new();
    match make_turn(
        &mut player,
        &mut silicon,
        shelf,
        out,
        files,
        kind,
        start,
        &mut told,
    ) {
        Err(failed) => return Err(failed),
        Ok(_) => {}
    }
    let run = Run {
        what: kind,
        count: 2,
    };
    make_run(
        &mut player,
        &mut silicon,
        shelf,
        out,
        files,
        run,
        start,
        &mut told,
    )
}

#[test]
fn turns_after_others(rt: HostRuntime) -> Result<(), Fail> {
    let mut shelf = memory_shelf(rt.alloc(), 0)?;
    let mut out = memory_sink(rt.alloc(), 0)?;
    let start = counts_of(700_000, 600_000);
    let ended = match start_files(&mut shelf, "L", "T") {
        Err(failed) => Err(failed),
        Ok(files) => play_on(&mut shelf, &mut out, files, start),
    };
    let trace =
        b"600001 C1 00080000 80010002\n600001 C1 00080000 80010002\n600002 C1 00080000 80010002\n";
    assert_eq!(rt; ended, Ok(counts_of(700_002, 600_002)));
    assert_eq!(rt; shelf.text_of(FileNo(1)), trace.as_slice());
    Ok(())
}
