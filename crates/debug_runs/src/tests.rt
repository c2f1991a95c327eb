// Conversations over the deck of the first path, in memory. What is answered was worked by hand from the
// Principles of Operation.
ghost use Rattle.std.specs.Prelude.{IfOk};
ghost use Rattle.silicon.specs.Chip.{Fresh};
ghost use Rattle.debug_runs.specs.Consequences.{CanBeHeld};

use crate::{converse, hold_session};
use g5_debugger::Session;
use g5_outside::MemorySink;
use job_inputs::{InputBytes, accept};
use machine_runs::{Ready, make_ready};
use run_model::logs::Config;
use silicon::{ScriptSilicon, Silicon};
use std::alloc::Global;
use std::test::Fail;

// One section of 30 bytes, with its first byte at X'10000': LA 1,X'800'; AR 1,1 five times;
// LA 1,X'1C'(1); LA 2,2; DIAGNOSE 1,2,X'100', which writes the last two bytes; NOPR.
static DECK: [u8; 240] = [
    0x02, 0xC5, 0xE2, 0xC4, 0x40, 0x40, 0x40, 0x40, 0x40, 0x40, 0x00, 0x10, 0x40, 0x40, 0x00, 0x01,
    0xD4, 0xC1, 0xC9, 0xD5, 0x40, 0x40, 0x40, 0x40, 0x00, 0x00, 0x00, 0x00, 0x40, 0x00, 0x00, 0x1E,
    0x40, 0x40, 0x40, 0x40, 0x40, 0x40, 0x40, 0x40, 0x40, 0x40, 0x40, 0x40, 0x40, 0x40, 0x40, 0x40,
    0x40, 0x40, 0x40, 0x40, 0x40, 0x40, 0x40, 0x40, 0x40, 0x40, 0x40, 0x40, 0x40, 0x40, 0x40, 0x40,
    0x40, 0x40, 0x40, 0x40, 0x40, 0x40, 0x40, 0x40, 0x40, 0x40, 0x40, 0x40, 0x40, 0x40, 0x40, 0x40,
    0x02, 0xE3, 0xE7, 0xE3, 0x40, 0x00, 0x00, 0x00, 0x40, 0x40, 0x00, 0x1E, 0x40, 0x40, 0x00, 0x01,
    0x41, 0x10, 0x08, 0x00, 0x1A, 0x11, 0x1A, 0x11, 0x1A, 0x11, 0x1A, 0x11, 0x1A, 0x11, 0x41, 0x10,
    0x10, 0x1C, 0x41, 0x20, 0x00, 0x02, 0x83, 0x12, 0x01, 0x00, 0x07, 0x00, 0xC8, 0xC9, 0x40, 0x40,
    0x40, 0x40, 0x40, 0x40, 0x40, 0x40, 0x40, 0x40, 0x40, 0x40, 0x40, 0x40, 0x40, 0x40, 0x40, 0x40,
    0x40, 0x40, 0x40, 0x40, 0x40, 0x40, 0x40, 0x40, 0x40, 0x40, 0x40, 0x40, 0x40, 0x40, 0x40, 0x40,
    0x02, 0xC5, 0xD5, 0xC4, 0x40, 0x40, 0x40, 0x40, 0x40, 0x40, 0x40, 0x40, 0x40, 0x40, 0x40, 0x40,
    0x40, 0x40, 0x40, 0x40, 0x40, 0x40, 0x40, 0x40, 0x40, 0x40, 0x40, 0x40, 0x40, 0x40, 0x40, 0x40,
    0x40, 0x40, 0x40, 0x40, 0x40, 0x40, 0x40, 0x40, 0x40, 0x40, 0x40, 0x40, 0x40, 0x40, 0x40, 0x40,
    0x40, 0x40, 0x40, 0x40, 0x40, 0x40, 0x40, 0x40, 0x40, 0x40, 0x40, 0x40, 0x40, 0x40, 0x40, 0x40,
    0x40, 0x40, 0x40, 0x40, 0x40, 0x40, 0x40, 0x40, 0x40, 0x40, 0x40, 0x40, 0x40, 0x40, 0x40, 0x40,
];

const CONFIG: Config = Config {
    cpus: 1,
    spares: 0,
    pages: 32,
    threshold: 3,
};

// The deck with ten turns of CPU 0, ready to run.
fn ready<Z: Silicon>(alloc: Global, silicon: &mut Z) -> Result<Ready, Fail>
    requires fresh { Fresh (Z.seen silicon.old) }
    ensures held { IfOk result (λ r. CanBeHeld r (Z.seen silicon.new)) }
{
    let inputs = InputBytes {
        deck: Vec::from_slice(alloc, &DECK)?,
        console: Vec::new(alloc),
        schedule: Vec::from_slice(alloc, b"0*10")?,
        script: Vec::new(alloc),
    };
    let Ok(accepted) = accept(alloc, CONFIG, inputs) else {
        return Err("inputs".into());
    };
    Ok(make_ready(alloc, CONFIG, accepted, silicon)?)
}

// Commands, and the call of the output that fails.
#[derive(Clone, Copy)]
struct Case<'a> {
    commands: &'a [u8],
    failing: u64,
    whole: bool,
    taken: &'a [u8],
    turns: u64,
}

// No call has this number.
const NONE: u64 = 1000;

const CASES: [Case<'static>; 8] = [
    // The worked conversation.
    Case {
        commands: b"turns 2\npsw 0\nmem 01001C 2\npsw 1\nquit\n",
        failing: NONE,
        whole: true,
        taken: b"at 2\n00082000 80010006\nC8C9\nunknown\n",
        turns: 2,
    },
    // The last line has no line feed.
    Case {
        commands: b"turns 3\npsw 0",
        failing: NONE,
        whole: true,
        taken: b"at 3\n00082000 80010008\n",
        turns: 3,
    },
    // Nothing is done after `quit`.
    Case {
        commands: b"psw 0\nquit\nturns 5\npsw 0\n",
        failing: NONE,
        whole: true,
        taken: b"00080000 80010000\n",
        turns: 0,
    },
    // An empty line and one with a word too many.
    Case {
        commands: b"\nquit 0\nturns 20\nquit",
        failing: NONE,
        whole: true,
        taken: b"unknown\nunknown\nat 10\n",
        turns: 10,
    },
    Case {
        commands: b"",
        failing: NONE,
        whole: true,
        taken: b"",
        turns: 0,
    },
    // The first answer, its line feed and the second answer fail.
    Case {
        commands: b"turns 1\nturns 1\nturns 1\n",
        failing: 1,
        whole: false,
        taken: b"",
        turns: 1,
    },
    Case {
        commands: b"turns 1\nturns 1\nturns 1\n",
        failing: 2,
        whole: false,
        taken: b"at 1",
        turns: 1,
    },
    Case {
        commands: b"turns 1\nturns 1\nturns 1\n",
        failing: 3,
        whole: false,
        taken: b"at 1\n",
        turns: 2,
    },
];

#[test]
fn conversations(rt: HostRuntime) -> Result<(), Fail> {
    let alloc = rt.alloc();
    for case in &CASES {
        let mut silicon = ScriptSilicon::new();
        let job = ready(alloc, &mut silicon)?;
        let mut session = Session::with_units(job.machine, job.schedule);
        let failing = Vec::from_slice(alloc, &[case.failing])?;
        let mut out = MemorySink::new(alloc, failing, 1000)?;
        let ended = converse(&mut session, &mut silicon, case.commands, &mut out);
        assert_eq!(rt; ended.is_ok(), case.whole);
        assert_eq!(rt; out.taken(), case.taken);
        assert_eq!(rt; session.report().turns, case.turns);
    }
    Ok(())
}

// From the start of a job to its report.
#[test]
fn held_session(rt: HostRuntime) -> Result<(), Fail> {
    let alloc = rt.alloc();
    let mut silicon = ScriptSilicon::new();
    let job = ready(alloc, &mut silicon)?;
    let mut out = MemorySink::new(alloc, Vec::new(alloc), 1000)?;
    let held = hold_session(job, &mut silicon, b"turns 9\nconsole\n", &mut out);
    let Ok(counts) = held else {
        return Err("the output failed".into());
    };
    assert_eq!(rt; counts.turns, 9);
    assert_eq!(rt; counts.commits, 9);
    assert_eq!(rt; counts.stopped, 0);
    assert_eq!(rt; out.taken(), b"at 9\n2 0\n".as_slice());
    Ok(())
}
