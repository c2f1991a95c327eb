// A whole schedule.
#![tactic(auto)]

ghost use Rattle.std.specs.Prelude.{◌≡◌, ◌<◌, ◌≤◌, ◌^◌, length, All, IfOk, IfSome, IsFalse};
ghost use Rattle.run_model.specs.Schedule.{run_of, judged, schedule, turns_of, Fits, Answers};
ghost use Rattle.run_model.specs.Schedule.{is_beyond as is_beyond_cpus};

use crate::words::{next_word, word_of};
use crate::{Run, RunKind, ScheduleRefusal};
use std::alloc::Global;
use std::marker::Model;

/// The runs of a schedule, in their order, as contracts see it.
#[derive(Drop)]
pub struct Schedule {
    runs: Vec<Run>,
    turns: u64,
}

impl Model for Schedule {
    ghost use Rattle.std.specs.Prelude.{List, ◌≡◌};
    ghost use Rattle.run_model.specs.Schedule.{turns_of};
    ghost use Rattle.run_model.specs.declared.schedules.Run.{Run as RunOfTurns};

    ghost Value = { List RunOfTurns };

    ghost view = { λ s. s.runs.items };

    ghost invariant = { λ s. s.turns ≡ turns_of s.runs.items };
}

impl Schedule {
    /// How many turns the runs are together.
    pub fn turns(&self) -> u64
        ensures { result ≡ turns_of self.now }
    {
        self.turns
    }

    /// The runs, one for each word.
    pub fn runs(&self) -> &[Run]
        ensures { result.now ≡ self.now }
    {
        &self.runs
    }
}

// Whether a machine of so many CPUs has not the CPU of these turns.
fn is_beyond(what: RunKind, cpus: u8) -> bool
    requires { Fits 10 what }
    ensures value { result ≡ is_beyond_cpus cpus what }
    ensures fits { IsFalse result → Fits cpus what }
{
    match what {
        RunKind::Turns(cpu) => cpu.0 >= cpus,
        RunKind::Key(cpu) => cpu.0 >= cpus,
        RunKind::Return(_) => false,
    }
}

// What a word gives after so many turns.
fn judge_run(run: Option<Run>, number: u32, cpus: u8, so_far: u64) -> Result<Run, ScheduleRefusal>
    requires few { so_far ≤ 1000000 }
    requires fits { IfSome run (λ r. Fits 10 r.what) }
    ensures value { result ≡ judged cpus number so_far run }
    ensures fits { IfOk result (λ r. Fits cpus r.what) }
{
    let Some(run) = run else {
        return Err(ScheduleRefusal::BadWord(number));
    };
    if is_beyond(run.what, cpus) {
        return Err(ScheduleRefusal::BadCpu(number));
    }
    if so_far + u64::from(run.count) > 1_000_000 {
        return Err(ScheduleRefusal::TooLong(number));
    }
    Ok(run)
}

fn judge(word: &[u8], number: u32, cpus: u8, so_far: u64) -> Result<Run, ScheduleRefusal>
    requires { so_far ≤ 1000000 }
    ensures value { result ≡ judged cpus number so_far (run_of word.now) }
    ensures fits { IfOk result (λ r. Fits cpus r.what) }
{
    judge_run(word_of(word), number, cpus, so_far)
}

/// The runs of a schedule for so many CPUs, or its first refusal.
pub fn parse(alloc: Global, text: &[u8], cpus: u8) -> Result<Schedule, ScheduleRefusal>
    requires { length text.now < 2 ^ 32 }
    ensures meaning { Answers (schedule cpus text.now) result }
    ensures few { IfOk result (λ s. turns_of s ≤ 1000000) }
    ensures fits { IfOk result (λ s. All (λ r. Fits cpus r.what) s) }
{
    let mut runs = Vec::new(alloc);
    let mut turns: u64 = 0;
    let mut number: u32 = 0;
    let mut rest = text;
    while let Some((word, after)) = next_word(rest) {
        number += 1;
        let run = match judge(word, number, cpus, turns) {
            Ok(run) => run,
            Err(refusal) => return Err(refusal),
        };
        if runs.push(run).is_err() {
            return Err(ScheduleRefusal::NoMemory);
        }
        turns += u64::from(run.count);
        rest = after;
    }
    Ok(Schedule { runs, turns })
}
