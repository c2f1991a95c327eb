// The judge.
#![tactic(auto)]

ghost use Rattle.std.specs.Prelude.{◌≡◌, ◌+◌, ◌<◌, ◌≤◌, ◌^◌, Some, length};
ghost use Rattle.run_model.specs.LogLines.{heading as head_numbers};
ghost use Rattle.service_log.specs.Headings.{IsOfMachine};
ghost use Rattle.log_audit.specs.Form.{body_from, fed_lines, under_head};
ghost use Rattle.log_audit.specs.Verdict.{YesWhereLawful, audited, config_of, judged};

use crate::form::read_ending;
use crate::judging::judge;
use crate::lines::next_line;
use program_model::refusals::AuditRefusal;
use service_log::{Config, Heading, read_head};

/// What is told of a lawful log: the turns that were made, how often a CPU went on on a spare core,
/// and how many CPUs were check-stopped.
#[derive(Clone, Copy, Debug, PartialEq, Eq)]
pub struct Audited {
    pub turns: u64,
    pub spared: u64,
    pub stopped: u64,
}

fn config_of(h: Heading) -> Config
    ensures { result ≡ config_of (head_numbers h.cpus h.spares h.threshold) }
{
    Config {
        cpus: h.cpus,
        spares: h.spares,
        pages: 0,
        threshold: h.threshold,
    }
}

// The verdict on a log with this head and the lines behind it.
fn audit_body(h: Heading, body: &[u8]) -> Result<Audited, AuditRefusal>
    requires machine { IsOfMachine h }
    requires long { length body.now + 1 < 2 ^ 32 }
    ensures { result ≡ judged (under_head (Some (head_numbers h.cpus h.spares h.threshold))
        (body_from 2 (fed_lines body.now))) }
{
    let ending = read_ending(body)?;
    let tally = judge(config_of(h), ending.turns, body)?;
    if tally.returned != ending.returned {
        return Err(AuditRefusal::Tail);
    }
    Ok(Audited {
        turns: ending.turns,
        spared: tally.spared,
        stopped: tally.stopped,
    })
}

// The verdict on a log, by its lines.
#[tactic(auto, unfolding(crate::specs::Verdict::audited, crate::specs::Form::log_in))]
fn judge_log(log: &[u8]) -> Result<Audited, AuditRefusal>
    requires { length log.now < 2 ^ 32 }
    ensures { result ≡ audited log.now }
{
    let Some((first, body)) = next_line(log) else {
        return Err(AuditRefusal::BadLine(1));
    };
    let Some(h) = read_head(first) else {
        return Err(AuditRefusal::BadLine(1));
    };
    audit_body(h, body)
}

/// Judges a log of version 2 by itself, in two passes over its lines and without memory of its own.
/// Ok comes exactly where its lines have their form and its entries are lawful. BadLine has the
/// first line that is no head as the first, no entry between, no tail as the last, or lacks its line
/// feed; a log without a line has BadLine(1). Else the refusal is of the first line that fails a
/// point, and then of the tail.
pub fn audit(log: &[u8]) -> Result<Audited, AuditRefusal>
    requires { length log.now < 2 ^ 32 }
    ensures verdict { result ≡ audited log.now }
    ensures yes { YesWhereLawful log.now result }
{
    judge_log(log)
}
