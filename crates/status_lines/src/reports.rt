// The report on a run, the summary of a generated run, and what is said of a log.
ghost use Rattle.std.specs.Prelude.{◌≡◌, ◌≤◌, ◌+◌, ◌++◌, length};
ghost use Rattle.arrayvec.specs.ArrayVec.{array_vec_len};
ghost use Rattle.run_model.specs.Numbers.{decimal as decimal_digits};
ghost use Rattle.run_model.specs.Texts.{premise_text, report, count_line, summary};
ghost use Rattle.program_model.specs.Statuses.{audit_line};

use crate::refusals::audit_text;
use crate::texts::put_text;
use arrayvec::ArrayVec;
use esa_words::decimal;
use program_model::refusals::AuditRefusal;
use run_model::outputs::Counts;

// Adds a text and a number.
fn put_number(out: &mut ArrayVec<u8, 192>, name: &[u8], number: u64)
    requires { array_vec_len out.old + length name.now ≤ 172 }
    ensures text { out.new.items ≡ out.old.items ++ name.now ++ decimal_digits number }
    ensures room { array_vec_len out.new ≤ array_vec_len out.old + length name.now + 20 }
{
    put_text(out, name);
    put_text(out, &decimal(number));
}

// Whether the script is within the premise.
fn premise_of(within: bool) -> &'static [u8]
    ensures text { result.now ≡ premise_text within }
    ensures length { length result.now ≡ 14 }
{
    if within {
        b"premise within"
    } else {
        b"premise broken"
    }
}

/// The report on a run: whether its script is within the premise, and how many turns, commits,
/// retries, transfers to a spare and check-stops there were.
#[tactic(auto, unfolding(run_model::specs::Texts::report))]
pub fn report_of(within: bool, counts: Counts) -> ArrayVec<u8, 192>
    ensures { result.items ≡ report within counts }
{
    let mut out = ArrayVec::new();
    put_text(&mut out, premise_of(within));
    put_number(&mut out, b"\nturns ", counts.turns);
    put_number(&mut out, b" commits ", counts.commits);
    put_number(&mut out, b" retries ", counts.retries);
    put_number(&mut out, b" spared ", counts.spared);
    put_number(&mut out, b" stopped ", counts.stopped);
    put_text(&mut out, b"\n");
    out
}

// Adds the line of a count.
fn put_count(out: &mut ArrayVec<u8, 256>, name: &[u8], number: u64)
    requires { array_vec_len out.old + length name.now ≤ 234 }
    ensures text { out.new.items ≡ out.old.items ++ count_line name.now number }
    ensures room { array_vec_len out.new ≤ array_vec_len out.old + length name.now + 22 }
{
    put_text(out, name);
    put_text(out, b" ");
    put_text(out, &decimal(number));
    put_text(out, b"\n");
}

/// The summary of a generated run: a line for each count, and one for the bytes that its trace
/// would have.
#[tactic(auto, unfolding(run_model::specs::Texts::summary))]
pub fn summary_of(counts: Counts, trace: u64) -> ArrayVec<u8, 256>
    ensures { result.items ≡ summary counts trace }
{
    let mut out = ArrayVec::new();
    put_count(&mut out, b"turns", counts.turns);
    put_count(&mut out, b"commits", counts.commits);
    put_count(&mut out, b"fails", counts.fails);
    put_count(&mut out, b"retries", counts.retries);
    put_count(&mut out, b"corrected", counts.corrected);
    put_count(&mut out, b"spared", counts.spared);
    put_count(&mut out, b"stopped", counts.stopped);
    put_count(&mut out, b"trace", trace);
    out
}

/// What is said of a log: that it is lawful, or what is not.
pub fn audit_line_of(refusal: Option<AuditRefusal>) -> ArrayVec<u8, 48>
    ensures { result.items ≡ audit_line refusal }
{
    let mut out = ArrayVec::new();
    match refusal {
        None => put_text(&mut out, b"yes\n"),
        Some(refusal) => {
            put_text(&mut out, b"no: ");
            put_text(&mut out, &audit_text(refusal));
            put_text(&mut out, b"\n");
        }
    }
    out
}
