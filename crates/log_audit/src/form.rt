// The first pass over the lines: whether each has the form of its place.
#![tactic(auto)]

ghost use Rattle.std.specs.Prelude.{◌≡◌, ◌+◌, ◌<◌, ◌≤◌, ◌^◌, [], length};
ghost use Rattle.log_audit.specs.Form.{body_from, ending_of, entries_in, fed_lines};
ghost use Rattle.log_audit.specs.Next.{as_ending, as_refusal};

use crate::lines::{next_entry, next_line};
use program_model::refusals::AuditRefusal;
use service_log::{Ending, read_tail};

// The numbers of the tail, which is to be the next line and the last; the line before it has this
// number.
fn last_tail(number: u32, rest: &[u8]) -> Result<Ending, AuditRefusal>
    requires few { number + length rest.now < 2 ^ 32 }
    requires no_entry { entries_in (fed_lines rest.now) ≡ [] }
    ensures { as_ending result
        ≡ as_refusal (ending_of (body_from (number + 1) (fed_lines rest.now))) }
{
    let Some((line, after)) = next_line(rest) else {
        return Err(AuditRefusal::BadLine(number));
    };
    if after.len() > 0 {
        return Err(AuditRefusal::BadLine(number + 1));
    }
    match read_tail(line) {
        Some(ending) => Ok(ending),
        None => Err(AuditRefusal::BadLine(number + 1)),
    }
}

/// The numbers of the tail, where the lines behind the head are entries and last a tail; else the
/// first that has not the form of its place.
pub fn read_ending(from: &[u8]) -> Result<Ending, AuditRefusal>
    requires { length from.now + 1 < 2 ^ 32 }
    ensures { as_ending result ≡ as_refusal (ending_of (body_from 2 (fed_lines from.now))) }
{
    let mut rest = from;
    let mut number: u32 = 1;
    while let Some((_, after)) = next_entry(rest) {
        number += 1;
        rest = after;
    }
    last_tail(number, rest)
}
