// The second pass over the lines: the points that entries meet, and what is counted of them.
#![tactic(auto)]

ghost use Rattle.std.specs.Prelude.{ℕ, ◌≡◌, ◌+◌, ◌<◌, ◌≤◌, ◌^◌, List, [], ◌∷◌, nat_lt, length};
ghost use Rattle.run_model.specs.declared.logs.Config.{Config as LogConfig};
ghost use Rattle.run_model.specs.declared.logs.Entry.{Entry as LogEntry};
ghost use Rattle.run_model.specs.Lawful.{Meets, back, bit, fences};
ghost use Rattle.run_model.specs.Sorts.{is_returned_entry, is_stop_entry};
ghost use Rattle.log_audit.specs.Form.{entries_in, fed_lines};
ghost use Rattle.log_audit.specs.Points.{first_failed, first_refusal, points, unless};
ghost use Rattle.log_audit.specs.Remembers.{HasRoom, Remembers};
ghost use Rattle.log_audit.specs.Tallies.{is_spared_entry, tally, tally_of};

use crate::lines::next_entry;
use crate::memory::{Memory, known_of, lowest, recall, teach, tick, tick_taken};
use crate::points::refusal_by;
use crate::sorts::{is_fence, is_returned, is_spared, is_stop};
use program_model::refusals::AuditRefusal;
use service_log::{Config, Entry};

/// How many entries are RETURNED, SPARED and STOP.
#[derive(Clone, Copy)]
pub struct Tally {
    pub returned: u64,
    pub spared: u64,
    pub stopped: u64,
}

// Counts one more where that is asked.
fn plus(count: u64, more: bool) -> u64
    requires { count < 2 ^ 32 }
    ensures { result ≡ bit more + count }
{
    if more { count + 1 } else { count }
}

fn counted(t: Tally, e: Entry) -> Tally
    requires returned { t.returned < 2 ^ 32 }
    requires spared { t.spared < 2 ^ 32 }
    requires stopped { t.stopped < 2 ^ 32 }
    ensures { result ≡ tally (bit (is_returned_entry e) + t.returned)
        (bit (is_spared_entry e) + t.spared) (bit (is_stop_entry e) + t.stopped) }
{
    Tally {
        returned: plus(t.returned, is_returned(e.what)),
        spared: plus(t.spared, is_spared(e.what)),
        stopped: plus(t.stopped, is_stop(e.what)),
    }
}

impl Memory {
    // Whether a core was given up more often than it was returned.
    fn is_fenced(&self, core: u8) -> bool
        ensures { (past : List LogEntry) (n : ℕ) → Remembers past n self.now
            → result ≡ nat_lt (back core past) (fences core past) }
    {
        if core >= 16 {
            return false;
        }
        self.returned[core as usize] < self.fenced[core as usize]
    }

    // The refusal of the entry on the line of this number, or None where it meets all points.
    fn refusal(&self, number: u32, c: Config, last: u64, e: Entry) -> Option<AuditRefusal>
        requires cpus { c.cpus ≤ 8 }
        requires spares { c.spares ≤ 8 }
        requires room { HasRoom self.now }
        ensures { (past : List LogEntry) (n : ℕ) → Remembers past n self.now
            → result ≡ first_failed number (points c last past e) }
    {
        let known = known_of(&self.cpus, e.cpu.0);
        let low = lowest(c, &self.taken, &self.returned);
        let fenced = self.is_fenced(e.core.0);
        refusal_by(number, c, last, known, self.last, low, fenced, e)
    }

    fn remember(&mut self, e: Entry)
        requires { HasRoom self.old }
        ensures { (c : LogConfig) (turns : ℕ) (past : List LogEntry) (n : ℕ) → c.cpus ≤ 8
            → Meets c turns past e → Remembers past n self.old
            → Remembers (e ∷ past) (n + 1) self.new }
    {
        teach(&mut self.cpus, e);
        self.last = recall(e, self.last);
        let returned = is_returned(e.what);
        let fenced = is_fence(e.what);
        tick(&mut self.returned, e.core.0, returned);
        tick(&mut self.fenced, e.core.0, fenced);
        tick_taken(&mut self.taken, e.what);
    }
}

/// Judges the lines behind the head, up to the tail, in one pass: the refusal of the first entry
/// that fails a point, or what is counted.
pub fn judge(c: Config, last: u64, from: &[u8]) -> Result<Tally, AuditRefusal>
    requires cpus { c.cpus ≤ 8 }
    requires spares { c.spares ≤ 8 }
    requires long { length from.now + 1 < 2 ^ 32 }
    ensures { result
        ≡ unless (first_refusal c last 2 [] (entries_in (fed_lines from.now)))
        (tally_of (entries_in (fed_lines from.now))) }
{
    let mut memory = Memory::new();
    let mut tally = Tally {
        returned: 0,
        spared: 0,
        stopped: 0,
    };
    let mut rest = from;
    let mut number: u32 = 1;
    while let Some((entry, after)) = next_entry(rest) {
        number += 1;
        let refusal = memory.refusal(number, c, last, entry);
        if let Some(refusal) = refusal {
            return Err(refusal);
        }
        memory.remember(entry);
        tally = counted(tally, entry);
        rest = after;
    }
    Ok(tally)
}
