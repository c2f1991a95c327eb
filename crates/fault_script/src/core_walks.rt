// The strikes of a core's attempts as these are begun in turn: no attempt needs a search.
#![tactic(auto)]

ghost use Rattle.std.specs.Prelude.{◌≡◌, ◌+◌, ◌<◌, ◌≤◌, ◌^◌, ◌++◌, length, filter, IfOk};
ghost use Rattle.std.specs.Vec.{vec_capacity};
ghost use Rattle.fault_script.specs.Totals.{lasts, is_left};
ghost use Rattle.fault_script.specs.Walk.{IsAt};

use crate::Strike;
use crate::order::number;
use crate::ordered::Ordered;
use run_model::faults::CoreNo;
use std::alloc::{AllocError, Global};

/// Where the attempts of a core stand among strikes.
#[derive(Drop)]
pub struct CoreWalk {
    // the strikes of the last attempt begun, in the order of all
    pub(crate) low: usize,
    pub(crate) high: usize,
    // the first one to come, in the order of those that last
    pub(crate) to_come: usize,
    // those that last, were begun and are not over
    pub(crate) live: Vec<Strike>,
}

// Whether a strike of so many attempts is not over before attempt `n`.
fn is_lasting(first: u64, count: Option<u64>, n: u64) -> bool
    ensures { result ≡ lasts first count n }
{
    match count {
        None => true,
        Some(count) => n < first || n - first < count,
    }
}

fn is_left_at(s: &Strike, n: u64) -> bool
    ensures { result ≡ is_left n s.now }
{
    match *s {
        Strike::Packet(_, first, _, _, count) => is_lasting(first, count, n),
        Strike::Fetch(_, first, _) => n <= first,
        Strike::Store(_, first, _) => n <= first,
        Strike::Word(_, first, _, _) => n <= first,
    }
}

// Adds strikes, for which there is room.
fn add(live: &mut Vec<Strike>, more: &[Strike])
    requires { length live.old.items + length more.now ≤ vec_capacity live.old }
    ensures items { live.new.items ≡ live.old.items ++ more.now }
    ensures room { vec_capacity live.old ≤ vec_capacity live.new }
{
    match live.extend_from_slice(more) {
        Ok(()) => {}
        Err(_) => {}
    }
}

// Leaves those that are not over before attempt `n`.
fn keep_left(live: &mut Vec<Strike>, n: u64)
    ensures items { live.new.items ≡ filter (is_left n) live.old.items }
    ensures room { vec_capacity live.new ≡ vec_capacity live.old }
{
    live.retain(|s| is_left_at(s, n));
}

impl CoreWalk {
    /// Before the first attempt of a core, with room for all of its strikes that last.
    pub fn start(alloc: Global, ordered: &Ordered, core: CoreNo) -> Result<CoreWalk, AllocError>
        ensures { IfOk result (λ w. IsAt ordered.now core.0 0 w) }
    {
        let q = number(core, 0);
        let first = ordered.first(q);
        let to_come = ordered.first_lasting(q);
        let next_core = ordered.first_lasting(q + 0x1_0000_0000_0000_0000);
        let live = Vec::with_capacity(alloc, next_core - to_come)?;
        Ok(CoreWalk {
            low: first,
            high: first,
            to_come,
            live,
        })
    }

    /// One attempt of the core more is begun, after so many.
    pub fn begin(&mut self, ordered: &Ordered, core: CoreNo, begun: u64)
        requires { IsAt ordered.now core.0 begun self.old }
        ensures { IsAt ordered.now core.0 (begun + 1) self.new }
    {
        let q = number(core, begun);
        let high = ordered.past(q, self.high);
        let to_come = ordered.past_lasting(q, self.to_come);
        add(
            &mut self.live,
            ordered.lasting_between(self.to_come, to_come),
        );
        keep_left(&mut self.live, begun);
        self.low = self.high;
        self.high = high;
        self.to_come = to_come;
    }
}
