// Calls in memory, some of which are to fail, and how much one of them moves.
ghost use Rattle.std.specs.Prelude.{◌≡◌, ◌-◌, ◌<◌, ◌^◌};

/// Calls that are numbered from 1, the numbers of those that fail, and how many bytes one moves at most.
#[derive(Drop)]
pub struct PlannedCalls {
    pub failing: Vec<u64>,
    pub made: u64,
    pub step: usize,
    ghost in_range: { 0 < step },
}

impl PlannedCalls {
    ghost use Rattle.g5_outside.specs.Plans.{plan_of, step_of, fails_next, after_call, fresh_plan};

    /// A call moves as many bytes as it can.
    pub fn new(failing: Vec<u64>) -> PlannedCalls
        ensures plan { plan_of result ≡ fresh_plan failing.items }
        ensures step { step_of result ≡ 2 ^ 64 - 1 }
    {
        PlannedCalls {
            failing,
            made: 0,
            step: usize::MAX,
        }
    }

    /// From now on a call moves at most so many bytes.
    pub fn set_step(&mut self, step: usize)
        requires { 0 < step }
        ensures step { step_of self.new ≡ step }
        ensures plan { plan_of self.new ≡ plan_of self.old }
    {
        self.step = step;
    }

    /// Counts a call, and says whether it is one that fails.
    pub fn next_fails(&mut self) -> bool
        ensures fails { result ≡ fails_next (plan_of self.old) }
        ensures counted { plan_of self.new ≡ after_call (plan_of self.old) }
        ensures step { step_of self.new ≡ step_of self.old }
    {
        self.made = self.made.saturating_add(1);
        self.failing.contains(&self.made)
    }
}
