use crate::{Tally, run_generated};
use esa_model::memory::NoMemory;
use run_model::outputs::Counts;
use silicon::ScriptSilicon;

// Two turns of CPU 0, which commit: the second stores a restart PSW, and its trace line tells the bytes.
#[test]
fn two_turns(rt: HostRuntime) -> Result<(), NoMemory> {
    let tally = run_generated(rt.alloc(), 1, 2, &mut ScriptSilicon::new())?;
    let counts = Counts {
        turns: 2,
        commits: 2,
        fails: 0,
        retries: 0,
        corrected: 0,
        spared: 0,
        stopped: 0,
        returned: 0,
    };
    assert_eq!(rt; tally, Tally { counts, trace: 78 });
    Ok(())
}
