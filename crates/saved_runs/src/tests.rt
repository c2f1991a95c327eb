// What is made of a run.
use crate::part::part_of;
use esa_model::machine::CpuNo;
use run_model::schedules::{Run, RunKind};
use std::test::Fail;

#[test]
fn parts_of_a_run(rt: HostRuntime) -> Result<(), Fail> {
    // turns of the run, turns that are skipped, the most that are made, and how many are made
    let cases: [(u32, u64, u64, u32); 8] = [
        (5, 0, 5, 5),
        (5, 0, 9, 5),
        (5, 0, 3, 3),
        (5, 2, 9, 3),
        (5, 2, 1, 1),
        (5, 5, 9, 0),
        (5, 7, 9, 0),
        (5, 0, 0, 0),
    ];
    for (count, skipped, most, made) in cases {
        let what = RunKind::Turns(CpuNo(1));
        let part = part_of(Run { what, count }, skipped, most);
        assert_eq!(rt; part, Run { what, count: made });
    }
    Ok(())
}
