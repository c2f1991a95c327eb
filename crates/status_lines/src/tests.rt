// What is said, over an output in memory.
use crate::{audit_line_of, name_of, report_of, say, say_line, summary_of};
use arrayvec::ArrayVec;
use deck_model::decks::DeckRefusal;
use g5_outside::MemorySink;
use g5_words::{Command, JobNames, ResumeNames, SessionNames};
use program_model::inputs::Input;
use program_model::refusals::{AsmRefusal, AuditRefusal, LinkRefusal, SaveRefusal};
use program_model::status::Status;
use run_model::faults::ScriptRefusal;
use run_model::logs::{Config, MigrateRefusal};
use run_model::outputs::Counts;
use run_model::schedules::ScheduleRefusal;
use std::test::Fail;

const CONFIG: Config = Config {
    cpus: 1,
    spares: 0,
    pages: 32,
    threshold: 3,
};

const JOB: JobNames<'static> = JobNames {
    deck: "D",
    console: "C",
    schedule: "S",
    script: "F",
    log: "L",
    trace: "T",
};

const SESSION: SessionNames<'static> = SessionNames {
    deck: "D",
    console: "C",
    schedule: "S",
    script: "F",
};

const RESUMED: ResumeNames<'static> = ResumeNames {
    save: "M",
    console: "C",
    schedule: "S",
    script: "F",
    log: "L",
    trace: "T",
};

#[test]
fn line_of_each_status(rt: HostRuntime) -> Result<(), Fail> {
    let alloc = rt.alloc();
    let command = Command::Debug {
        session: SESSION,
        config: CONFIG,
    };
    let cases: [(Status, &[u8]); 18] = [
        (Status::Done, b"\n"),
        (Status::CheckStopped, b"\n"),
        (Status::Usage, b"usage\n"),
        (Status::NoFile(Input::Deck), b"no file: D\n"),
        (Status::ReadFault, b"read fault\n"),
        (Status::WriteFault, b"write fault\n"),
        (
            Status::DeckRefused(DeckRefusal::Unresolved(1)),
            b"deck refused: Unresolved 1\n",
        ),
        (
            Status::ScheduleRefused(ScheduleRefusal::BadWord(2)),
            b"schedule refused: BadWord 2\n",
        ),
        (
            Status::ScriptRefused(ScriptRefusal::TwoAtOneAttempt(2)),
            b"script refused: TwoAtOneAttempt 2\n",
        ),
        (Status::TooLarge(Input::Schedule), b"too large: S\n"),
        (Status::TooLarge(Input::Keys), b"too large: keys\n"),
        (Status::NoMemory, b"no memory\n"),
        (
            Status::LogRefused(MigrateRefusal::BadLine(2)),
            b"log refused: BadLine 2\n",
        ),
        (
            Status::SourceRefused(AsmRefusal::NoBase(2)),
            b"source refused: NoBase 2\n",
        ),
        (
            Status::LinkRefused(LinkRefusal::Clash(2)),
            b"link refused: Clash 2\n",
        ),
        (
            Status::LinkRefused(LinkRefusal::Deck(DeckRefusal::NoEnd)),
            b"link refused: NoEnd\n",
        ),
        (
            Status::SaveRefused(SaveRefusal::BadLength),
            b"save refused: BadLength\n",
        ),
        (Status::AuditNo(AuditRefusal::Tail), b"\n"),
    ];
    for (status, line) in cases {
        let mut err = MemorySink::new(alloc, Vec::new(alloc), 100)?;
        say_line(&mut err, &command, status);
        assert_eq!(rt; err.taken(), line);
    }
    Ok(())
}

#[test]
fn names_of_inputs(rt: HostRuntime) {
    let run = Command::Run {
        job: JOB,
        config: CONFIG,
    };
    assert_eq!(rt; name_of(&run, Input::Console), "C");
    assert_eq!(rt; name_of(&run, Input::Keys), "");
    let generated = Command::Gen {
        number: 1,
        turns: 1,
    };
    assert_eq!(rt; name_of(&generated, Input::Deck), "");
    let migrated = Command::Migrate { old: "A", new: "B" };
    assert_eq!(rt; name_of(&migrated, Input::Log), "A");
    let assembled = Command::Asm {
        source: "P",
        deck: "D",
    };
    assert_eq!(rt; name_of(&assembled, Input::Program), "P");
    let shown = Command::Dis {
        deck: "D",
        address: 0,
        count: 1,
    };
    assert_eq!(rt; name_of(&shown, Input::Deck), "D");
    let saved = Command::Save {
        turns: 0,
        job: JOB,
        save: "M",
        config: CONFIG,
    };
    assert_eq!(rt; name_of(&saved, Input::Script), "F");
    assert_eq!(rt; name_of(&Command::Resume(RESUMED), Input::Saved), "M");
    assert_eq!(rt; name_of(&Command::Audit { log: "L" }, Input::Log), "L");
}

#[test]
fn names_of_parts(rt: HostRuntime) {
    let mut decks = ArrayVec::new();
    decks.push("A");
    decks.push("B");
    let linked = Command::Link { out: "O", decks };
    assert_eq!(rt; name_of(&linked, Input::Part(1)), "B");
    assert_eq!(rt; name_of(&linked, Input::Part(2)), "");
    assert_eq!(rt; name_of(&linked, Input::Deck), "");
}

// The counts of a run of 14 turns in which a CPU is check-stopped.
const STOPPED: Counts = Counts {
    turns: 14,
    commits: 2,
    fails: 4,
    retries: 3,
    corrected: 0,
    spared: 0,
    stopped: 1,
    returned: 0,
};

const SUMMARY: &[u8] = b"\
turns 14\n\
commits 2\n\
fails 4\n\
retries 3\n\
corrected 0\n\
spared 0\n\
stopped 1\n\
trace 78\n";

#[test]
fn reports(rt: HostRuntime) -> Result<(), Fail> {
    let alloc = rt.alloc();
    let mut err = MemorySink::new(alloc, Vec::new(alloc), 200)?;
    say(&mut err, &report_of(false, STOPPED));
    assert_eq!(rt;
        err.taken(),
        b"premise broken\nturns 14 commits 2 retries 3 spared 0 stopped 1\n".as_slice()
    );
    assert!(rt; report_of(true, STOPPED).starts_with(b"premise within\n"));
    assert_eq!(rt; summary_of(STOPPED, 78).as_slice(), SUMMARY);
    assert_eq!(rt; audit_line_of(None).as_slice(), b"yes\n".as_slice());
    assert_eq!(rt;
        audit_line_of(Some(AuditRefusal::Stop(10))).as_slice(),
        b"no: Stop 10\n".as_slice()
    );
    Ok(())
}

// Of a text there is what the output has room for.
#[test]
fn room_for_four_bytes(rt: HostRuntime) -> Result<(), Fail> {
    let alloc = rt.alloc();
    let mut err = MemorySink::new(alloc, Vec::new(alloc), 4)?;
    say(&mut err, b"usage\n");
    assert_eq!(rt; err.taken(), b"usag".as_slice());
    Ok(())
}
