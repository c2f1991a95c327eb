use crate::{Command, JobNames, ResumeNames, SessionNames, WordsRefused, read_command};
use arrayvec::ArrayVec;
use run_model::logs::Config;
use std::alloc::Global;

// Whether the words of a line, parted by single blanks, give this.
fn gives(alloc: Global, line: &str, wanted: Result<Command<'_>, WordsRefused>) -> bool {
    let mut words: Vec<String> = Vec::new(alloc);
    for word in line.split(' ') {
        let Ok(text) = String::from_str(alloc, word) else {
            return false;
        };
        if words.push(text).is_err() {
            return false;
        }
    }
    read_command(alloc, words.as_slice()) == wanted
}

const JOB: JobNames<'static> = JobNames {
    deck: "D",
    console: "C",
    schedule: "S",
    script: "F",
    log: "L",
    trace: "T",
};

const SESSION: SessionNames<'static> = SessionNames {
    deck: "D",
    console: "C",
    schedule: "S",
    script: "F",
};

const RESUMED: ResumeNames<'static> = ResumeNames {
    save: "V",
    console: "C",
    schedule: "S",
    script: "F",
    log: "L",
    trace: "T",
};

fn config(cpus: u8, spares: u8, pages: u16, threshold: u8) -> Config {
    Config {
        cpus,
        spares,
        pages,
        threshold,
    }
}

fn run(cpus: u8, spares: u8, pages: u16, threshold: u8) -> Command<'static> {
    Command::Run {
        job: JOB,
        config: config(cpus, spares, pages, threshold),
    }
}

fn run_of_files(job: JobNames<'static>) -> Command<'static> {
    Command::Run {
        job,
        config: config(1, 0, 32, 3),
    }
}

#[test]
fn options_of_run(rt: HostRuntime) {
    let rows = [
        ("run D C S F L T", run(1, 0, 32, 3)),
        ("run --cpus=8 D --spares 2 C S F L T", run(8, 2, 32, 3)),
        (
            "run D C S F L T --storage 192 --threshold=0",
            run(1, 0, 48, 0),
        ),
        (
            "run --threshold=15 --storage=16384 --spares=8 --cpus=8 D C S F L T",
            run(8, 8, 4096, 15),
        ),
        (
            "run --cpus 1 --spares 0 --storage 128 --threshold 0 D C S F L T",
            run(1, 0, 32, 0),
        ),
        ("run --cpus=2 D C -- S F L T", run(2, 0, 32, 3)),
        ("run D C S F L T --", run(1, 0, 32, 3)),
    ];
    for (line, wanted) in rows {
        assert!(rt; gives(rt.alloc(), line, Ok(wanted)));
    }
}

#[test]
fn names_of_files(rt: HostRuntime) {
    let rows = [
        (
            "run D D D D L T",
            JobNames {
                console: "D",
                schedule: "D",
                script: "D",
                ..JOB
            },
        ),
        ("run D C S F L D", JobNames { trace: "D", ..JOB }),
        ("run D C S F L -", JobNames { trace: "-", ..JOB }),
        ("run D C S F L ", JobNames { trace: "", ..JOB }),
        (
            "run D C S F L help",
            JobNames {
                trace: "help",
                ..JOB
            },
        ),
        (
            "run D C S -- F -L --",
            JobNames {
                log: "-L",
                trace: "--",
                ..JOB
            },
        ),
        (
            "run -- D C S F --cpus=2 --help",
            JobNames {
                log: "--cpus=2",
                trace: "--help",
                ..JOB
            },
        ),
    ];
    for (line, job) in rows {
        assert!(rt; gives(rt.alloc(), line, Ok(run_of_files(job))));
    }
}

fn linked(decks: &[&'static str]) -> Command<'static> {
    Command::Link {
        out: "O",
        decks: ArrayVec::try_from(decks).unwrap_or_default(),
    }
}

#[test]
fn other_commands(rt: HostRuntime) {
    let rows = [
        (
            "debug --cpus 2 D C S F",
            Command::Debug {
                session: SESSION,
                config: config(2, 0, 32, 3),
            },
        ),
        (
            "gen 7 100000",
            Command::Gen {
                number: 7,
                turns: 100_000,
            },
        ),
        (
            "gen 4294967295 1000000",
            Command::Gen {
                number: u32::MAX,
                turns: 1_000_000,
            },
        ),
        (
            "gen 0 1",
            Command::Gen {
                number: 0,
                turns: 1,
            },
        ),
        ("migrate A B", Command::Migrate { old: "A", new: "B" }),
        (
            "asm A B",
            Command::Asm {
                source: "A",
                deck: "B",
            },
        ),
        (
            "dis D 01FA0C 1000",
            Command::Dis {
                deck: "D",
                address: 0x1_FA0C,
                count: 1000,
            },
        ),
        (
            "dis D FFFFFF 1",
            Command::Dis {
                deck: "D",
                address: 0xFF_FFFF,
                count: 1,
            },
        ),
        ("link O A", linked(&["A"])),
        ("link O A A", linked(&["A", "A"])),
        (
            "link O A A A A A A A A A A A A A A A B",
            linked(&[
                "A", "A", "A", "A", "A", "A", "A", "A", "A", "A", "A", "A", "A", "A", "A", "B",
            ]),
        ),
        (
            "save 0 D C S F L T V",
            Command::Save {
                turns: 0,
                job: JOB,
                save: "V",
                config: config(1, 0, 32, 3),
            },
        ),
        (
            "save --spares=1 1000000 D C S F L T D",
            Command::Save {
                turns: 1_000_000,
                job: JOB,
                save: "D",
                config: config(1, 1, 32, 3),
            },
        ),
        ("resume V C S F L T", Command::Resume(RESUMED)),
        ("audit L", Command::Audit { log: "L" }),
        ("audit -- --", Command::Audit { log: "--" }),
    ];
    for (line, wanted) in rows {
        assert!(rt; gives(rt.alloc(), line, Ok(wanted)));
    }
}

#[test]
fn no_command(rt: HostRuntime) {
    assert_eq!(rt; read_command(rt.alloc(), &[]), Err(WordsRefused::Usage));
    let lines = [
        "",
        "help",
        "--help",
        "-h",
        "--version",
        "ru D C S F L T",
        "Run D C S F L T",
        "-- run D C S F L T",
        "--cpus=1 run D C S F L T",
        "run --help",
        "run help",
        "run D C S F L T --help",
        "run D C S F L T -h",
        "gen --help",
    ];
    for line in lines {
        assert!(rt; gives(rt.alloc(), line, Err(WordsRefused::Usage)));
    }
}

#[test]
fn too_few_and_too_many_names(rt: HostRuntime) {
    let lines = [
        "run D C S F L",
        "run D C S F L T X",
        "debug D C S",
        "debug D C S F X",
        "gen 7",
        "gen 7 1 1",
        "migrate A",
        "migrate A B C",
        "asm A",
        "asm A B C",
        "dis D 010000",
        "dis D 010000 1 1",
        "link",
        "link O",
        "link O A A A A A A A A A A A A A A A A A",
        "save 1 D C S F L T",
        "save 1 D C S F L T V X",
        "resume V C S F L",
        "resume V C S F L T X",
        "audit",
        "audit L L",
    ];
    for line in lines {
        assert!(rt; gives(rt.alloc(), line, Err(WordsRefused::Usage)));
    }
}

#[test]
fn refused_options(rt: HostRuntime) {
    let lines = [
        "run --cores=2 D C S F L T",
        "run --cpu=2 D C S F L T",
        "run --CPUS=2 D C S F L T",
        "run -cpus=2 D C S F L T",
        "run -c 2 D C S F L T",
        "run D C S F L -T",
        "run --cpus=2 --cpus=2 D C S F L T",
        "run --cpus=2 D C S F L T --cpus 2",
        "run D C S F L T --cpus",
        "run D C S F L --cpus T",
        "run D C S F L T --cpus --",
        "run --cpus --spares 1 D C S F L T",
        "run --cpus -1 D C S F L T",
        "run --cpus= D C S F L T",
        "run --cpus==1 D C S F L T",
        "run --=1 D C S F L T",
        "debug --turns=1 D C S F",
        "gen --cpus=2 7 1",
        "migrate --cpus=2 A B",
        "asm --cpus=2 A B",
        "dis --cpus=2 D 010000 1",
        "link --cpus=2 O A",
        "resume --cpus=2 V C S F L T",
        "audit --cpus=2 L",
    ];
    for line in lines {
        assert!(rt; gives(rt.alloc(), line, Err(WordsRefused::Usage)));
    }
}

#[test]
fn refused_numbers(rt: HostRuntime) {
    let lines = [
        "run --cpus=01 D C S F L T",
        "run --cpus=+1 D C S F L T",
        "run --cpus=x D C S F L T",
        "run --cpus=0 D C S F L T",
        "run --cpus 9 D C S F L T",
        "run --spares=9 D C S F L T",
        "run --storage=64 D C S F L T",
        "run --storage=129 D C S F L T",
        "run --storage=16448 D C S F L T",
        "run --threshold=16 D C S F L T",
        "gen 4294967296 1",
        "gen 7 0",
        "gen 7 1000001",
        "gen 07 1",
        "gen 0x7 1",
        "gen -7 1",
        "dis D 10000 1",
        "dis D 0010000 1",
        "dis D 01fa0c 1",
        "dis D +10000 1",
        "dis D 010000 0",
        "dis D 010000 1001",
        "save 1000001 D C S F L T V",
        "save 00 D C S F L T V",
    ];
    for line in lines {
        assert!(rt; gives(rt.alloc(), line, Err(WordsRefused::Usage)));
    }
}

#[test]
fn written_files_of_one_name(rt: HostRuntime) {
    let lines = [
        "run D C S F L L",
        "run -- D C S F -L -L",
        "migrate A A",
        "asm A A",
        "link O O",
        "link O A O",
        "save 1 D C S F L L V",
        "save 1 D C S F L T L",
        "save 1 D C S F L T T",
        "resume V C S F L L",
    ];
    for line in lines {
        assert!(rt; gives(rt.alloc(), line, Err(WordsRefused::Usage)));
    }
}
