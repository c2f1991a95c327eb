// Sessions over a small program. What they answer was worked by hand from the Principles of Operation
// and the rules of retry and sparing.
ghost use Rattle.std.specs.Prelude.{◌≡◌, ◌<◌, ◌≤◌, ◌^◌, IsTrue, length};
ghost use Rattle.g5_debugger.specs.Sessions.{HasBegun};

use crate::{Answer, Report, Session};
use abs_storage::AbsStorage;
use deck_model::decks::Loaded;
use fault_script::parse;
use g5_machine::Machine;
use run_model::faults::CoreNo;
use run_model::logs::Config;
use silicon::{ScriptSilicon, Silicon};
use std::alloc::Global;
use std::test::Fail;

/// Where the program begins.
const ENTRY: u32 = 0x1_0000;

/// LA 1,X'800'; AR 1,1 five times, which gives X'10000'; LA 1,X'1C'(1); LA 2,2;
/// DIAGNOSE 1,2,X'100', which writes the two bytes at the end to the console; NOPR.
const GREETING: [u8; 30] = [
    0x41, 0x10, 0x08, 0x00, 0x1A, 0x11, 0x1A, 0x11, 0x1A, 0x11, 0x1A, 0x11, 0x1A, 0x11, 0x41, 0x10,
    0x10, 0x1C, 0x41, 0x20, 0x00, 0x02, 0x83, 0x12, 0x01, 0x00, 0x07, 0x00, 0xC8, 0xC9,
];

/// A session and the silicon of its machine.
#[derive(Drop)]
struct Sitting {
    session: Session,
    z: ScriptSilicon,
}

/// A storage of 128 KiB with the program at its entry.
fn loaded(alloc: Global) -> Result<AbsStorage, Fail> {
    let mut storage = AbsStorage::new(alloc, 0x2_0000)?;
    let mut at = ENTRY;
    for byte in &GREETING {
        let _ = storage.store(at, *byte);
        at = at.wrapping_add(1);
    }
    Ok(storage)
}

fn is_whole(storage: &AbsStorage) -> bool
    ensures { IsTrue result → length storage.now ≡ 131072 }
{
    storage.size() == 0x2_0000
}

/// A session of one CPU and so many spares, for this schedule and under this script.
fn started(alloc: Global, spares: u8, schedule: &[u8], script: &[u8]) -> Result<Sitting, Fail>
    requires spares { spares ≤ 8 }
    requires schedule { length schedule.now < 2 ^ 32 }
    requires script { length script.now < 2 ^ 32 }
{
    let Ok(script) = parse(alloc, script) else {
        return Err("a script".into());
    };
    let Ok(schedule) = turn_schedule::parse(alloc, schedule, 1) else {
        return Err("a schedule".into());
    };
    let config = Config {
        cpus: 1,
        spares,
        pages: 32,
        threshold: 3,
    };
    let storage = loaded(alloc)?;
    if !is_whole(&storage) {
        return Err("a storage".into());
    }
    let mut z = ScriptSilicon::new();
    z.arm(script);
    let entry = Loaded { address: ENTRY };
    let machine = Machine::new(alloc, config, entry, storage, Vec::new(alloc), &mut z)?;
    Ok(Sitting {
        session: Session::new(machine, schedule),
        z,
    })
}

/// Whether no core has begun more attempts.
fn has_begun<Z: Silicon>(most: u64, z: &Z) -> bool
    ensures { IsTrue result → HasBegun most (Z.seen z.now) }
{
    for core in 0..16 {
        if z.begun(CoreNo(core)) > most {
            return false;
        }
    }
    true
}

fn ask<Z: Silicon>(session: &mut Session, z: &mut Z, line: &[u8]) -> Option<Answer> {
    if !has_begun(session.report().turns, z) {
        return None;
    }
    Some(session.command(line, z))
}

/// Whether a line is answered by this text.
fn says(p: &mut Sitting, line: &[u8], want: &[u8]) -> bool {
    match ask(&mut p.session, &mut p.z, line) {
        Some(Answer::Text(text)) => text.as_slice() == want,
        Some(Answer::Unknown) | Some(Answer::Quit) | None => false,
    }
}

fn is_unknown(p: &mut Sitting, line: &[u8]) -> bool {
    match ask(&mut p.session, &mut p.z, line) {
        Some(Answer::Unknown) => true,
        Some(Answer::Text(_)) | Some(Answer::Quit) | None => false,
    }
}

fn quits(p: &mut Sitting, line: &[u8]) -> bool {
    match ask(&mut p.session, &mut p.z, line) {
        Some(Answer::Quit) => true,
        Some(Answer::Text(_)) | Some(Answer::Unknown) | None => false,
    }
}

#[test]
fn first_path(rt: HostRuntime) -> Result<(), Fail> {
    let mut p = started(rt.alloc(), 0, b"0*10", b"")?;
    assert!(rt; says(&mut p, b"turns 2", b"at 2"));
    assert!(rt; says(&mut p, b"psw 0", b"00082000 80010006"));
    assert!(rt; says(&mut p, b"mem 01001C 2", b"C8C9"));
    assert!(rt; is_unknown(&mut p, b"psw 1"));
    assert!(rt; quits(&mut p, b"quit"));
    Ok(())
}

// After all ten turns. The blocks of the program were referenced and not changed.
#[test]
fn each_question(rt: HostRuntime) -> Result<(), Fail> {
    let mut p = started(rt.alloc(), 0, b"0*10", b"")?;
    assert!(rt; says(&mut p, b"turns 1000000", b"at 10"));
    assert!(rt; says(&mut p, b"turns 1", b"at 10"));
    assert!(rt; says(&mut p, b"psw 0", b"00082000 8001001C"));
    assert!(rt;
        says(
            &mut p,
            b"regs 0",
            b"00000000 0001001C 00000002 00000000 00000000 00000000 00000000 00000000 \
00000000 00000000 00000000 00000000 00000000 00000000 00000000 00000000"
        )
    );
    assert!(rt;
        says(
            &mut p,
            b"ctl 0",
            b"000000E0 00000000 00000000 00000000 00000000 00000000 00000000 00000000 \
00000000 00000000 00000000 00000000 00000000 00000000 C2000000 00000000"
        )
    );
    assert!(rt; says(&mut p, b"prefix 0", b"00000000"));
    assert!(rt; says(&mut p, b"mem 010000 4", b"41100800"));
    assert!(rt; says(&mut p, b"mem 01FFFF 1", b"00"));
    assert!(rt; says(&mut p, b"mem 01FFFF 2", b"outside"));
    assert!(rt; says(&mut p, b"key 010FFF", b"04"));
    assert!(rt; says(&mut p, b"key 00F000", b"00"));
    assert!(rt; says(&mut p, b"key 020000", b"outside"));
    assert!(rt; says(&mut p, b"cpu 0", b"operating 0"));
    assert!(rt; says(&mut p, b"console", b"2 0"));
    let report = Report {
        turns: 10,
        commits: 10,
        retries: 0,
        spared: 0,
        stopped: 0,
    };
    assert_eq!(rt; p.session.report(), report);
    Ok(())
}

#[test]
fn no_command(rt: HostRuntime) -> Result<(), Fail> {
    let mut p = started(rt.alloc(), 0, b"0*10", b"")?;
    let lines: [&[u8]; 20] = [
        b"",
        b"turns",
        b"turns 0",
        b"turns 01",
        b"turns 1000001",
        b"psw",
        b"psw  0",
        b" psw 0",
        b"psw 0 ",
        b"psw 1",
        b"PSW 0",
        b"mem 010000",
        b"mem 010000 0",
        b"mem 010000 65",
        b"mem 01001c 2",
        b"mem 1001C 2",
        b"key 0100000",
        b"cpu 0 0 0",
        b"quit 0",
        b"turns 11111111111111111111111111111111111111111111111111111111111111111111111111111111\
11111111111111111111111111111111111",
    ];
    for line in lines {
        assert!(rt; is_unknown(&mut p, line));
    }
    assert_eq!(rt; p.session.report().turns, 0);
    Ok(())
}

// A packet of core 0 is struck at every attempt from the third on.
const LASTING: &[u8] = b"U 0 2 A 2000 *";

#[test]
fn no_spare(rt: HostRuntime) -> Result<(), Fail> {
    let mut p = started(rt.alloc(), 0, b"0*12", LASTING)?;
    assert!(rt; says(&mut p, b"turns 3", b"at 3"));
    assert!(rt; says(&mut p, b"psw 0", b"recovering"));
    assert!(rt; says(&mut p, b"regs 0", b"recovering"));
    assert!(rt; says(&mut p, b"cpu 0", b"operating 0"));
    assert!(rt; says(&mut p, b"turns 1", b"at 4"));
    assert!(rt; says(&mut p, b"psw 0", b"00082000 80010006"));
    assert!(rt; says(&mut p, b"turns 6", b"at 10"));
    assert!(rt; says(&mut p, b"ctl 0", b"check-stop"));
    assert!(rt; says(&mut p, b"prefix 0", b"check-stop"));
    assert!(rt; says(&mut p, b"cpu 0", b"check-stop 0"));
    let report = Report {
        turns: 10,
        commits: 2,
        retries: 3,
        spared: 0,
        stopped: 1,
    };
    assert_eq!(rt; p.session.report(), report);
    Ok(())
}

#[test]
fn spare_taken(rt: HostRuntime) -> Result<(), Fail> {
    let mut p = started(rt.alloc(), 1, b"0*10 K0 R0 0*8", LASTING)?;
    assert!(rt; says(&mut p, b"turns 10", b"at 10"));
    assert!(rt; says(&mut p, b"cpu 0", b"operating 8"));
    assert!(rt; says(&mut p, b"turns 10", b"at 20"));
    assert!(rt; says(&mut p, b"psw 0", b"00082000 8001001C"));
    assert_eq!(rt; p.session.report().spared, 1);
    Ok(())
}
