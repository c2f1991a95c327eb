// Checkpoint words that are wrong, corrected, lost, transferred and written.
use super::{Scene, armed, failed, new_scene, plain, retry};
use crate::{Attempt, HandedOver, Notes, Recovered, RunningCore, SpareCore};
use run_model::faults::{CoreNo, Note, Numbered};
use runit_ecc::Code;
use silicon::{ScriptSilicon, Silicon};
use std::test::Fail;

/// One wrong bit of a word is corrected by a retry, two are not; words 5 and 35 have 39 positions,
/// words 36 and 39 have 72.
#[test]
fn wrong_bits(rt: HostRuntime) -> Result<(), Fail> {
    for (lines, word, bit, lost) in [
        (b"F 0 0 0\nW 0 0 5 10".as_slice(), 5, 10, false),
        (b"F 0 0 0\nW 0 0 35 38".as_slice(), 35, 38, false),
        (b"F 0 0 0\nW 0 0 36 71".as_slice(), 36, 71, false),
        (b"F 0 0 0\nW 0 0 39 0".as_slice(), 39, 0, false),
        (b"F 0 0 0\nW 0 0 5 10\nW 0 0 5 11".as_slice(), 5, 0, true),
        (b"F 0 0 0\nW 0 0 37 0\nW 0 0 37 71".as_slice(), 37, 0, true),
    ] {
        let mut s = new_scene(rt.alloc())?;
        let mut z = armed(rt.alloc(), lines)?;
        let (k, _) = failed(&mut s, &mut z)?;
        let mut notes = Notes::new();
        match retry(k, &mut z, &mut notes)? {
            Recovered::Running(k) => {
                assert!(rt; !lost);
                assert!(rt; *k.registers() == s.registers);
                assert_eq!(rt; notes.as_slice(), [Note { word, bit }].as_slice());
            }
            Recovered::Lost(k, which) => {
                assert!(rt; lost);
                assert_eq!(rt; (k.core().0, which), (0, word));
                assert_eq!(rt; notes.len(), 0);
            }
        }
    }
    Ok(())
}

/// Corrected words stand in their order before the lost one, and are written back.
#[test]
fn words_before_a_lost_one(rt: HostRuntime) -> Result<(), Fail> {
    let mut s = new_scene(rt.alloc())?;
    let mut z = armed(
        rt.alloc(),
        b"F 0 0 0\nW 0 0 36 3\nW 0 0 5 10\nW 0 0 38 1\nW 0 0 38 2\nW 0 0 39 1",
    )?;
    let (k, _) = failed(&mut s, &mut z)?;
    let mut notes = Notes::new();
    match retry(k, &mut z, &mut notes)? {
        Recovered::Running(_) => assert!(rt; false),
        Recovered::Lost(_, word) => assert_eq!(rt; word, 38),
    }
    assert_eq!(rt;
        notes.as_slice(),
        [Note { word: 5, bit: 10 }, Note { word: 36, bit: 3 }].as_slice()
    );
    assert_eq!(rt; z.get_word(CoreNo(0), 36), Code::<64, 8>::encode(0x2000));
    assert_eq!(rt; z.get_word(CoreNo(0), 39), 2);
    Ok(())
}

/// A spare goes on with all registers, prefix and control registers among them, though a word was
/// wrong; that word of the fenced core is left.
#[test]
fn transfers(rt: HostRuntime) -> Result<(), Fail> {
    let mut s = new_scene(rt.alloc())?;
    let mut z = armed(rt.alloc(), b"F 0 0 0\nW 0 0 34 7")?;
    let (k, _) = failed(&mut s, &mut z)?;
    let wrong = z.get_word(CoreNo(0), 34);
    let mut notes = Notes::new();
    match k.hand_over(SpareCore::new(CoreNo(8)), &mut z, &mut notes) {
        HandedOver::Running(k, fenced) => {
            assert_eq!(rt; (k.core().0, k.retries()), (8, 0));
            assert!(rt; *k.registers() == s.registers);
            assert_eq!(rt; (fenced.core().0, fenced.number().0), (0, 0));
            let spare = fenced.repaired();
            assert_eq!(rt; (spare.core().0, spare.number().0), (0, 0));
        }
        HandedOver::Lost(_, _, _) => assert!(rt; false),
    }
    assert_eq!(rt; notes.as_slice(), [Note { word: 34, bit: 7 }].as_slice());
    assert_eq!(rt; z.get_word(CoreNo(0), 34), wrong);
    assert_eq!(rt; z.get_word(CoreNo(8), 34), Code::<32, 7>::encode(0x4000));
    assert_eq!(rt; z.get_word(CoreNo(8), 37), Code::<64, 8>::encode(1 << 63));
    Ok(())
}

/// With a lost word there is no transfer, and the spare is left.
#[test]
fn no_transfer(rt: HostRuntime) -> Result<(), Fail> {
    let mut s = new_scene(rt.alloc())?;
    let mut z = armed(rt.alloc(), b"F 0 0 0\nW 0 0 17 7\nW 0 0 17 8")?;
    let (k, _) = failed(&mut s, &mut z)?;
    match k.hand_over(SpareCore::new(CoreNo(8)), &mut z, &mut Notes::new()) {
        HandedOver::Running(_, _) => assert!(rt; false),
        HandedOver::Lost(fenced, spare, word) => {
            assert_eq!(rt; (fenced.core().0, spare.core().0, word), (0, 8, 17));
        }
    }
    assert_eq!(rt; z.get_word(CoreNo(8), 0), 0);
    Ok(())
}

// So many attempts of core 0, each of which is committed with the registers of before.
fn commits(s: &mut Scene, z: &mut ScriptSilicon, count: u32) -> Result<RunningCore, Fail> {
    let mut k = SpareCore::new(CoreNo(0)).wake(s.registers, z);
    for _ in 0..count {
        match plain(k, s, z, &mut Notes::new())? {
            Attempt::Committed(next, _) => k = next.committed(s.registers, z),
            _ => return Err("an attempt failed".into()),
        }
    }
    Ok(k)
}

/// The words are read before attempt 16: one that was struck at attempt 3 is corrected.
#[test]
fn read_before_attempt_16(rt: HostRuntime) -> Result<(), Fail> {
    let mut s = new_scene(rt.alloc())?;
    let mut z = armed(rt.alloc(), b"W 0 3 15 10")?;
    let k = commits(&mut s, &mut z, 16)?;
    assert!(rt; z.get_word(CoreNo(0), 15) != Code::<32, 7>::encode(6));
    let mut notes = Notes::new();
    match plain(k, &mut s, &mut z, &mut notes)? {
        Attempt::Committed(k, _) => assert_eq!(rt; k.core().0, 0),
        _ => assert!(rt; false),
    }
    assert_eq!(rt; notes.as_slice(), [Note { word: 15, bit: 10 }].as_slice());
    assert_eq!(rt; z.get_word(CoreNo(0), 15), Code::<32, 7>::encode(6));
    assert_eq!(rt; z.begun(CoreNo(0)), 17);
    Ok(())
}

/// A lost word is found there too, and the attempt is not begun.
#[test]
fn lost_before_attempt_16(rt: HostRuntime) -> Result<(), Fail> {
    let mut s = new_scene(rt.alloc())?;
    let mut z = armed(rt.alloc(), b"W 0 3 39 10\nW 0 4 39 11")?;
    let k = commits(&mut s, &mut z, 16)?;
    match plain(k, &mut s, &mut z, &mut Notes::new())? {
        Attempt::Lost(fenced, word) => assert_eq!(rt; (fenced.core().0, word), (0, 39)),
        _ => assert!(rt; false),
    }
    assert_eq!(rt; z.begun(CoreNo(0)), 16);
    Ok(())
}

/// At a commit the words that changed are written, and a wrong bit of another word stays.
#[test]
fn changed_words(rt: HostRuntime) -> Result<(), Fail> {
    let mut s = new_scene(rt.alloc())?;
    let mut z = armed(rt.alloc(), b"W 0 0 1 4\nW 0 0 2 4")?;
    let k = SpareCore::new(CoreNo(0)).wake(s.registers, &mut z);
    match plain(k, &mut s, &mut z, &mut Notes::new())? {
        Attempt::Committed(k, _) => {
            s.registers.general[1] = 0x800;
            let k = k.committed(s.registers, &mut z);
            assert_eq!(rt; k.registers().general[1], 0x800);
            assert_eq!(rt; k.retries(), 0);
        }
        _ => assert!(rt; false),
    }
    assert_eq!(rt; z.get_word(CoreNo(0), 1), Code::<32, 7>::encode(0x800));
    assert_eq!(rt; z.get_word(CoreNo(0), 2), 0x10);
    Ok(())
}
