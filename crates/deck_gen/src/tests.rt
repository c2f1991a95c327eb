use crate::{Generated, NoMemory, generate};

// The length of a text, its bytes' sum from 1 on, and the sum of these sums, modulo 2^32.
fn sums(bytes: &[u8]) -> (usize, u32, u32) {
    let mut low: u32 = 1;
    let mut high: u32 = 0;
    for b in bytes {
        low = low.wrapping_add(u32::from(*b));
        high = high.wrapping_add(low);
    }
    (bytes.len(), low, high)
}

// How many lines begin with a letter.
fn lines_of(script: &[u8], letter: u8) -> usize {
    script
        .split(|b| *b == b'\n')
        .filter(|line| line.first() == Some(&letter))
        .count()
}

// A card of a type, blank but for its bytes from columns on, counted from 0.
fn card_with(kind: [u8; 3], parts: &[(usize, &[u8])]) -> [u8; 80] {
    let mut card = [0x40; 80];
    card[0] = 2;
    card[1..4].copy_from_slice(&kind);
    for (at, bytes) in parts {
        for (byte, more) in card.iter_mut().skip(*at).zip(*bytes) {
            *byte = *more;
        }
    }
    card
}

// The section `GEN` of X'268' bytes; its start and AR 2,8, ST 2, AP, SLL 7,0, MVC, AR 5,8, MVC
// and ST 9 as the first of the loop; the address in the restart PSW; and no entry.
#[test]
fn cards_of_one(rt: HostRuntime) -> Result<(), NoMemory> {
    let Generated {
        deck,
        schedule,
        script,
    } = generate(rt.alloc(), 1, 2)?;
    let section = [
        0xC7, 0xC5, 0xD5, 0x40, 0x40, 0x40, 0x40, 0x40, 0, 0, 0, 0, 0x40, 0, 2, 0x68,
    ];
    let text = [
        0x05, 0xC0, 0xD2, 0x07, 0x00, 0x00, 0xC1, 0xFE, 0x41, 0x30, 0x00, 0x07, 0xAE, 0x03, 0x00,
        0x06, 0x46, 0x30, 0xC0, 0x0A, 0x05, 0xC0, 0x1A, 0x28, 0x50, 0x20, 0xC1, 0xF2, 0xFA, 0x77,
        0xC2, 0x22, 0xC2, 0x12, 0x89, 0x70, 0x00, 0x00, 0xD2, 0x07, 0xC2, 0x1A, 0xC2, 0x3A, 0x1A,
        0x58, 0xD2, 0x07, 0xC2, 0x3A, 0xC2, 0x4A, 0x5A, 0x90, 0xC1, 0xFA,
    ];
    let cards = [
        card_with(
            [0xC5, 0xE2, 0xC4],
            &[(10, &[0, 16]), (14, &[0, 1]), (16, &section)],
        ),
        card_with(
            [0xE3, 0xE7, 0xE3],
            &[(5, &[0, 0, 0]), (10, &[0, 56]), (14, &[0, 1]), (16, &text)],
        ),
        card_with(
            [0xD9, 0xD3, 0xC4],
            &[(10, &[0, 8]), (16, &[0, 1, 0, 1, 8, 0, 2, 5])],
        ),
        card_with([0xC5, 0xD5, 0xC4], &[]),
    ];
    for (place, card) in [0, 80, 960, 1040].iter().zip(cards) {
        assert_eq!(rt; deck.get(*place..*place + 80), Some(card.as_slice()));
    }
    assert_eq!(rt; schedule.as_slice(), b"0*2".as_slice());
    assert_eq!(rt; script.len(), 0);
    Ok(())
}

// The last word is cut, and no line feed ends a schedule; a line feed ends each strike.
#[test]
fn short_texts(rt: HostRuntime) -> Result<(), NoMemory> {
    for (turns, wanted) in [(32, "0*32"), (33, "0*32 4*1"), (50, "0*32 4*11 7*7")] {
        let number = if turns == 33 { 0 } else { 1 };
        let texts = generate(rt.alloc(), number, turns)?;
        assert_eq!(rt; texts.schedule.as_slice(), wanted.as_bytes());
        assert_eq!(rt; texts.script.len(), 0);
    }
    let texts = generate(rt.alloc(), 7, 1000)?;
    assert_eq!(rt;
        texts.script.as_slice(),
        b"W 0 1 27 19\nS 1 15 2612\n".as_slice()
    );
    Ok(())
}

// Against a second reckoning of the stream, written from its description: 200 strikes, 52 of them
// on packets, 56 on fetches, 40 on stores and 52 on words.
#[test]
fn hundred_thousand_turns(rt: HostRuntime) -> Result<(), NoMemory> {
    let texts = generate(rt.alloc(), 7, 100_000)?;
    assert_eq!(rt; sums(&texts.deck), (1120, 66425, 44078557));
    assert_eq!(rt; sums(&texts.schedule), (39711, 1794463, 1265883384));
    assert_eq!(rt; sums(&texts.script), (2711, 123247, 166855124));
    for (letter, count) in [(b'U', 52), (b'F', 56), (b'S', 40), (b'W', 52)] {
        assert_eq!(rt; lines_of(&texts.script, letter), count);
    }
    Ok(())
}

#[test]
fn greatest(rt: HostRuntime) -> Result<(), NoMemory> {
    let texts = generate(rt.alloc(), 4_294_967_295, 1_000_000)?;
    assert_eq!(rt; sums(&texts.deck), (1120, 65446, 43374377));
    assert_eq!(rt; sums(&texts.schedule), (398578, 18004323, 1685234131));
    assert_eq!(rt; sums(&texts.script), (29230, 1346096, 2454276686));
    Ok(())
}
