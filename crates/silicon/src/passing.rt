// What strikes flip in latches and packets: a step for each strike, and none for each byte.
#![tactic(auto)]

ghost use Rattle.std.specs.Prelude.{◌≡◌, ◌≤◌, ◌<◌, ◌==◌};
ghost use Rattle.run_model.specs.Premise.{covers, same_unit};
ghost use Rattle.run_model.specs.Script.{InRange, AllInRange};
ghost use Rattle.run_model.specs.Strikes.{in_byte, mask_byte};
ghost use Rattle.run_model.specs.Strikes.{fetch_in, fetch_bit, store_in, store_bit};
ghost use Rattle.fault_script.specs.Totals.{brief_byte, brief_mask};
ghost use Rattle.silicon.specs.Chip.{masked, fetch_changed, store_changed, hit_fetch, hit_store};
ghost use Rattle.silicon.specs.Landing.{bit_mask, UpTo};

use fault_script::{Strike, Unit, is_brief_strike};
use result_packet::{FetchLatch, Packet, StoreLatch};
use run_model::faults::CoreNo;

fn is_covered(first: u64, count: Option<u64>, n: u64) -> bool
    ensures { result ≡ covers first count n }
{
    match count {
        None => first <= n,
        Some(count) => first <= n && n - first < count,
    }
}

fn is_same(a: Unit, b: Unit) -> bool
    ensures { result ≡ same_unit a b }
{
    match (a, b) {
        (Unit::A, Unit::A) => true,
        (Unit::A, Unit::B) => false,
        (Unit::B, Unit::A) => false,
        (Unit::B, Unit::B) => true,
    }
}

#[tactic(auto, using(crate::proofs::Masks::one_bit))]
fn flip_bit(packet: &mut Packet, bit: u16)
    requires { bit < 4096 }
    ensures { packet.new ≡ masked (bit_mask bit) 0 packet.old }
{
    packet.flip(bit);
}

// What one strike flips.
#[tactic(auto, using(crate::proofs::Masks::strike_hits, crate::proofs::Masks::strike_misses, crate::proofs::Masks::no_mask))]
fn flip_one(packet: &mut Packet, s: &Strike, core: CoreNo, unit: Unit, n: u64)
    requires { InRange s.now }
    ensures { packet.new ≡ masked (in_byte s.now core.0 unit n) 0 packet.old }
{
    match *s {
        Strike::Packet(struck, first, of, bit, count) => {
            if struck.0 == core.0 && (is_same(of, unit) && is_covered(first, count, n)) {
                flip_bit(packet, bit);
            }
        }
        Strike::Fetch(_, _, _) => {}
        Strike::Store(_, _, _) => {}
        Strike::Word(_, _, _, _) => {}
    }
}

/// What strikes flip in the packet of a unit.
pub fn flip_packet(packet: &mut Packet, strikes: &[Strike], core: CoreNo, unit: Unit, n: u64)
    requires { AllInRange strikes.now }
    ensures { packet.new ≡ masked (mask_byte strikes.now core.0 unit n) 0 packet.old }
{
    for s in strikes {
        flip_one(packet, s, core, unit, n);
    }
}

// What one strike flips, where it is brief.
#[tactic(auto, using(crate::proofs::Briefs::brief_one, crate::proofs::Briefs::lasting_one))]
fn flip_brief(packet: &mut Packet, s: &Strike, core: CoreNo, unit: Unit, n: u64)
    requires { InRange s.now }
    ensures { packet.new ≡ masked (λ k. brief_byte s.now core.0 unit n k) 0 packet.old }
{
    if is_brief_strike(s) {
        flip_one(packet, s, core, unit, n);
    }
}

/// What the brief ones among strikes flip in the packet of a unit.
pub fn flip_by_briefs(packet: &mut Packet, strikes: &[Strike], core: CoreNo, unit: Unit, n: u64)
    requires { AllInRange strikes.now }
    ensures { packet.new ≡ masked (brief_mask strikes.now core.0 unit n) 0 packet.old }
{
    for s in strikes {
        flip_brief(packet, s, core, unit, n);
    }
}

fn fetch_of_strike(s: &Strike, core: CoreNo, n: u64) -> Option<u8>
    ensures { result ≡ fetch_in s.now core.0 n }
{
    match *s {
        Strike::Fetch(struck, first, bit) => {
            if struck.0 == core.0 && first == n {
                Some(bit)
            } else {
                None
            }
        }
        Strike::Packet(_, _, _, _, _) => None,
        Strike::Store(_, _, _) => None,
        Strike::Word(_, _, _, _) => None,
    }
}

/// The bit of the fetch latch that the first strike on it changes.
#[tactic(auto, unfolding(run_model::specs::Strikes::fetch_bit))]
pub fn fetch_of(strikes: &[Strike], core: CoreNo, n: u64) -> Option<u8>
    ensures { result ≡ fetch_bit strikes.now core.0 n }
{
    for s in strikes {
        match fetch_of_strike(s, core, n) {
            Some(bit) => return Some(bit),
            None => {}
        }
    }
    None
}

fn store_of_strike(s: &Strike, core: CoreNo, n: u64) -> Option<u16>
    ensures { result ≡ store_in s.now core.0 n }
{
    match *s {
        Strike::Store(struck, first, bit) => {
            if struck.0 == core.0 && first == n {
                Some(bit)
            } else {
                None
            }
        }
        Strike::Packet(_, _, _, _, _) => None,
        Strike::Fetch(_, _, _) => None,
        Strike::Word(_, _, _, _) => None,
    }
}

/// The bit of the store latch that the first strike on it changes.
#[tactic(auto, unfolding(run_model::specs::Strikes::store_bit))]
pub fn store_of(strikes: &[Strike], core: CoreNo, n: u64) -> Option<u16>
    ensures { result ≡ store_bit strikes.now core.0 n }
{
    for s in strikes {
        match store_of_strike(s, core, n) {
            Some(bit) => return Some(bit),
            None => {}
        }
    }
    None
}

#[tactic(auto, unfolding(result_packet::specs::Bits::flipped))]
fn change_fetch(latch: &mut FetchLatch, bit: u8)
    requires { bit ≤ 64 }
    ensures { latch.new ≡ fetch_changed latch.old bit }
{
    if bit == 64 {
        latch.odd = !latch.odd;
    } else {
        latch.bytes[(bit / 8) as usize] ^= 1 << (7 - bit % 8);
    }
}

/// Changes the bit of a latch, where there is one.
pub fn strike_fetch(latch: &mut FetchLatch, bit: Option<u8>)
    requires { UpTo 64 bit }
    ensures { latch.new ≡ hit_fetch latch.old bit }
{
    match bit {
        None => {}
        Some(bit) => change_fetch(latch, bit),
    }
}

fn change_store(latch: &mut StoreLatch, bit: u16)
    requires { bit ≤ 4096 }
    ensures { latch.new ≡ store_changed latch.old bit }
{
    if bit == 4096 {
        latch.odd = !latch.odd;
    } else {
        latch.packet.flip(bit);
    }
}

/// Changes the bit of a latch, where there is one.
pub fn strike_store(latch: &mut StoreLatch, bit: Option<u16>)
    requires { UpTo 4096 bit }
    ensures { latch.new ≡ hit_store latch.old bit }
{
    match bit {
        None => {}
        Some(bit) => change_store(latch, bit),
    }
}
