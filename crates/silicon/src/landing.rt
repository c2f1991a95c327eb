// What a script flips at an attempt: a step for each of its strikes then.
#![tactic(auto)]

ghost use Rattle.std.specs.Prelude.{◌≡◌, ◌+◌, ◌<◌, length, replicate};
ghost use Rattle.run_model.specs.Script.{InRange, AllInRange};
ghost use Rattle.run_model.specs.Strikes.{mask_byte, fetch_bit, store_bit};
ghost use Rattle.silicon.specs.Chip.{masked};
ghost use Rattle.silicon.specs.Landing.{UpTo, LandsOne, LandsAll};
ghost use Rattle.silicon.specs.Lines.{lines_of, IsWalked};

use crate::passing::{fetch_of, flip_by_briefs, flip_packet, store_of};
use fault_script::{Strike, Unit, Walk};
use result_packet::Packet;
use run_model::faults::CoreNo;

/// The bit of the fetch latch that is struck.
#[tactic(auto, using(crate::proofs::Smalls::small_fetch), unfolding(run_model::specs::Strikes::fetch_bit))]
pub fn fetch_struck(walk: &Option<Walk>, core: CoreNo, n: u64) -> Option<u8>
    requires { IsWalked walk.now core.0 (n + 1) }
    ensures bit { result ≡ fetch_bit (lines_of walk.now) core.0 n }
    ensures small { UpTo 64 result }
{
    match walk {
        None => None,
        Some(walk) => fetch_of(walk.under(core), core, n),
    }
}

/// The bit of the store latch that is struck.
#[tactic(auto, using(crate::proofs::Smalls::small_store), unfolding(run_model::specs::Strikes::store_bit))]
pub fn store_struck(walk: &Option<Walk>, core: CoreNo, n: u64) -> Option<u16>
    requires { IsWalked walk.now core.0 (n + 1) }
    ensures bit { result ≡ store_bit (lines_of walk.now) core.0 n }
    ensures small { UpTo 4096 result }
{
    match walk {
        None => None,
        Some(walk) => store_of(walk.under(core), core, n),
    }
}

/// What is struck in the packet of a unit.
#[tactic(auto, using(crate::proofs::Smalls::both_masks, crate::proofs::Smalls::no_lines))]
pub fn strike_packet(packet: &mut Packet, walk: &Option<Walk>, core: CoreNo, unit: Unit, n: u64)
    requires { IsWalked walk.now core.0 (n + 1) }
    ensures { packet.new ≡ masked (mask_byte (lines_of walk.now) core.0 unit n) 0 packet.old }
{
    match walk {
        None => {}
        Some(walk) => {
            flip_by_briefs(packet, walk.under(core), core, unit, n);
            flip_packet(packet, walk.lasting_under(core), core, unit, n);
        }
    }
}

#[tactic(auto, using(crate::proofs::Lands::struck, crate::proofs::Lands::missed), unfolding(run_model::specs::Checkpoint::width))]
fn land_one(words: &mut [u128], s: &Strike, core: CoreNo, n: u64)
    requires core { core.0 < 16 }
    requires whole { length words.old ≡ 640 }
    requires range { InRange s.now }
    ensures lands { LandsOne s.now core.0 n words.old words.new }
    ensures whole { length words.new ≡ 640 }
{
    match *s {
        Strike::Word(struck, first, word, bit) => {
            if struck.0 == core.0 && first == n {
                words[core.0 as usize * 40 + word as usize] ^= 1 << bit;
            }
        }
        Strike::Packet(_, _, _, _, _) => {}
        Strike::Fetch(_, _, _) => {}
        Strike::Store(_, _, _) => {}
    }
}

fn land_all(words: &mut [u128], strikes: &[Strike], core: CoreNo, n: u64)
    requires core { core.0 < 16 }
    requires whole { length words.old ≡ 640 }
    requires ranges { AllInRange strikes.now }
    ensures lands { LandsAll strikes.now core.0 n words.old words.new }
    ensures whole { length words.new ≡ 640 }
{
    for s in strikes {
        land_one(words, s, core, n);
    }
}

/// The strikes on words of an attempt land.
#[tactic(auto, using(crate::proofs::Smalls::lands_as, crate::proofs::Smalls::lands_none))]
pub fn land(words: &mut [u128], walk: &Option<Walk>, core: CoreNo, n: u64)
    requires walked { IsWalked walk.now core.0 (n + 1) }
    requires core { core.0 < 16 }
    requires whole { length words.old ≡ 640 }
    ensures { LandsAll (lines_of walk.now) core.0 n words.old words.new }
{
    match walk {
        None => {}
        Some(walk) => land_all(words, walk.under(core), core, n),
    }
}
