// The checkpoint words of a core are read and written.
ghost use Rattle.std.specs.Prelude.{◌≡◌, ℕ, ◌+◌, ◌≤◌, ◌<◌, ◌^◌, [], true, IfNone, length};
ghost use Rattle.arrayvec.specs.ArrayVec.{array_vec_len};
ghost use Rattle.run_model.specs.Checkpoint.{values_below, word_of as checkpoint_word};
ghost use Rattle.run_model.specs.Code.{read_of};
ghost use Rattle.run_model.specs.Reading.{mark_of, mark_by, value, value_by, code};
ghost use Rattle.core_states.specs.Words.{read_core as reading_of, scrub_reading};
ghost use Rattle.core_states.specs.Words.{Rewrites, Fills, Changes, Scrubs};
ghost use Rattle.core_states.specs.Word.{noted, Fixes};
ghost use Rattle.core_states.specs.Read.{values_read};

use arrayvec::ArrayVec;
use esa_model::machine::Registers;
use run_model::faults::{CoreNo, Note};
use run_model::readings::{Mark, Read};
use runit_ecc::{Code, word_of};
use silicon::Silicon;

/// The checkpoint words of one core that were corrected, in their order.
pub type Notes = ArrayVec<Note, 40>;

// How a stored word reads, and the value that it says.
#[derive(Clone, Copy)]
pub(crate) struct Found {
    pub mark: Mark,
    pub value: u64,
}

fn as_found(r: Read) -> Found
    requires { value_by r < 2 ^ 64 }
    ensures mark { result.mark ≡ mark_by r }
    ensures value { result.value ≡ value_by r }
{
    match r {
        Read::Clean(value) => Found {
            mark: Mark::Plain,
            value: value as u64,
        },
        Read::Corrected(value, bit) => Found {
            mark: Mark::Fixed(bit),
            value: value as u64,
        },
        Read::Uncorrectable => Found {
            mark: Mark::Bad,
            value: 0,
        },
    }
}

#[tactic(auto, using(crate::proofs::Below::below))]
fn read_narrow(stored: u128) -> Read
    ensures is { result ≡ read_of 39 7 stored }
    ensures small { value_by result < 2 ^ 32 }
{
    Code::<32, 7>::read(stored)
}

#[tactic(auto, using(crate::proofs::Below::below))]
fn read_wide(stored: u128) -> Read
    ensures is { result ≡ read_of 72 8 stored }
    ensures small { value_by result < 2 ^ 64 }
{
    Code::<64, 8>::read(stored)
}

// Words 0 to 35 are stored under the narrow code, the clock words under the wide one.
#[tactic(auto, unfolding(run_model::specs::Reading::mark_of, run_model::specs::Reading::value, run_model::specs::Checkpoint::width, run_model::specs::Checkpoint::checks, run_model::specs::Checkpoint::values_below))]
fn read_stored(word: u8, stored: u128) -> Found
    ensures mark { result.mark ≡ mark_of word stored }
    ensures value { result.value ≡ value word stored }
    ensures small { result.value < 2 ^ values_below word }
{
    if word < 36 {
        as_found(read_narrow(stored))
    } else {
        as_found(read_wide(stored))
    }
}

#[tactic(auto, unfolding(run_model::specs::Reading::code, run_model::specs::Checkpoint::width, run_model::specs::Checkpoint::checks, run_model::specs::Checkpoint::values_below))]
fn stored_for(word: u8, value: u64) -> u128
    requires { value < 2 ^ values_below word }
    ensures { result ≡ code word value }
{
    if word < 36 {
        Code::<32, 7>::encode(value as u128)
    } else {
        Code::<64, 8>::encode(value as u128)
    }
}

// The words of registers have the width of their code, since each register has its own.
#[tactic(auto, unfolding(run_model::specs::Checkpoint::values_below, run_model::specs::Checkpoint::word_of))]
fn fits(r: &Registers, word: u8)
    requires { word < 40 }
    ensures { checkpoint_word r.now word < 2 ^ values_below word }
{
    let _value = match word {
        0..=15 => u64::from(r.general[usize::from(word)]),
        16..=31 => u64::from(r.control[usize::from(word - 16)]),
        32 => u64::from(r.psw.w0),
        33 => u64::from(r.psw.w1),
        34 => u64::from(r.prefix),
        35 => 0,
        _ => r.clocks[usize::from(word - 36)],
    };
}

// A word of a core as registers say it.
fn stored_word(r: &Registers, word: u8) -> u128
    requires { word < 40 }
    ensures { result ≡ code word (checkpoint_word r.now word) }
{
    fits(r, word);
    stored_for(word, word_of(r, word))
}

// One word is read. A corrected one is noted, and written back where that is asked.
fn read_word<Z: Silicon>(core: CoreNo, word: u8, back: bool, z: &mut Z, notes: &mut Notes) -> Found
    requires core { core.0 < 16 }
    requires word { word < 40 }
    requires room { array_vec_len notes.old < 40 }
    ensures mark { result.mark ≡ mark_of word ((Z.seen z.old).word core.0 word) }
    ensures value { result.value ≡ value word ((Z.seen z.old).word core.0 word) }
    ensures notes { notes.new.items
        ≡ noted notes.old.items word (mark_of word ((Z.seen z.old).word core.0 word)) }
    ensures room { array_vec_len notes.new ≤ array_vec_len notes.old + 1 }
    ensures fixes { Fixes back core.0 word (Z.seen z.old) (Z.seen z.new) }
    ensures tape { Z.tape z.new ≡ Z.tape z.old }
{
    let found = read_stored(word, z.get_word(core, word));
    if let Mark::Fixed(bit) = found.mark {
        notes.push(Note { word, bit });
        if back {
            z.put_word(core, word, stored_for(word, found.value));
        }
    }
    found
}

/// The words of a core are read in their order, up to the first that is lost, which is the answer.
/// Corrected ones are noted, and written back where that is asked.
pub(crate) fn read_core<Z: Silicon>(
    core: CoreNo,
    back: bool,
    z: &mut Z,
    notes: &mut Notes,
    words: &mut [u64],
) -> Option<u8>
    requires core { core.0 < 16 }
    requires empty { notes.old.items ≡ [] }
    requires whole { length words.old ≡ 40 }
    ensures read { reading_of (Z.seen z.old) core.0
        ≡ record { notes = notes.new.items; lost = result } }
    ensures rewrites { Rewrites back core.0 result (Z.seen z.old) (Z.seen z.new) }
    ensures words { IfNone result (words.new ≡ values_read (Z.seen z.old) core.0) }
    ensures tape { Z.tape z.new ≡ Z.tape z.old }
{
    for word in 0..40 {
        let found = read_word(core, word, back, z, notes);
        if let Mark::Bad = found.mark {
            return Some(word);
        }
        words[word as usize] = found.value;
    }
    None
}

/// The words of a core are read where 16 divides the attempts that it has begun.
#[tactic(auto, unfolding(crate::specs::Words::scrub_reading))]
pub(crate) fn scrub<Z: Silicon>(core: CoreNo, z: &mut Z, notes: &mut Notes) -> Option<u8>
    requires core { core.0 < 16 }
    requires empty { notes.old.items ≡ [] }
    ensures read { scrub_reading (Z.seen z.old) core.0
        ≡ record { notes = notes.new.items; lost = result } }
    ensures scrubs { Scrubs core.0 result (Z.seen z.old) (Z.seen z.new) }
    ensures tape { Z.tape z.new ≡ Z.tape z.old }
{
    if z.begun(core) % 16 == 0 {
        let mut words = [0; 40];
        read_core(core, true, z, notes, &mut words)
    } else {
        None
    }
}

/// All words of a core are written.
pub(crate) fn fill<Z: Silicon>(core: CoreNo, r: &Registers, z: &mut Z)
    requires { core.0 < 16 }
    ensures fills { Fills core.0 r.now (Z.seen z.old) (Z.seen z.new) }
    ensures tape { Z.tape z.new ≡ Z.tape z.old }
{
    for word in 0..40 {
        z.put_word(core, word, stored_word(r, word));
    }
}

/// The words whose value changed are written.
pub(crate) fn write_changed<Z: Silicon>(
    core: CoreNo,
    before: &Registers,
    after: &Registers,
    z: &mut Z,
)
    requires { core.0 < 16 }
    ensures changes { Changes core.0 before.now after.now (Z.seen z.old) (Z.seen z.new) }
    ensures tape { Z.tape z.new ≡ Z.tape z.old }
{
    for word in 0..40 {
        if word_of(after, word) != word_of(before, word) {
            z.put_word(core, word, stored_word(after, word));
        }
    }
}
