// What a script's line says.
#![tactic(auto)]

ghost use Rattle.std.specs.Prelude.{◌≡◌, ◌<◌, ◌≤◌, IfSome, IfOk};
ghost use Rattle.run_model.specs.Checkpoint.{width};
ghost use Rattle.run_model.specs.Script.{is_letter, last_position, ranged, spot, word_spot};
ghost use Rattle.run_model.specs.Script.{as_fetch, as_store, as_word, as_packet, unit, attempts};
ghost use Rattle.run_model.specs.Script.{four_fields, five_fields, six_fields, by_fields};
ghost use Rattle.run_model.specs.Script.{fields as fields_of, strike_of, CountInRange, InRange};
ghost use Rattle.fault_script.specs.Ranges.{SpotInRange, WordInRange};

use crate::fields::{Parts, parted};
use crate::{ScriptRefusal, Strike, Unit};
use esa_words::{is_decimal, read_decimal};
use run_model::faults::{CoreNo, Spot};

// The numbers of a line, each None where it is out of its range.
fn range(
    line: u32,
    attempt: Option<u64>,
    core: Option<u64>,
    word: Option<u64>,
    bit: Option<u64>,
) -> Result<Spot, ScriptRefusal>
    requires attempts { IfSome attempt (λ n. n ≤ 999999) }
    requires cores { IfSome core (λ c. c ≤ 15) }
    requires words { IfSome word (λ w. w ≤ 39) }
    requires bits { IfSome bit (λ b. b ≤ 4096) }
    ensures value { result ≡ ranged line attempt core word bit }
    ensures spot { IfOk result SpotInRange }
    ensures word { IfOk result (λ s. word ≡ Some s.word) }
    ensures bit { IfOk result (λ s. bit ≡ Some s.bit) }
{
    let attempt = match attempt {
        Some(attempt) => attempt,
        None => return Err(ScriptRefusal::BadLine(line)),
    };
    let core = match core {
        Some(core) => core,
        None => return Err(ScriptRefusal::BadCore(line)),
    };
    let word = match word {
        Some(word) => word,
        None => return Err(ScriptRefusal::BadWord(line)),
    };
    let bit = match bit {
        Some(bit) => bit,
        None => return Err(ScriptRefusal::BadBit(line)),
    };
    Ok(Spot {
        core: CoreNo(core as u8),
        attempt,
        word: word as u8,
        bit: bit as u16,
    })
}

#[tactic(auto, unfolding(run_model::specs::Script::spot))]
fn spot_of(
    line: u32,
    most: u64,
    core: &[u8],
    attempt: &[u8],
    bit: &[u8],
) -> Result<Spot, ScriptRefusal>
    requires { most ≤ 4096 }
    ensures value { result ≡ spot line most core.now attempt.now bit.now }
    ensures spot { IfOk result SpotInRange }
    ensures bit { IfOk result (λ s. s.bit ≤ most) }
{
    if !is_decimal(core) || !is_decimal(bit) {
        return Err(ScriptRefusal::BadLine(line));
    }
    let attempt = read_decimal(attempt, 999_999);
    let core = read_decimal(core, 15);
    let bit = read_decimal(bit, most);
    range(line, attempt, core, Some(0), bit)
}

// The last position of a checkpoint word: those of the clocks have 64 bits, the others 32.
#[tactic(auto, unfolding(run_model::specs::Checkpoint::width))]
fn last_position_of(word: Option<u64>) -> u64
    ensures value { result ≡ last_position word }
    ensures bit { IfSome word (λ w. result < width w) }
    ensures small { result ≤ 71 }
{
    match word {
        Some(word) => if word < 36 { 38 } else { 71 },
        None => 0,
    }
}

#[tactic(auto, unfolding(run_model::specs::Script::word_spot))]
fn word_spot_of(
    line: u32,
    core: &[u8],
    attempt: &[u8],
    word: &[u8],
    bit: &[u8],
) -> Result<Spot, ScriptRefusal>
    ensures value { result ≡ word_spot line core.now attempt.now word.now bit.now }
    ensures spot { IfOk result SpotInRange }
    ensures word { IfOk result WordInRange }
    ensures small { IfOk result (λ s. s.bit ≤ 71) }
{
    if !is_decimal(core) || !is_decimal(word) || !is_decimal(bit) {
        return Err(ScriptRefusal::BadLine(line));
    }
    let attempt = read_decimal(attempt, 999_999);
    let core = read_decimal(core, 15);
    let word = read_decimal(word, 39);
    let bit = read_decimal(bit, last_position_of(word));
    range(line, attempt, core, word, bit)
}

fn is_one(byte: u8, field: &[u8]) -> bool
    ensures { result ≡ is_letter byte field.now }
{
    field.len() == 1 && field[0] == byte
}

fn fetch_of(spot: Result<Spot, ScriptRefusal>) -> Result<Strike, ScriptRefusal>
    requires spot { IfOk spot SpotInRange }
    requires bit { IfOk spot (λ s. s.bit ≤ 64) }
    ensures value { result ≡ as_fetch spot }
    ensures range { IfOk result InRange }
{
    match spot {
        Ok(s) => Ok(Strike::Fetch(s.core, s.attempt, s.bit as u8)),
        Err(e) => Err(e),
    }
}

fn store_of(spot: Result<Spot, ScriptRefusal>) -> Result<Strike, ScriptRefusal>
    requires spot { IfOk spot SpotInRange }
    requires bit { IfOk spot (λ s. s.bit ≤ 4096) }
    ensures value { result ≡ as_store spot }
    ensures range { IfOk result InRange }
{
    match spot {
        Ok(s) => Ok(Strike::Store(s.core, s.attempt, s.bit)),
        Err(e) => Err(e),
    }
}

fn word_of(spot: Result<Spot, ScriptRefusal>) -> Result<Strike, ScriptRefusal>
    requires spot { IfOk spot SpotInRange }
    requires word { IfOk spot WordInRange }
    requires small { IfOk spot (λ s. s.bit ≤ 71) }
    ensures value { result ≡ as_word spot }
    ensures range { IfOk result InRange }
{
    match spot {
        Ok(s) => Ok(Strike::Word(s.core, s.attempt, s.word, s.bit as u8)),
        Err(e) => Err(e),
    }
}

#[tactic(auto, unfolding(run_model::specs::Script::unit))]
fn unit_of(field: &[u8]) -> Option<Unit>
    ensures { result ≡ unit field.now }
{
    if is_one(b'A', field) {
        return Some(Unit::A);
    }
    if is_one(b'B', field) {
        return Some(Unit::B);
    }
    None
}

#[tactic(auto, unfolding(run_model::specs::Script::attempts))]
fn attempts_of(field: &[u8]) -> Option<Option<u64>>
    ensures value { result ≡ attempts field.now }
    ensures range { IfSome result CountInRange }
{
    if is_one(b'*', field) {
        return Some(None);
    }
    match read_decimal(field, 1_000_000) {
        Some(count) => {
            if count == 0 {
                return None;
            }
            Some(Some(count))
        }
        None => None,
    }
}

fn packet_of(
    line: u32,
    unit: Option<Unit>,
    attempts: Option<Option<u64>>,
    spot: Result<Spot, ScriptRefusal>,
) -> Result<Strike, ScriptRefusal>
    requires attempts { IfSome attempts CountInRange }
    requires spot { IfOk spot SpotInRange }
    requires bit { IfOk spot (λ s. s.bit ≤ 4095) }
    ensures value { result ≡ as_packet line unit attempts spot }
    ensures range { IfOk result InRange }
{
    let unit = match unit {
        Some(unit) => unit,
        None => return Err(ScriptRefusal::BadLine(line)),
    };
    let attempts = match attempts {
        Some(attempts) => attempts,
        None => return Err(ScriptRefusal::BadLine(line)),
    };
    match spot {
        Ok(s) => Ok(Strike::Packet(s.core, s.attempt, unit, s.bit, attempts)),
        Err(e) => Err(e),
    }
}

#[tactic(auto, unfolding(run_model::specs::Script::four_fields))]
fn read_four(line: u32, k: &[u8], c: &[u8], n: &[u8], b: &[u8]) -> Result<Strike, ScriptRefusal>
    ensures value { result ≡ four_fields line k.now c.now n.now b.now }
    ensures range { IfOk result InRange }
{
    if is_one(b'F', k) {
        return fetch_of(spot_of(line, 64, c, n, b));
    }
    if is_one(b'S', k) {
        return store_of(spot_of(line, 4096, c, n, b));
    }
    Err(ScriptRefusal::BadLine(line))
}

#[tactic(auto, unfolding(run_model::specs::Script::five_fields))]
fn read_five(
    line: u32,
    k: &[u8],
    c: &[u8],
    n: &[u8],
    w: &[u8],
    b: &[u8],
) -> Result<Strike, ScriptRefusal>
    ensures value { result ≡ five_fields line k.now c.now n.now w.now b.now }
    ensures range { IfOk result InRange }
{
    if is_one(b'W', k) {
        return word_of(word_spot_of(line, c, n, w, b));
    }
    Err(ScriptRefusal::BadLine(line))
}

#[tactic(auto, unfolding(run_model::specs::Script::six_fields))]
fn read_six(
    line: u32,
    k: &[u8],
    c: &[u8],
    n: &[u8],
    u: &[u8],
    b: &[u8],
    m: &[u8],
) -> Result<Strike, ScriptRefusal>
    ensures value { result ≡ six_fields line k.now c.now n.now u.now b.now m.now }
    ensures range { IfOk result InRange }
{
    if is_one(b'U', k) {
        return packet_of(
            line,
            unit_of(u),
            attempts_of(m),
            spot_of(line, 4095, c, n, b),
        );
    }
    Err(ScriptRefusal::BadLine(line))
}

fn read_parts(line: u32, text: &[u8]) -> Result<Strike, ScriptRefusal>
    ensures value { result ≡ by_fields line (fields_of text.now) }
    ensures range { IfOk result InRange }
{
    match parted(text) {
        Parts::Four(k, c, n, b) => read_four(line, k, c, n, b),
        Parts::Five(k, c, n, w, b) => read_five(line, k, c, n, w, b),
        Parts::Six(k, c, n, u, b, m) => read_six(line, k, c, n, u, b, m),
        Parts::Other => Err(ScriptRefusal::BadLine(line)),
    }
}

/// What the line of this number says by itself.
#[tactic(auto, unfolding(run_model::specs::Script::strike_of))]
pub fn read_line(line: u32, text: &[u8]) -> Result<Strike, ScriptRefusal>
    ensures value { result ≡ strike_of line text.now }
    ensures range { IfOk result InRange }
{
    read_parts(line, text)
}
