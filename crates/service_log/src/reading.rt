// What a line of the log says.
#![tactic(auto)]

ghost use Rattle.std.specs.Prelude.{◌≡◌, ok_or};
ghost use Rattle.run_model.specs.Script.{fields};
ghost use Rattle.run_model.specs.LogReading.{long_in, byte_in, cause_in, cpu_in, one_field, two_fields, three_fields, entry_by, entry_by_fields, entry_in, read_entry};
ghost use Rattle.run_model.specs.LogReading.{content as content_text};
ghost use Rattle.run_model.specs.declared.logs.LogRefusal.TheVariants.{BadLine};
ghost use Rattle.service_log.specs.Lines.{content_of};

use crate::fields::{Parts, is_word, parted};
use crate::{Entry, LogRefusal, What};
use esa_model::machine::CpuNo;
use esa_words::read_decimal;
use run_model::faults::{Cause, CoreNo};

/// A number below 2^64.
#[tactic(auto, unfolding(run_model::specs::LogReading::long_in))]
pub fn long_of(field: &[u8]) -> Option<u64>
    ensures { result ≡ long_in field.now }
{
    read_decimal(field, u64::MAX)
}

// A number below 256.
#[tactic(auto, unfolding(run_model::specs::LogReading::byte_in))]
fn byte_of(field: &[u8]) -> Option<u8>
    ensures { result ≡ byte_in field.now }
{
    let n = read_decimal(field, 255)?;
    Some(n as u8)
}

#[tactic(auto, unfolding(run_model::specs::LogReading::cause_in))]
fn cause_of(field: &[u8]) -> Option<Cause>
    ensures { result ≡ cause_in field.now }
{
    if is_word(field, b"FETCH") {
        return Some(Cause::Fetch);
    }
    if is_word(field, b"MISMATCH") {
        return Some(Cause::Mismatch);
    }
    if is_word(field, b"STORE") {
        return Some(Cause::Store);
    }
    None
}

// What happened, in one field.
#[tactic(auto, unfolding(run_model::specs::LogReading::one_field))]
fn one_of(name: &[u8]) -> Option<What>
    ensures { result ≡ one_field name.now }
{
    if is_word(name, b"FENCED") {
        return Some(What::Fenced);
    }
    if is_word(name, b"NOSPARE") {
        return Some(What::NoSpare);
    }
    if is_word(name, b"STOP") {
        return Some(What::Stop);
    }
    if is_word(name, b"RETURNED") {
        return Some(What::Returned);
    }
    None
}

// What happened, in two fields.
#[tactic(auto, unfolding(run_model::specs::LogReading::two_fields))]
fn two_of(name: &[u8], n: &[u8]) -> Option<What>
    ensures { result ≡ two_fields name.now n.now }
{
    if is_word(name, b"RETRY") {
        return Some(What::Retry(byte_of(n)?));
    }
    if is_word(name, b"UNCORRECTABLE") {
        return Some(What::Uncorrectable(byte_of(n)?));
    }
    if is_word(name, b"SPARED") {
        return Some(What::Spared(CoreNo(byte_of(n)?)));
    }
    None
}

// What happened, in three fields.
#[tactic(auto, unfolding(run_model::specs::LogReading::three_fields))]
fn three_of(name: &[u8], a: &[u8], b: &[u8]) -> Option<What>
    ensures { result ≡ three_fields name.now a.now b.now }
{
    if is_word(name, b"FAIL") {
        return Some(What::Fail(cause_of(a)?, long_of(b)?));
    }
    if is_word(name, b"CORRECTED") {
        return Some(What::Corrected(byte_of(a)?, byte_of(b)?));
    }
    None
}

// The CPU of what happened; that of a returned core is written `-`.
#[tactic(auto, unfolding(run_model::specs::LogReading::cpu_in))]
fn cpu_of(what: What, field: &[u8]) -> Option<u8>
    ensures { result ≡ cpu_in what field.now }
{
    match what {
        What::Returned => {
            if is_word(field, b"-") {
                return Some(255);
            }
            None
        }
        _ => byte_of(field),
    }
}

fn entry_with(turn: &[u8], cpu: &[u8], core: &[u8], what: Option<What>) -> Option<Entry>
    ensures { result ≡ entry_by turn.now cpu.now core.now what }
{
    let what = what?;
    let turn = long_of(turn)?;
    let cpu = CpuNo(cpu_of(what, cpu)?);
    let core = CoreNo(byte_of(core)?);
    Some(Entry {
        turn,
        cpu,
        core,
        what,
    })
}

fn entry_of_fields(text: &[u8]) -> Option<Entry>
    ensures { result ≡ entry_by_fields (fields text.now) }
{
    match parted(text) {
        Parts::Four(turn, cpu, core, name) => entry_with(turn, cpu, core, one_of(name)),
        Parts::Five(turn, cpu, core, name, a) => entry_with(turn, cpu, core, two_of(name, a)),
        Parts::Six(turn, cpu, core, name, a, b) => {
            entry_with(turn, cpu, core, three_of(name, a, b))
        }
        Parts::Other => None,
    }
}

/// The entry of a line without its line feed.
#[tactic(auto, unfolding(run_model::specs::LogReading::entry_in))]
pub fn entry_of(text: &[u8]) -> Option<Entry>
    ensures { result ≡ entry_in text.now }
{
    entry_of_fields(text)
}

/// A line without the line feed that ends it.
#[tactic(auto, unfolding(run_model::specs::LogReading::content))]
pub fn content(line: &[u8]) -> Option<&[u8]>
    ensures { content_of result ≡ content_text line.now }
{
    let end = line.len().checked_sub(1)?;
    if line[end] != b'\n' {
        return None;
    }
    Some(&line[..end])
}

/// The entry of a line of version 2, or BadLine exactly where the line is no entry.
#[tactic(auto, unfolding(run_model::specs::LogReading::read_entry))]
pub fn read(line: &[u8]) -> Result<Entry, LogRefusal>
    ensures { result ≡ ok_or (read_entry line.now) BadLine }
{
    let Some(text) = content(line) else {
        return Err(LogRefusal::BadLine);
    };
    match entry_of(text) {
        Some(entry) => Ok(entry),
        None => Err(LogRefusal::BadLine),
    }
}
