//! EDIT and EDIT AND MARK.

ghost use Rattle.std.specs.Prelude.{◌≡◌, ◌+◌, ◌<◌, ◌≤◌, ℕ, List, length, slice_index};
ghost use Rattle.esa_model.specs.Edit.{is_plus, digit_of, takes_digit, is_separator, after_digit, stepped, shown, start, state, replaced, answer, edited_pattern, SameUpTo};

use esa_model::codes::{DATA, STAYS};
use esa_model::decimals::{Edited, Editing, SourceDigit};

fn is_plus_sign(half: u8) -> bool
    ensures { result ≡ is_plus half }
{
    half == 10 || half == 12 || half == 14 || half == 15
}

#[tactic(auto, unfolding(esa_model::specs::Edit::digit_of))]
fn next_digit(source: &[u8], e: Editing) -> SourceDigit
    requires room { e.used < length source.now }
    requires few { e.used < 1000 }
    ensures value { result ≡ digit_of source.now e }
    ensures small { result.value < 16 }
    ensures used { result.used ≤ e.used + 1 }
{
    if e.halfway {
        let byte = source[usize::from(e.used.saturating_sub(1))];
        return SourceDigit {
            value: byte % 16,
            used: e.used,
            halfway: false,
            plus: false,
        };
    }
    let byte = source[usize::from(e.used)];
    let plus = is_plus_sign(byte % 16);
    SourceDigit {
        value: byte / 16,
        used: e.used + 1,
        halfway: byte % 16 < 10,
        plus,
    }
}

fn is_digit_place(p: u8) -> bool
    ensures { result ≡ takes_digit p }
{
    p == 0x20 || p == 0x21
}

fn is_field_separator(p: u8) -> bool
    ensures { result ≡ is_separator p }
{
    p == 0x22
}

fn with_digit(e: Editing, p: u8, d: SourceDigit) -> Editing
    requires { e.at < 1000 }
    ensures value { result ≡ after_digit e p d }
    ensures used { result.used ≡ d.used }
    ensures at { result.at ≤ e.at + 1 }
{
    if 9 < d.value {
        return Editing {
            used: d.used,
            bad: true,
            ..e
        };
    }
    let zero = d.value == 0;
    Editing {
        at: e.at + 1,
        used: d.used,
        halfway: d.halfway,
        significant: (e.significant || !zero || p == 0x21) && !d.plus,
        nonzero: e.nonzero || !zero,
        mark: if !e.significant && !zero {
            Some(e.at)
        } else {
            e.mark
        },
        bad: false,
    }
}

#[tactic(auto, unfolding(esa_model::specs::Edit::stepped))]
fn step(source: &[u8], e: Editing, p: u8) -> Editing
    requires room { e.used < length source.now }
    requires few { e.used < 1000 }
    requires at { e.at < 1000 }
    ensures value { result ≡ stepped source.now e p }
    ensures used { result.used ≤ e.used + 1 }
    ensures at { result.at ≤ e.at + 1 }
{
    if e.bad {
        return e;
    }
    if is_digit_place(p) {
        return with_digit(e, p, next_digit(source, e));
    }
    if is_field_separator(p) {
        return Editing {
            at: e.at + 1,
            significant: false,
            nonzero: false,
            ..e
        };
    }
    Editing { at: e.at + 1, ..e }
}

#[tactic(auto, unfolding(esa_model::specs::Edit::shown))]
fn byte_at(source: &[u8], fill: u8, e: Editing, p: u8) -> u8
    requires room { e.used < length source.now }
    requires few { e.used < 1000 }
    ensures { result ≡ shown source.now fill e p }
{
    if is_digit_place(p) {
        let d = next_digit(source, e);
        if e.significant || d.value != 0 {
            0xF0 + d.value
        } else {
            fill
        }
    } else if is_field_separator(p) || !e.significant {
        fill
    } else {
        p
    }
}

fn at_start() -> Editing
    ensures { result ≡ start }
{
    Editing {
        at: 0,
        used: 0,
        halfway: false,
        significant: false,
        nonzero: false,
        mark: None,
        bad: false,
    }
}

fn state_after(pattern: &[u8], source: &[u8]) -> Editing
    requires few { length pattern.now ≤ 256 }
    requires enough { length pattern.now ≤ length source.now }
    ensures { result ≡ state source.now pattern.now }
{
    let mut e = at_start();
    for p in pattern {
        e = step(source, e, *p);
    }
    e
}

#[tactic(auto, unfolding(esa_model::specs::Edit::answer))]
fn answer_of(e: Editing) -> Edited
    ensures { result ≡ answer e }
{
    if e.bad {
        return Edited {
            used: e.used,
            mark: None,
            cc: STAYS,
            fault: DATA,
        };
    }
    Edited {
        used: e.used,
        mark: e.mark,
        cc: if !e.nonzero {
            0
        } else if e.significant {
            1
        } else {
            2
        },
        fault: 0,
    }
}

/// Replaces each pattern byte; the first one is the fill byte.
fn write(pattern: &mut [u8], source: &[u8])
    requires some { 1 ≤ length pattern.old }
    requires few { length pattern.old ≤ 256 }
    requires enough { length pattern.old ≤ length source.now }
    ensures { pattern.new ≡ replaced source.now (slice_index pattern.old 0) start pattern.old }
{
    let fill = pattern[0];
    let mut e = at_start();
    for i in 0..pattern.len() {
        let p = pattern[i];
        pattern[i] = byte_at(source, fill, e, p);
        e = step(source, e, p);
    }
}

/// A bad digit leaves the pattern.
#[tactic(auto, unfolding(esa_model::specs::Edit::edited_pattern))]
fn edit_all(pattern: &mut [u8], source: &[u8]) -> Edited
    requires some { 1 ≤ length pattern.old }
    requires few { length pattern.old ≤ 256 }
    requires enough { length pattern.old ≤ length source.now }
    ensures answer { result ≡ answer (state source.now pattern.old) }
    ensures pattern { pattern.new ≡ edited_pattern source.now pattern.old }
{
    let last = state_after(pattern, source);
    if !last.bad {
        write(pattern, source);
    }
    answer_of(last)
}

/// Edits the digits of `source`, which has as many bytes as the pattern or more, into a pattern of
/// 1 to 256 bytes (Principles of Operation, EDIT and EDIT AND MARK). A bad digit, a data exception,
/// leaves the pattern. The source bytes from number `used` on do not matter.
pub fn edit(pattern: &mut [u8], source: &[u8]) -> Edited
    requires some { 1 ≤ length pattern.old }
    requires few { length pattern.old ≤ 256 }
    requires enough { length pattern.old ≤ length source.now }
    ensures answer { result ≡ answer (state source.now pattern.old) }
    ensures pattern { pattern.new ≡ edited_pattern source.now pattern.old }
    ensures used { (other : List ℕ) → SameUpTo result.used source.now other
        → (answer (state other pattern.old) ≡ result)
        × (edited_pattern other pattern.old ≡ pattern.new) }
{
    edit_all(pattern, source)
}
