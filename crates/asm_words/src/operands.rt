//! Operands.
ghost use Rattle.std.specs.Prelude.{◌≡◌, ◌-◌, ◌<◌, ◌==◌, true, [], ◌∷◌, length, slice_index};
ghost use Rattle.std.specs.List.{slice_split};
ghost use Rattle.run_model.specs.Numbers.{is_decimal as is_decimal_text};
ghost use Rattle.asm_model.specs.Pieces.{negative as negative_by, plain as plain_by};
ghost use Rattle.asm_model.specs.Pieces.{signed as signed_text, word, with_plus, simple};
ghost use Rattle.asm_model.specs.Pieces.{simple_operand as simple_text, operand_of as operand_text};
ghost use Rattle.asm_model.specs.Pieces.{based as based_by, indexed as indexed_by, is_comma};
ghost use Rattle.asm_model.specs.Pieces.{inner as inner_text, closed as closed_text};

use crate::cuts::{Parts, parted};
use crate::names::name_of;
use crate::numbers::{capped_decimal, number_of};
use asm_model::operands::Operand;
use esa_words::is_decimal;

#[tactic(auto, using(crate::proofs::Forms::none_at))]
fn starts_with(w: &[u8], b: u8) -> bool
    requires { 0 < b }
    ensures value { result ≡ (slice_index w.now 0 == b) }
    ensures some { result ≡ true → 0 < length w.now }
{
    if w.len() == 0 {
        return false;
    }
    w[0] == b
}

#[tactic(auto, using(crate::proofs::Forms::none_at))]
fn ends_with(w: &[u8], b: u8) -> bool
    requires { 0 < b }
    ensures value { result ≡ (slice_index w.now (length w.now - 1) == b) }
    ensures some { result ≡ true → 0 < length w.now }
{
    if w.len() == 0 {
        return false;
    }
    w[w.len() - 1] == b
}

// Only a decimal has a sign.
fn negative(w: &[u8]) -> Operand
    ensures { result ≡ negative_by (is_decimal_text w.now) w.now }
{
    if !is_decimal(w) {
        return Operand::Bad;
    }
    Operand::Negative(capped_decimal(w))
}

fn plain(n: Option<u64>) -> Operand
    ensures { result ≡ plain_by n }
{
    match n {
        Some(n) => Operand::Plain(n),
        None => Operand::Bad,
    }
}

/// A number that may have a sign.
pub fn signed(w: &[u8]) -> Operand
    ensures { result ≡ signed_text w.now }
{
    if starts_with(w, b'-') {
        return negative(w.split_at(1).1);
    }
    plain(number_of(w))
}

fn name_or_number(name: Option<u64>, w: &[u8]) -> Operand
    ensures { result ≡ word name w.now }
{
    match name {
        Some(name) => Operand::Named(name, 0),
        None => signed(w),
    }
}

fn one_word(w: &[u8]) -> Operand
    ensures { result ≡ simple (w.now ∷ []) }
{
    name_or_number(name_of(w), w)
}

fn sum(name: Option<u64>, n: Option<u64>) -> Operand
    ensures { result ≡ with_plus name n }
{
    match (name, n) {
        (Some(name), Some(n)) => {
            if n < 0x8000_0000 {
                Operand::Named(name, n as u32)
            } else {
                Operand::Bad
            }
        }
        (_, _) => Operand::Bad,
    }
}

fn two_words(name: &[u8], n: &[u8]) -> Operand
    ensures { result ≡ simple (name.now ∷ n.now ∷ []) }
{
    sum(name_of(name), number_of(n))
}

/// An operand without parentheses: a number, or a name with a number added.
pub fn simple_operand(w: &[u8]) -> Operand
    ensures { result ≡ simple_text w.now }
{
    match parted(w, b'+') {
        Parts::One(w) => one_word(w),
        Parts::Two(name, n) => two_words(name, n),
        Parts::Several => Operand::Bad,
    }
}

fn based(d: Option<u64>, b: Option<u64>) -> Operand
    ensures { result ≡ based_by d b }
{
    match (d, b) {
        (Some(d), Some(b)) => Operand::Based(d, b),
        (_, _) => Operand::Bad,
    }
}

fn indexed(d: Option<u64>, x: Option<u64>, b: Option<u64>) -> Operand
    ensures { result ≡ indexed_by d x b }
{
    match (d, x, b) {
        (Some(d), Some(x), Some(b)) => Operand::Indexed(d, x, b),
        (_, _, _) => Operand::Bad,
    }
}

fn one_inside(d: &[u8], b: &[u8]) -> Operand
    ensures { result ≡ inner_text d.now (b.now ∷ []) }
{
    based(number_of(d), number_of(b))
}

fn two_inside(d: &[u8], x: &[u8], b: &[u8]) -> Operand
    ensures { result ≡ inner_text d.now (x.now ∷ b.now ∷ []) }
{
    indexed(number_of(d), number_of(x), number_of(b))
}

fn inner(d: &[u8], inside: &[u8]) -> Operand
    ensures { result ≡ inner_text d.now (slice_split is_comma inside.now) }
{
    match parted(inside, b',') {
        Parts::One(b) => one_inside(d, b),
        Parts::Two(x, b) => two_inside(d, x, b),
        Parts::Several => Operand::Bad,
    }
}

// A displacement, and what follows its left parenthesis.
fn closed(d: &[u8], rest: &[u8]) -> Operand
    ensures { result ≡ closed_text d.now rest.now }
{
    if !ends_with(rest, b')') {
        return Operand::Bad;
    }
    inner(d, rest.split_at(rest.len() - 1).0)
}

/// An operand as it stands.
pub fn operand_of(piece: &[u8]) -> Operand
    ensures { result ≡ operand_text piece.now }
{
    match parted(piece, b'(') {
        Parts::One(w) => simple_operand(w),
        Parts::Two(d, rest) => closed(d, rest),
        Parts::Several => Operand::Bad,
    }
}
