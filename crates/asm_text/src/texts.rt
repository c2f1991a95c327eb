// The text of an instruction.
#![tactic(auto)]

ghost use Rattle.std.specs.Prelude.{◌≡◌, ◌+◌, ◌<◌, ◌≤◌, ◌==◌, ◌++◌, length, position, IfSome};
ghost use Rattle.arrayvec.specs.ArrayVec.{array_vec_len};
ghost use Rattle.run_model.specs.Numbers.{decimal as decimal_digits};
ghost use Rattle.esa_model.specs.Table.{row_numbered};
ghost use Rattle.esa_table.specs.Encoding.{IsInstruction};
ghost use Rattle.asm_text.specs.declared.operands.Operand.TheVariants as kinds;
ghost use Rattle.asm_text.specs.Operands.{width, whole_width};
ghost use Rattle.asm_text.specs.Text.{mnemonic_of, operand_text, operands_text, text_of};

use crate::operands::{Operand, Operands, operands_by};
use arrayvec::ArrayVec;
use esa_model::instructions::{Decoded, Row};
use esa_table::row;
use esa_words::decimal;

/// Adds bytes to a text that has room for them.
pub(crate) fn put<const N: usize>(out: &mut ArrayVec<u8, N>, bytes: &[u8])
    requires { array_vec_len out.old + length bytes.now ≤ N }
    ensures { out.new.items ≡ out.old.items ++ bytes.now }
{
    let _ = out.try_extend_from_slice(bytes);
}

/// A number of up to five digits.
#[tactic(auto, using(crate::proofs::Lengths::five_digits))]
fn five_digits(n: u16) -> ArrayVec<u8, 20>
    ensures text { result.items ≡ decimal_digits n }
    ensures room { array_vec_len result ≤ 5 }
{
    decimal(u64::from(n))
}

/// A number of up to three digits.
#[tactic(auto, using(crate::proofs::Lengths::three_digits))]
fn three_digits(n: u8) -> ArrayVec<u8, 20>
    ensures text { result.items ≡ decimal_digits n }
    ensures room { array_vec_len result ≤ 3 }
{
    decimal(u64::from(n))
}

fn put_number(out: &mut ArrayVec<u8, 40>, n: u16)
    requires { array_vec_len out.old + 5 ≤ 40 }
    ensures text { out.new.items ≡ out.old.items ++ decimal_digits n }
    ensures room { array_vec_len out.new ≤ array_vec_len out.old + 5 }
{
    put(out, &five_digits(n));
}

fn put_small(out: &mut ArrayVec<u8, 40>, n: u8)
    requires { array_vec_len out.old + 3 ≤ 40 }
    ensures text { out.new.items ≡ out.old.items ++ decimal_digits n }
    ensures room { array_vec_len out.new ≤ array_vec_len out.old + 3 }
{
    put(out, &three_digits(n));
}

fn put_based(out: &mut ArrayVec<u8, 40>, d: u16, b: u8)
    requires { array_vec_len out.old + 10 ≤ 40 }
    ensures text { out.new.items ≡ out.old.items ++ operand_text (kinds.Based d b) }
    ensures room { array_vec_len out.new ≤ array_vec_len out.old + 10 }
{
    put_number(out, d);
    put(out, b"(");
    put_small(out, b);
    put(out, b")");
}

fn put_indexed(out: &mut ArrayVec<u8, 40>, d: u16, x: u16, b: u8)
    requires { array_vec_len out.old + 16 ≤ 40 }
    ensures text { out.new.items ≡ out.old.items ++ operand_text (kinds.Indexed d x b) }
    ensures room { array_vec_len out.new ≤ array_vec_len out.old + 16 }
{
    put_number(out, d);
    put(out, b"(");
    put_number(out, x);
    put(out, b",");
    put_small(out, b);
    put(out, b")");
}

fn put_operand(out: &mut ArrayVec<u8, 40>, operand: Operand)
    requires { array_vec_len out.old + width operand ≤ 40 }
    ensures text { out.new.items ≡ out.old.items ++ operand_text operand }
    ensures room { array_vec_len out.new ≤ array_vec_len out.old + width operand }
{
    match operand {
        Operand::Number(n) => put_number(out, n),
        Operand::Minus(n) => {
            put(out, b"-");
            put_number(out, n);
        }
        Operand::Based(d, b) => put_based(out, d, b),
        Operand::Indexed(d, x, b) => put_indexed(out, d, x, b),
    }
}

fn put_operands(out: &mut ArrayVec<u8, 40>, operands: Operands)
    requires { array_vec_len out.old + whole_width operands ≤ 40 }
    ensures { out.new.items ≡ out.old.items ++ operands_text operands }
{
    match operands {
        Operands::One(a) => put_operand(out, a),
        Operands::Two(a, b) => {
            put_operand(out, a);
            put(out, b",");
            put_operand(out, b);
        }
        Operands::Three(a, b, c) => {
            put_operand(out, a);
            put(out, b",");
            put_operand(out, b);
            put(out, b",");
            put_operand(out, c);
        }
    }
}

/// Where the first blank of a name stands.
fn first_blank(name: &[u8]) -> Option<usize>
    ensures place { result ≡ position (λ b. b == 32) name.now }
    ensures inside { IfSome result (λ n. n < length name.now) }
{
    name.iter().position(|b| *b == 32)
}

/// A name of the table without the blanks that fill it up.
fn mnemonic(name: &[u8; 6]) -> &[u8]
    ensures text { result.now ≡ mnemonic_of name.now }
    ensures room { length result.now ≤ 6 }
{
    match first_blank(name) {
        Some(end) => &name[..end],
        None => name,
    }
}

/// The row of an instruction of the table.
#[tactic(auto, using(crate::proofs::Rows::row_is))]
fn row_of(d: &Decoded) -> Row
    requires { d.now.row < 134 }
    ensures { result ≡ row_numbered d.now.row }
{
    match row(d.row) {
        Some(row) => row,
        None => unreachable!(),
    }
}

/// The statement of an instruction: its name, a blank, and its operands with commas between them.
/// Numbers are decimal; an address is `d(x,b)` in form RX and `d(b)` elsewhere, and `d(l,b)` where
/// it has a length, l being the number of bytes.
#[tactic(auto, unfolding(crate::specs::Text::text_of))]
pub fn text(d: &Decoded) -> ArrayVec<u8, 40>
    requires { IsInstruction d.now }
    ensures { result.items ≡ text_of d.now }
{
    let row = row_of(d);
    let mut out = ArrayVec::new();
    put(&mut out, mnemonic(&row.name));
    put(&mut out, b" ");
    put_operands(&mut out, operands_by(row.form, row.opcode, d));
    out
}
