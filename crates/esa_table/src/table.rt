//! A table of rows, and the numbers of its rows.

ghost use Rattle.std.specs.Prelude.{◌≡◌, ◌≤◌, ◌<◌, ◌^◌, length, slice_get, IfSome, IfNone, IsTrue};
ghost use Rattle.std.specs.Prelude.{Some, None};
ghost use Rattle.esa_table.specs.Encoding.{fits, HasLine, IsInRange, IsInstruction};
ghost use Rattle.esa_model.specs.Table.{decoded, opcode_of, row_of, row_numbered, rows, row_at};
ghost use Rattle.esa_model.specs.Table.{fields_of, kinds, kind_at, kind_numbered};
ghost use Rattle.esa_table.specs.Search.{decoded_in, number_in, row_in};

use crate::fields::{fields_by, opcode_by};
use crate::rows::{KINDS, ROWS};
use esa_model::instructions::{Decoded, Row};
use esa_model::kinds::Kind;

/// `N` rows; the number of a row is its place, from 0.
#[derive(Clone, Copy)]
pub struct Table<const N: usize> {
    pub rows: &'static [Row; N],
}

/// What is made of the number of the row that has an opcode; None where no row has it.
macro_rules! search {
    ($rows:expr, $opcode:expr, $number:ident => $found:expr) => {
        match place_of($rows, $opcode) {
            Some($number) => Some($found),
            None => None,
        }
    };
}

impl<const N: usize> Table<N> {
    /// The instruction that the bytes begin with, by these rows; None exactly where no row has its
    /// opcode.
    pub fn decode(&self, bytes: &[u8; 6]) -> Option<Decoded>
        requires { N ≤ 2 ^ 16 }
        ensures { result ≡ decoded_in self.now.rows.now bytes.now }
    {
        let rows = self.rows;
        let opcode = opcode_by(bytes);
        search!(rows, opcode, number => fields_at_place(rows, number, bytes))
    }
}

/// The place of the first row with an opcode.
#[tactic(auto, unfolding(crate::specs::Search::number_in))]
fn place_of(rows: &[Row], opcode: u16) -> Option<usize>
    ensures place { result ≡ number_in rows.now opcode }
    ensures inside { IfSome result (λ n. n < length rows.now) }
{
    rows.iter().position(|row| row.opcode == opcode)
}

/// The fields of an instruction, by the form of the row at a place.
fn fields_at_place(rows: &[Row], number: usize, bytes: &[u8; 6]) -> Decoded
    requires few { length rows.now ≤ 2 ^ 16 }
    requires inside { number < length rows.now }
    ensures { result ≡ fields_of (row_in rows.now number).form number bytes.now }
{
    fields_by(rows[number].form, number as u16, bytes)
}

/// All rows.
pub(crate) fn all_rows() -> Table<134>
    ensures { result.rows.now ≡ rows }
{
    Table { rows: &ROWS }
}

fn row_among(rows: &[Row], number: u16) -> Option<Row>
    ensures { result ≡ slice_get rows.now number }
{
    rows.get(number as usize).copied()
}

/// The row of a number; None exactly where the table has none.
#[tactic(auto, unfolding(esa_model::specs::Table::row_at))]
pub fn row(number: u16) -> Option<Row>
    ensures { result ≡ row_at number }
{
    let rows = all_rows().rows;
    row_among(rows, number)
}

/// The kinds of all rows.
fn all_kinds() -> &'static [Kind]
    ensures { result.now ≡ kinds }
{
    &KINDS
}

/// How the row of a number is carried out; None exactly where the table has none.
#[tactic(auto, unfolding(esa_model::specs::Table::kind_at))]
pub fn kind(number: u16) -> Option<Kind>
    ensures { result ≡ kind_at number }
{
    kind_among(all_kinds(), number)
}

fn kind_among(kinds: &[Kind], number: u16) -> Option<Kind>
    ensures { result ≡ slice_get kinds.now number }
{
    kinds.get(number as usize).copied()
}

/// The instruction that the bytes begin with; None exactly where no row has its opcode.
#[tactic(auto, using(crate::proofs::Known::decoded_is, crate::proofs::Found::is_absent))]
pub fn decode(bytes: &[u8; 6]) -> Option<Decoded>
    ensures value { result ≡ decoded bytes.now }
    ensures none { IfNone result (row_of (opcode_of bytes.now) ≡ None) }
    ensures row { IfSome result (λ d. row_of (opcode_of bytes.now) ≡ Some (row_numbered d.row)) }
    ensures number { IfSome result (λ d. row_at d.row ≡ Some (row_numbered d.row)) }
    ensures instruction { IfSome result IsInstruction }
    ensures range { IfSome result IsInRange }
    ensures kind { IfSome result (λ d. kind_at d.row ≡ Some (kind_numbered d.row)) }
    ensures known { IfSome result HasLine }
{
    all_rows().decode(bytes)
}

fn row_inside(rows: &[Row], number: u16) -> Row
    requires { number < length rows.now }
    ensures { result ≡ row_in rows.now number }
{
    rows[number as usize]
}

/// The row of a number that the table has.
#[tactic(auto, using(crate::proofs::Known::fits_at), unfolding(esa_model::specs::Table::row_numbered))]
pub(crate) fn numbered_row(number: u16) -> Row
    requires { number < 134 }
    ensures row { result ≡ row_numbered number }
    ensures fits { IsTrue (fits result.form result.opcode) }
{
    let rows = all_rows().rows;
    row_inside(rows, number)
}
