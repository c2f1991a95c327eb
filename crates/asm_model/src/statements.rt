use crate::operands::Given;
use arrayvec::ArrayVec;

/// An operation: one of the assembler, or a machine instruction by the number of its row in the
/// opcode table.
#[derive(Clone, Copy, Debug, PartialEq, Eq)]
pub enum Mnemonic {
    Csect,
    Dc,
    Ds,
    Using,
    End,
    Machine(u16),
}

/// What a statement asks for. A name is the number of its eight EBCDIC bytes.
#[derive(Debug, Drop, PartialEq)]
pub enum Operation {
    /// `CSECT`.
    Section,
    /// `DC X'..'`.
    Bytes(ArrayVec<u8, 56>),
    /// `DC F'n'`, as a word of two's complement.
    Word(u32),
    /// `DC A(name)` and `DC A(name+n)`.
    Address(u64, u32),
    /// `DC V(name)`.
    External(u64),
    /// `DS n`.
    Space(u16),
    /// `DS 0F`.
    AlignWord,
    /// `DS 0D`.
    AlignDouble,
    /// `USING name,r`.
    Using(u64, u64),
    /// `END` and `END name`.
    End(Option<u64>),
    /// A machine instruction.
    Instruction(Given),
}

/// A statement with its name, if it has one.
#[derive(Debug, Drop, PartialEq)]
pub struct Statement {
    pub name: Option<u64>,
    pub operation: Operation,
}

/// What a line says.
#[derive(Debug, Drop, PartialEq)]
pub enum Line {
    /// It is not of a form.
    Broken,
    /// Its operation is unknown.
    Unknown,
    Said(Statement),
}

/// A line that is not passed over, with its number from 1.
#[derive(Debug, Drop, PartialEq)]
pub struct Source {
    pub number: u32,
    pub line: Line,
}
