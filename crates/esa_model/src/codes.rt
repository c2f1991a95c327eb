//! Program codes of the machine, the condition code that stays, and the opcode of EXECUTE.
//! Source: Principles of Operation, chapter on interruptions (program).

pub const OPERATION: u8 = 1;

pub const PRIVILEGED: u8 = 2;

pub const EXECUTED: u8 = 3;

pub const PROTECTION: u8 = 4;

pub const ADDRESSING: u8 = 5;

pub const SPECIFICATION: u8 = 6;

pub const DATA: u8 = 7;

pub const FIXED_OVERFLOW: u8 = 8;

pub const FIXED_DIVIDE: u8 = 9;

pub const DECIMAL_OVERFLOW: u8 = 10;

pub const DECIMAL_DIVIDE: u8 = 11;

/// Written in place of a condition code where that stays what it is.
pub const STAYS: u8 = 4;

/// The opcode of EXECUTE, which is looked at before the table is.
pub const EXECUTE: u8 = 0x44;
