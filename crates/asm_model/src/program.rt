ghost use Rattle.asm_model.specs.Section.{SectionBytes};

use std::marker::Model;

/// A name with its section, from 1, and its offset there. Names are numbers of eight EBCDIC bytes.
#[derive(Clone, Copy, Debug, PartialEq, Eq)]
pub struct Defined {
    pub name: u64,
    pub section: u32,
    pub offset: u64,
}

/// The base of addresses that are names: the name of USING and its register.
#[derive(Clone, Copy, Debug, PartialEq, Eq)]
pub struct Base {
    pub name: u64,
    pub register: u64,
}

/// An address word: the section where it lies, its offset there, and the ESDID of the section or
/// external name whose load address is added to it.
#[derive(Clone, Copy, Debug, PartialEq, Eq)]
pub struct Constant {
    pub section: u32,
    pub offset: u64,
    pub target: u32,
    pub external: bool,
}

/// A section with its name and its bytes.
#[derive(Drop)]
pub struct Section {
    pub name: u64,
    pub bytes: Vec<u8>,
}

impl Model for Section {
    ghost Value = { SectionBytes };

    ghost view = { λ s. record { name = s.name; bytes = s.bytes.items } };
}
