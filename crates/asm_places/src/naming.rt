//! The names of a source, which are found by a map.
ghost use Rattle.std.specs.Prelude.{◌≡◌, ℕ, ◌<◌, ◌==◌, if◌then◌else◌, ◌++◌, [], ◌∷◌, Some, None, IfOk, OnOk};
ghost use Rattle.std.specs.BTreeMap.{get};
ghost use Rattle.std.specs.List.{list_any};
ghost use Rattle.std.specs.Ordering.{nat_cmp};
ghost use Rattle.asm_model.specs.Refused.{has_name, place_of};
ghost use Rattle.asm_places.specs.Named.{or_else};

use asm_model::program::Defined;
use std::alloc::{AllocError, Global};
use std::collections::BTreeMap;
use std::marker::Model;

/// Names with their places, in the order of their lines, as contracts see it.
#[derive(Drop)]
pub struct Names {
    list: Vec<Defined>,
    // the first of each name
    first: BTreeMap<u64, Defined>,
}

impl Model for Names {
    ghost use Rattle.std.specs.Prelude.{List};
    ghost use Rattle.std.specs.Ordering.{nat_cmp};
    ghost use Rattle.std.specs.BTreeMap.{get};
    ghost use Rattle.asm_model.specs.declared.program.Defined.{Defined as DefinedName};
    ghost use Rattle.asm_places.specs.Named.{AreNamed};

    ghost Value = { List DefinedName };

    ghost view = { λ n. n.list.items };

    ghost invariant = { λ n. AreNamed n.list.items (get nat_cmp n.first) };
}

// What no line defines, in section 0.
fn nowhere() -> Defined
    ensures { result ≡ record { name = 0; section = 0; offset = 0 } }
{
    Defined {
        name: 0,
        section: 0,
        offset: 0,
    }
}

// Keeps a name that the map has not.
fn add_first(first: &mut BTreeMap<u64, Defined>, d: Defined) -> Result<(), AllocError>
    ensures { OnOk result ((q : ℕ) → get nat_cmp first.new q
        ≡ or_else (get nat_cmp first.old q) (if d.name == q then Some d else None)) }
{
    if first.contains_key(&d.name) {
        return Ok(());
    }
    first.insert(d.name, d)?;
    Ok(())
}

impl Names {
    /// No names.
    pub fn new(alloc: Global) -> Names
        ensures { result ≡ [] }
    {
        Names {
            list: Vec::new(alloc),
            first: BTreeMap::new(alloc),
        }
    }

    /// Whether a line defines the name.
    pub fn has(&self, name: u64) -> bool
        ensures { result ≡ list_any (has_name name) self.now }
    {
        self.first.contains_key(&name)
    }

    /// Where a name lies first; in section 0 at 0 where no line defines it.
    pub fn place_of(&self, name: u64) -> Defined
        ensures place { result ≡ place_of self.now name }
        ensures low { result.offset < 4294967296 }
    {
        match self.first.get(&name) {
            Some(d) => *d,
            None => nowhere(),
        }
    }

    /// One name more.
    pub fn with(mut self, d: Defined) -> Result<Names, AllocError>
        requires { d.offset < 4294967296 }
        ensures { IfOk result (λ names. names ≡ self ++ d ∷ []) }
    {
        add_first(&mut self.first, d)?;
        self.list.push(d)?;
        Ok(self)
    }
}
