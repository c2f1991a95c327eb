//! The different external names of a source, which are found by a map.
ghost use Rattle.std.specs.Prelude.{◌≡◌, ℕ, ◌==◌, if◌then◌else◌, [], length, Some, None, IfOk, OnOk};
ghost use Rattle.std.specs.BTreeMap.{get};
ghost use Rattle.std.specs.Ordering.{nat_cmp};
ghost use Rattle.asm_model.specs.Places.{with_new};
ghost use Rattle.asm_model.specs.Program.{place_in};
ghost use Rattle.asm_places.specs.Named.{or_then};

use std::alloc::{AllocError, Global};
use std::collections::BTreeMap;
use std::marker::Model;

/// Different names, in the order in which they came, as contracts see it.
#[derive(Drop)]
pub struct Externals {
    list: Vec<u64>,
    places: BTreeMap<u64, usize>,
}

impl Model for Externals {
    ghost use Rattle.std.specs.Prelude.{ℕ, List};
    ghost use Rattle.std.specs.Ordering.{nat_cmp};
    ghost use Rattle.std.specs.BTreeMap.{get};
    ghost use Rattle.asm_places.specs.Named.{AreNumbered};

    ghost Value = { List ℕ };

    ghost view = { λ e. e.list.items };

    ghost invariant = { λ e. AreNumbered e.list.items (get nat_cmp e.places) };
}

// Keeps the place of a name that the map has not.
fn add_place(places: &mut BTreeMap<u64, usize>, name: u64, place: usize) -> Result<(), AllocError>
    ensures { OnOk result ((q : ℕ) → get nat_cmp places.new q
        ≡ or_then (get nat_cmp places.old q) (if name == q then Some place else None)) }
{
    if places.contains_key(&name) {
        return Ok(());
    }
    places.insert(name, place)?;
    Ok(())
}

impl Externals {
    /// No names.
    pub fn new(alloc: Global) -> Externals
        ensures { result ≡ [] }
    {
        Externals {
            list: Vec::new(alloc),
            places: BTreeMap::new(alloc),
        }
    }

    /// How many names there are.
    pub fn count(&self) -> usize
        ensures { result ≡ length self.now }
    {
        self.list.len()
    }

    /// The place of a name, from 0; past the end where it is none of them.
    pub fn place_in(&self, name: u64) -> usize
        ensures { result ≡ place_in name self.now }
    {
        match self.places.get(&name) {
            Some(place) => *place,
            None => self.list.len(),
        }
    }

    /// With a name, unless it is there.
    pub fn with_new(mut self, name: u64) -> Result<Externals, AllocError>
        ensures { IfOk result (λ externals. externals ≡ with_new name self) }
    {
        if self.places.contains_key(&name) {
            return Ok(self);
        }
        add_place(&mut self.places, name, self.list.len())?;
        self.list.push(name)?;
        Ok(self)
    }

    /// The names.
    pub fn into_list(self) -> Vec<u64>
        ensures { result.items ≡ self }
    {
        let Externals { list, places: _ } = self;
        list
    }
}
