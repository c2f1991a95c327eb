// A pool: each core in it is a spare or is fenced.
ghost use Rattle.std.specs.Prelude.{◌≡◌, ◌<◌, ◌≤◌, [], ◌∷◌, IfOk, MatchOption};
ghost use Rattle.std.specs.Vec.{vec_capacity};
ghost use Rattle.std.specs.Option.{option_map};
ghost use Rattle.sparing.specs.Pools.{Absent, Apart, Ascends, TakenOut, holds, lowest_number, put, stands};

use crate::places::{is_among, place_for, place_of};
use esa_model::memory::NoMemory;
use run_model::faults::{CoreNo, Numbered};
use std::alloc::Global;
use std::marker::Model;

/// Spare and fenced cores, at most 16 of each.
#[derive(Drop)]
pub struct Pool<S: Numbered, F: Numbered> {
    spares: Vec<S>,
    fenced: Vec<F>,
}

impl<S: Numbered, F: Numbered> Model for Pool<S, F> {
    ghost use Rattle.std.specs.Prelude.{◌≤◌};
    ghost use Rattle.std.specs.Vec.{vec_capacity};
    ghost use Rattle.sparing.specs.Pools.{Apart, Ascends, Pooled};

    ghost Value = { Pooled S F };

    ghost view = { λ p. record { spares = p.spares.items; fenced = p.fenced.items } };

    ghost invariant = { λ p. Ascends S.number_of 0 p.spares.items
        × Ascends F.number_of 0 p.fenced.items
        × Apart S.number_of F.number_of p.spares.items p.fenced.items
        × (16 ≤ vec_capacity p.spares) × (16 ≤ vec_capacity p.fenced) };
}

// One more in its place. There is room, since the numbers ascend and are below 16.
#[tactic(auto, using(crate::proofs::Puts::put_there, crate::proofs::Puts::ascends_put, crate::proofs::Puts::room_for))]
fn put_in<S: Numbered>(list: &mut Vec<S>, s: S)
    requires small { S.number_of s < 16 }
    requires ascends { Ascends S.number_of 0 list.old.items }
    requires absent { holds S.number_of (S.number_of s) list.old.items ≡ 0 }
    requires room { 16 ≤ vec_capacity list.old }
    ensures put { list.new.items ≡ put S.number_of s list.old.items }
    ensures ascends { Ascends S.number_of 0 list.new.items }
    ensures room { 16 ≤ vec_capacity list.new }
{
    let at = place_for(list.as_slice(), s.number());
    match list.insert(at, s) {
        Ok(()) => {}
        Err(_) => {}
    }
}

// The one that has the number.
#[tactic(auto, using(crate::proofs::Taken::no_place, crate::proofs::Taken::taken_inside, crate::proofs::Taken::taken_out, crate::proofs::Taken::taken_ascends,))]
fn take_out<S: Numbered>(list: &mut Vec<S>, number: CoreNo) -> Option<S>
    requires ascends { Ascends S.number_of 0 list.old.items }
    requires room { 16 ≤ vec_capacity list.old }
    ensures taken { MatchOption result
        ((holds S.number_of number.0 list.old.items ≡ 0) × (list.new.items ≡ list.old.items))
        (λ s. TakenOut S.number_of number.0 s list.old.items list.new.items) }
    ensures ascends { Ascends S.number_of 0 list.new.items }
    ensures room { 16 ≤ vec_capacity list.new }
{
    let at = place_of(list.as_slice(), number)?;
    Some(list.remove(at))
}

impl<S: Numbered, F: Numbered> Pool<S, F> {
    /// An empty pool with the room for 16 spares and 16 fenced cores, so that no other call takes
    /// memory.
    ///
    /// # Errors
    /// `NoMemory` where that room is not to be had.
    #[tactic(auto, using(crate::proofs::Apart::apart_none))]
    pub fn new(alloc: Global) -> Result<Pool<S, F>, NoMemory>
        ensures { IfOk result (λ p. p ≡ record { spares = []; fenced = [] }) }
    {
        let spares = Vec::with_capacity(alloc, 16)?;
        let fenced = Vec::with_capacity(alloc, 16)?;
        Ok(Pool { spares, fenced })
    }

    /// No number stands in a pool twice.
    pub fn each_stands_once(&self)
        ensures { Apart S.number_of F.number_of self.now.spares self.now.fenced }
    {
        // What a pool keeps is known where one of its fields is named.
        let _ = &self.spares;
    }

    /// One more spare.
    #[tactic(auto, using(crate::proofs::Apart::apart_put))]
    pub fn add(&mut self, s: S)
        requires small { S.number_of s < 16 }
        requires absent { Absent S.number_of F.number_of (S.number_of s) self.old }
        ensures { self.new ≡ record self.old { spares = put S.number_of s self.old.spares } }
    {
        put_in(&mut self.spares, s);
    }

    /// A spare that was taken and not used is a spare again.
    pub fn put_back(&mut self, s: S)
        requires small { S.number_of s < 16 }
        requires absent { Absent S.number_of F.number_of (S.number_of s) self.old }
        ensures { self.new ≡ record self.old { spares = put S.number_of s self.old.spares } }
    {
        self.add(s);
    }

    /// A core is fenced.
    #[tactic(auto, using(crate::proofs::Apart::apart_fence))]
    pub fn fence(&mut self, f: F)
        requires small { F.number_of f < 16 }
        requires absent { Absent S.number_of F.number_of (F.number_of f) self.old }
        ensures { self.new ≡ record self.old { fenced = put F.number_of f self.old.fenced } }
    {
        put_in(&mut self.fenced, f);
    }

    /// The number of the spare that `take` would give; `None` where there is no spare.
    #[tactic(auto, using(crate::proofs::Lowest::lowest_of_none, crate::proofs::Lowest::lowest_of_some))]
    pub fn lowest(&self) -> Option<CoreNo>
        ensures { option_map (λ c. c.0) result ≡ lowest_number S.number_of self.now.spares }
    {
        match self.spares.as_slice() {
            [] => None,
            [spare, ..] => Some(spare.number()),
        }
    }

    /// Takes the spare of the lowest number; `None` where there is no spare.
    #[tactic(auto, using(crate::proofs::Taken::ascends_tail, crate::proofs::Taken::head_there, crate::proofs::Apart::apart_tail, crate::proofs::Lowest::lowest_of_none, crate::proofs::Lowest::lowest_of_some,))]
    pub fn take(&mut self) -> Option<S>
        ensures lowest { option_map S.number_of result
            ≡ lowest_number S.number_of self.old.spares }
        ensures taken { MatchOption result ((self.old.spares ≡ []) × (self.new ≡ self.old))
            (λ s. self.old ≡ record self.new { spares = s ∷ self.new.spares }) }
    {
        if self.spares.is_empty() {
            None
        } else {
            Some(self.spares.remove(0))
        }
    }

    /// Whether a core is fenced.
    pub fn is_fenced(&self, core: CoreNo) -> bool
        ensures { result ≡ stands F.number_of self.now.fenced core.0 }
    {
        is_among(self.fenced.as_slice(), core)
    }

    /// Takes a core out of the fenced ones; `None` where it is not among them.
    #[tactic(auto, using(crate::proofs::Apart::apart_taken))]
    pub fn bring_back(&mut self, core: CoreNo) -> Option<F>
        ensures { MatchOption result
            ((holds F.number_of core.0 self.old.fenced ≡ 0) × (self.new ≡ self.old))
            (λ f. (self.new.spares ≡ self.old.spares)
            × TakenOut F.number_of core.0 f self.old.fenced self.new.fenced) }
    {
        take_out(&mut self.fenced, core)
    }
}
