// Where a number stands, or belongs, in a list that ascends.
ghost use Rattle.std.specs.Prelude.{◌≡◌, ◌≤◌, ◌==◌, length, nat_lt};
ghost use Rattle.std.specs.List.{list_any, position};
ghost use Rattle.sparing.specs.Pools.{place_above, place_with, stands};

use run_model::faults::{CoreNo, Numbered};

// Of the first that has a greater number.
fn first_above<S: Numbered>(list: &[S], number: CoreNo) -> Option<usize>
    ensures { result ≡ position (λ s. nat_lt number.0 (S.number_of s)) list.now }
{
    list.iter().position(|s| s.number().0 > number.0)
}

// Before the first of a greater number.
#[tactic(auto, unfolding(crate::specs::Pools::place_above), using(crate::proofs::First::place_is, crate::proofs::First::place_inside))]
pub fn place_for<S: Numbered>(list: &[S], number: CoreNo) -> usize
    ensures place { result ≡ place_above S.number_of number.0 list.now }
    ensures inside { result ≤ length list.now }
{
    first_above(list, number).unwrap_or(list.len())
}

// Of the first that has the number.
#[tactic(auto, unfolding(crate::specs::Pools::place_with))]
pub fn place_of<S: Numbered>(list: &[S], number: CoreNo) -> Option<usize>
    ensures { result ≡ place_with S.number_of number.0 list.now }
{
    list.iter().position(|s| s.number().0 == number.0)
}

fn any_has<S: Numbered>(list: &[S], number: CoreNo) -> bool
    ensures { result ≡ list_any (λ s. S.number_of s == number.0) list.now }
{
    list.iter().any(|s| s.number().0 == number.0)
}

// Whether one has the number.
pub fn is_among<S: Numbered>(list: &[S], number: CoreNo) -> bool
    ensures { result ≡ stands S.number_of list.now number.0 }
{
    any_has(list, number)
}
