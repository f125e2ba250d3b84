//! Where the monomials of a scope stand in its space.
//!
//! Counts that exceed a machine word stay at its greatest number: no list of coefficients is so long, so they are then
//! missing.

ghost use Rattle.std.specs.Prelude.{ℕ, ◌≡◌, ◌<◌, List, IfOk, suc, length};
ghost use Rattle.wh_types.specs.Erase.{ty, tys};
ghost use Rattle.wh_types.specs.Ty.{Ty};
ghost use Rattle.wh_hopoly.specs.Evaluation.{type_at};
ghost use Rattle.wh_poly_space.specs.Space.{functional_variables, is_sort, sort_variables};
ghost use Rattle.wh_poly_space.specs.Spots.{ArePlaces, IsPlace, IsSpotBelow, IsUpTo, IsWalk, place};

use crate::space::{Spot, is_sort};
use crate::spots::variables_of;
use std::alloc::{AllocError, Global};
use wh_types::SimpleType;

/// Where the monomials of a variable stand.
#[derive(Clone, Copy)]
pub struct Place {
    /// The place of the variable alone.
    pub alone: usize,
    /// For a functional variable, where its row of products begins; for a variable of a sort, where it stands in each
    /// row.
    pub row: usize,
}

/// What is counted on the way through a scope.
#[derive(Clone, Copy)]
pub struct Walk {
    /// The variables of a sort so far.
    pub sorts: usize,
    /// The place of the next functional variable.
    pub functional: usize,
    /// The place of the next row of products.
    pub row: usize,
}

/// The places of all variables.
pub fn places_of(alloc: Global, scope: &[SimpleType]) -> Result<Vec<Place>, AllocError>
    ensures { IfOk result (λ places. ArePlaces (tys scope.now) places.items) }
{
    let variables = variables_of(alloc, scope)?;
    let sorts = variables.sorts.len();
    let mut walk = first_walk(sorts, variables.functional.len());
    let mut places = Vec::new(alloc);
    for kind in scope {
        places.push(place_here(walk, is_sort(kind)))?;
        walk = next_walk(walk, sorts, is_sort(kind));
    }
    Ok(places)
}

// The start of the walk through a scope with `sorts` variables of a sort and `functional` functional ones.
fn first_walk(sorts: usize, functional: usize) -> Walk
    ensures { (Γ : List Ty) → sorts ≡ length (sort_variables Γ) → functional ≡ length (functional_variables Γ) → IsWalk Γ 0 result }
{
    let first = sorts.saturating_add(1);
    Walk {
        sorts: 0,
        functional: first,
        row: first.saturating_add(functional),
    }
}

// The places of the variable that comes next.
fn place_here(walk: Walk, of_sort: bool) -> Place
    ensures { (Γ : List Ty) (x : ℕ) → is_sort (type_at Γ x) ≡ of_sort → IsWalk Γ x walk → IsPlace Γ x result }
{
    if of_sort {
        Place {
            alone: walk.sorts.saturating_add(1),
            row: walk.sorts,
        }
    } else {
        Place {
            alone: walk.functional,
            row: walk.row,
        }
    }
}

// What is counted behind it.
fn next_walk(walk: Walk, sorts: usize, of_sort: bool) -> Walk
    ensures { (Γ : List Ty) (x : ℕ) → x < length Γ → is_sort (type_at Γ x) ≡ of_sort → sorts ≡ length (sort_variables Γ)
        → IsWalk Γ x walk → IsWalk Γ (suc x) result }
{
    if of_sort {
        Walk {
            sorts: walk.sorts.saturating_add(1),
            functional: walk.functional,
            row: walk.row,
        }
    } else {
        Walk {
            sorts: walk.sorts,
            functional: walk.functional.saturating_add(1),
            row: walk.row.saturating_add(sorts),
        }
    }
}

/// Where the monomial of the spot stands.
pub fn place_of(places: &[Place], spot: Spot) -> usize
    requires { IsSpotBelow (length places.now) spot }
    ensures { (Γ : List Ty) → ArePlaces Γ places.now → IsUpTo (place Γ spot) result }
{
    match spot {
        Spot::Constant => 0,
        Spot::One(x) => places[x].alone,
        Spot::Two(x, y) => places[x].row.saturating_add(places[y].row),
    }
}
