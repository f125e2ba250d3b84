//! Places: the arguments of symbols, and whether they are accessible under ranks.

ghost use Rattle.std.specs.Prelude.{◌≡◌, ◌↔◌, ◌<◌, ◌^◌, IsTrue, MatchOption, Some, None, option_map, slice_get};
ghost use Rattle.wh_access.specs.Readings.{symbol_of};
ghost use Rattle.wh_step_laws.specs.Ranks.{IsAccessible, RanksBelow, rank_of};
ghost use Rattle.wh_terms.specs.Erase.{symbols, tm};
ghost use Rattle.wh_terms.specs.Measures.{nesting};
ghost use Rattle.wh_terms.specs.Tree.{argument_count, head};
ghost use Rattle.wh_types.specs.Erase.{ty};
ghost use Rattle.wh_types.specs.Ty.{arguments};

use wh_terms::{Signature, Term};
use wh_types::{Ranks, SimpleType};

/// An argument of a symbol, by its index from 0.
#[derive(Clone, Copy)]
pub struct Place {
    /// The symbol.
    pub symbol: u32,
    /// The index of the argument.
    pub index: u32,
}

/// The place of the argument that comes next behind the spine, if a symbol heads the spine.
pub fn place_after(spine: &Term) -> Option<Place>
    requires { nesting (tm spine.now) < 2 ^ 30 }
    ensures { MatchOption result (symbol_of (head (tm spine.now)) ≡ None)
        (λ p. (symbol_of (head (tm spine.now)) ≡ Some p.symbol) × (p.index ≡ argument_count (tm spine.now))) }
{
    let mut index = 0;
    let mut here = spine;
    while let Term::App(function, _) = here {
        index += 1;
        here = function;
    }
    match here {
        Term::Fun(symbol) => Some(Place {
            symbol: *symbol,
            index,
        }),
        _ => None,
    }
}

/// The type of the argument with that index, counted from 0; `None` where the type has fewer arguments.
pub fn argument_at(kind: &SimpleType, index: u32) -> Option<&SimpleType>
    ensures { option_map (λ r. ty r.now) result ≡ slice_get (arguments (ty kind.now)) index }
{
    let mut left = index;
    let mut here = kind;
    while let SimpleType::Arrow(first, rest) = here {
        if left == 0 {
            return Some(first);
        }
        left -= 1;
        here = rest;
    }
    None
}

/// Whether the place is accessible under the ranks.
pub fn is_accessible(signature: &Signature, ranks: &Ranks, place: Place) -> bool
    ensures { IsTrue result ↔ IsAccessible (symbols signature.now) (rank_of ranks.now) place.symbol place.index }
{
    let Some(kind) = signature.funs.as_slice().get(place.symbol as usize) else {
        return false;
    };
    let Some(argument) = argument_at(kind, place.index) else {
        return false;
    };
    let most = rank(ranks, kind.result_sort());
    match argument {
        SimpleType::Sort(sort) => rank(ranks, *sort) <= most,
        SimpleType::Arrow(..) => has_ranks_below(ranks, most, argument),
    }
}

// Whether each sort in the type has a rank below the limit.
fn has_ranks_below(ranks: &Ranks, limit: u32, kind: &SimpleType) -> bool
    ensures { IsTrue result ↔ RanksBelow (rank_of ranks.now) limit (ty kind.now) }
{
    match kind {
        SimpleType::Sort(sort) => rank(ranks, *sort) < limit,
        SimpleType::Arrow(argument, rest) => {
            has_ranks_below(ranks, limit, argument) && has_ranks_below(ranks, limit, rest)
        }
    }
}

// The rank of a sort; 0 where the ranks end before it.
fn rank(ranks: &Ranks, sort: u32) -> u32
    ensures { result ≡ rank_of ranks.now sort }
{
    if sort < ranks.count() {
        ranks.of(sort)
    } else {
        0
    }
}
