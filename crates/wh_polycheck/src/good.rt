//! Single moves: from a left monomial to a right one with the same variables, whose arguments are no greater.

ghost use Rattle.std.specs.Prelude.{ℕ, ◌≤◌, ◌^◌, ◌↔◌, List, IsTrue, MatchOption, length};
ghost use Rattle.wh_types.specs.Ty.{Ty};
ghost use Rattle.wh_poly.specs.Polynomials.{NormalFactors, NormalArguments};
ghost use Rattle.wh_poly.specs.Erase.{atoms, polys, sum_of};
ghost use Rattle.wh_hopoly.specs.Erase.{transfer, transfers};
ghost use Rattle.wh_hopoly.specs.Moves.{ArgumentsAtLeast, FactorsAtLeast, Good};
ghost use Rattle.wh_polycheck.specs.CoverFaults.{AreGood, IsFirstBad, IsNormal};

use wh_hopoly::{Move, at_least};
use wh_poly::{Atoms, Monomial, Polys};

/// The first move that is not good.
pub fn first_bad(left: &[Monomial], right: &[Monomial], moves: &[Move]) -> Option<u32>
    requires left { IsNormal (sum_of left.now) }
    requires right { IsNormal (sum_of right.now) }
    requires few { length moves.now ≤ 2 ^ 32 }
    ensures { MatchOption result (AreGood (sum_of left.now) (sum_of right.now) (transfers moves.now))
        (IsFirstBad (sum_of left.now) (sum_of right.now) (transfers moves.now)) }
{
    for (i, item) in moves.iter().enumerate() {
        if !is_good(left, right, item) {
            return Some(i as u32);
        }
    }
    None
}

// Whether both monomials of the move are there, and the left one's factors are at least the right one's.
fn is_good(left: &[Monomial], right: &[Monomial], item: &Move) -> bool
    requires left { IsNormal (sum_of left.now) }
    requires right { IsNormal (sum_of right.now) }
    ensures { IsTrue result ↔ Good (sum_of left.now) (sum_of right.now) (transfer item.now) }
{
    let (from, to) = (item.from as usize, item.to as usize);
    if from >= left.len() {
        return false;
    }
    if to >= right.len() {
        return false;
    }
    let (giver, taker) = (&left[from], &right[to]);
    are_factors_at_least(&giver.atoms, &taker.atoms)
}

/// Whether the two lists have the same variables in order, and each argument on the left is at least the one on the
/// right. Then a unit of a monomial with the first list may be moved to one with the second (ours, after absolute
/// positiveness).
pub fn are_factors_at_least(a: &Atoms, b: &Atoms) -> bool
    requires left { (scope : List Ty) × NormalFactors scope (atoms a.now) }
    requires right { (scope : List Ty) × NormalFactors scope (atoms b.now) }
    ensures { IsTrue result ↔ FactorsAtLeast (atoms a.now) (atoms b.now) }
{
    let (items, others) = (a.as_slice(), b.as_slice());
    if items.len() != others.len() {
        return false;
    }
    for (i, item) in items.iter().enumerate() {
        let other = &others[i];
        if item.head != other.head || !are_arguments_at_least(&item.args, &other.args) {
            return false;
        }
    }
    true
}

// Whether both lists are of the same length, and each argument is at least the other's.
fn are_arguments_at_least(a: &Polys, b: &Polys) -> bool
    requires left { (scope : List Ty) × (kind : Ty) × NormalArguments scope kind (polys a.now) }
    requires right { (scope : List Ty) × (kind : Ty) × NormalArguments scope kind (polys b.now) }
    ensures { IsTrue result ↔ ArgumentsAtLeast (polys a.now) (polys b.now) }
{
    let (items, others) = (a.as_slice(), b.as_slice());
    if items.len() != others.len() {
        return false;
    }
    for (i, item) in items.iter().enumerate() {
        if !at_least(item, &others[i]) {
            return false;
        }
    }
    true
}
