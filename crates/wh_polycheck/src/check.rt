//! Covers: `check_weak` and `check_strict` test a list of moves between two polynomials.

ghost use Rattle.std.specs.Prelude.{◌≤◌, ◌^◌, MatchResult, length};
ghost use Rattle.wh_poly.specs.Erase.{monomials, poly};
ghost use Rattle.wh_hopoly.specs.Erase.{transfers};
ghost use Rattle.wh_hopoly.specs.Moves.{IsCover, IsStrictCover};
ghost use Rattle.wh_polycheck.specs.CoverFaults.{IsFirstCoverFault, IsFirstStrictCoverFault, IsNormal};

use crate::amounts::{first_not_covered, first_over_spent, leaves_constant};
use crate::fault::CoverFault;
use crate::good::first_bad;
use wh_hopoly::Move;
use wh_poly::Poly;

/// Whether the moves show that the left polynomial is at least the right one.
///
/// Each move must be good: both its monomials are there, they have the same variables in order, and each argument on
/// the left is at least the one on the right. No left monomial may give more than its coefficient, and each right one
/// must get at least its coefficient. `Err` names the first test that fails, in this order; of the moves and of the
/// monomials the first one. No memory is taken.
pub fn check_weak(left: &Poly, right: &Poly, moves: &[Move]) -> Result<(), CoverFault>
    requires left { IsNormal (poly left.now) }
    requires right { IsNormal (poly right.now) }
    requires few_left { length (monomials left.now) ≤ 2 ^ 32 }
    requires few_right { length (monomials right.now) ≤ 2 ^ 32 }
    requires few_moves { length moves.now ≤ 2 ^ 32 }
    ensures { MatchResult result (λ _. IsCover (poly left.now) (poly right.now) (transfers moves.now))
        (IsFirstCoverFault (poly left.now) (poly right.now) (transfers moves.now)) }
{
    let (items, others) = (left.as_slice(), right.as_slice());
    if let Some(entry) = first_bad(items, others, moves) {
        return Err(CoverFault::BadMove { entry });
    }
    if let Some(monomial) = first_over_spent(items, moves) {
        return Err(CoverFault::OverSpent { monomial });
    }
    match first_not_covered(others, moves) {
        Some(monomial) => Err(CoverFault::NotCovered { monomial }),
        None => Ok(()),
    }
}

/// Whether the moves show that the left polynomial is greater than the right one: besides, the left constant is there
/// and gives less than its coefficient.
pub fn check_strict(left: &Poly, right: &Poly, moves: &[Move]) -> Result<(), CoverFault>
    requires left { IsNormal (poly left.now) }
    requires right { IsNormal (poly right.now) }
    requires few_left { length (monomials left.now) ≤ 2 ^ 32 }
    requires few_right { length (monomials right.now) ≤ 2 ^ 32 }
    requires few_moves { length moves.now ≤ 2 ^ 32 }
    ensures { MatchResult result (λ _. IsStrictCover (poly left.now) (poly right.now) (transfers moves.now))
        (IsFirstStrictCoverFault (poly left.now) (poly right.now) (transfers moves.now)) }
{
    match check_weak(left, right, moves) {
        Err(fault) => Err(fault),
        Ok(()) => {
            if leaves_constant(left.as_slice(), moves) {
                Ok(())
            } else {
                Err(CoverFault::NotStrict)
            }
        }
    }
}
