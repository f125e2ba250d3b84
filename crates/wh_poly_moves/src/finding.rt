//! Moves that cover one polynomial by another, and how much of it cannot be covered.

ghost use Rattle.std.specs.Prelude.{◌≡◌, ◌≤◌, ◌↔◌, IfOk, MatchOption, length};
ghost use Rattle.wh_types.specs.Limits.{greatest_weight};
ghost use Rattle.wh_poly.specs.Erase.{monomials, poly};
ghost use Rattle.wh_hopoly.specs.Erase.{transfers};
ghost use Rattle.wh_polycheck.specs.CoverFaults.{IsNormal};
ghost use Rattle.wh_poly_moves.specs.Found.{AreCovering, NoneCovers};
ghost use Rattle.wh_poly_moves.specs.Flows.{IsFlow, IsSomeCover, positives};

use crate::flow::Flow;
use std::alloc::{AllocError, Global};
use wh_hopoly::{Move, Moves};
use wh_poly::{Monomial, Poly};

/// Moves that show that the left polynomial is at least the right one, and greater where any moves show that. `None`
/// comes exactly where no moves do.
pub fn find_moves(alloc: Global, left: &Poly, right: &Poly) -> Result<Option<Moves>, AllocError>
    requires left { IsNormal (poly left.now) }
    requires right { IsNormal (poly right.now) }
    requires few_left { length (monomials left.now) ≤ greatest_weight }
    requires few_right { length (monomials right.now) ≤ greatest_weight }
    ensures { IfOk result (λ found. MatchOption found (NoneCovers (poly left.now) (poly right.now))
        (λ ms. AreCovering (poly left.now) (poly right.now) (transfers ms))) }
{
    let (givers, takers) = (left.as_slice(), right.as_slice());
    let mut flow = matched(alloc, givers, takers)?;
    for root in 0..takers.len() {
        if !flow.fill(alloc, givers, takers, root)? {
            return Ok(None);
        }
    }
    Ok(Some(moves_of(alloc, &flow.moves)?))
}

/// How many units of the right polynomial the flow leaves without cover, or the greatest number where they are more. It
/// is 0 exactly where some moves cover.
pub fn deficit(alloc: Global, left: &Poly, right: &Poly) -> Result<u128, AllocError>
    requires left { IsNormal (poly left.now) }
    requires right { IsNormal (poly right.now) }
    requires few_left { length (monomials left.now) ≤ greatest_weight }
    requires few_right { length (monomials right.now) ≤ greatest_weight }
    ensures { IfOk result (λ short. short ≡ 0 ↔ IsSomeCover (poly left.now) (poly right.now)) }
{
    let (givers, takers) = (left.as_slice(), right.as_slice());
    let mut flow = matched(alloc, givers, takers)?;
    let mut short: u128 = 0;
    for root in 0..takers.len() {
        if !flow.fill(alloc, givers, takers, root)? {
            short = short.saturating_add(flow.want[root]);
        }
    }
    Ok(short)
}

// A flow between monomials with equal factors.
fn matched(alloc: Global, left: &[Monomial], right: &[Monomial]) -> Result<Flow, AllocError>
    requires few_left { length left.now ≤ greatest_weight }
    requires few_right { length right.now ≤ greatest_weight }
    ensures { IfOk result (IsFlow left.now right.now) }
{
    let mut flow = Flow::start(alloc, left, right)?;
    flow.match_equal(left, right)?;
    Ok(flow)
}

// The moves that bring something.
fn moves_of(alloc: Global, items: &[Move]) -> Result<Moves, AllocError>
    ensures { IfOk result (λ list. transfers list ≡ positives (transfers items.now)) }
{
    let mut list = Moves::new(alloc);
    for item in items {
        if item.amount > 0 {
            list.push(Move {
                from: item.from,
                to: item.to,
                amount: item.amount,
            })?;
        }
    }
    Ok(list)
}
