//! The sum of two monomials with the same factors, where two queues of monomials are merged.

ghost use Rattle.std.specs.Prelude.{◌<◌, length, MatchOption};
ghost use Rattle.wh_poly.specs.Merges.{AddsFirst, FirstOverflows};

use std::collections::VecDeque;
use wh_poly::Monomial;

/// The first monomials of the two queues leave, and their sum comes, with the factors of the second. None only where
/// the coefficient of the sum would be too great.
pub fn add_first(xs: &mut VecDeque<Monomial>, ys: &mut VecDeque<Monomial>) -> Option<Monomial>
    requires left { 0 < length xs.old.items }
    requires right { 0 < length ys.old.items }
    ensures { MatchOption result (FirstOverflows xs.old.items ys.old.items)
        (AddsFirst xs.old.items ys.old.items xs.new.items ys.new.items) }
{
    let x = xs.pop_front()?;
    let Monomial { coefficient, atoms } = ys.pop_front()?;
    let coefficient = x.coefficient.checked_add(coefficient)?;
    Some(Monomial { coefficient, atoms })
}
