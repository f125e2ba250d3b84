//! Growing flows: first between monomials with equal factors, then along paths until a right monomial has all that it
//! wants. Along a path units of moves go back as far as both ends of a step allow, step by step, and not by the least
//! amount on the path, which would have to be found first. What the monomial where it begins still wants is the
//! measure.

ghost use Rattle.std.specs.Prelude.{◌≡◌, ◌≤◌, ◌<◌, [], IfOk, OnOk, length, slice_index};
ghost use Rattle.std.specs.Bool.{MatchBool};
ghost use Rattle.wh_types.specs.Limits.{greatest_weight};
ghost use Rattle.wh_poly.specs.Erase.{sum_of};
ghost use Rattle.wh_polycheck.specs.CoverFaults.{IsNormal};
ghost use Rattle.wh_poly_moves.specs.Found.{NoneCovers};
ghost use Rattle.wh_poly_moves.specs.Flows.{IsFlow, WantsAlike};

use crate::flow::Flow;
use crate::search::find_path;
use std::alloc::{AllocError, Global};
use std::cmp::Ordering;
use wh_poly::{Monomial, order_factors};

impl Flow {
    /// Units go between monomials with equal factors, as many as there are on both sides. Both sides are in order, so
    /// one walk over them finds these, and mostly little is left.
    pub fn match_equal(&mut self, left: &[Monomial], right: &[Monomial]) -> Result<(), AllocError>
        requires flow { IsFlow left.now right.now self.old }
        requires none { self.old.moves.items ≡ [] }
        requires few_left { length left.now ≤ greatest_weight }
        requires few_right { length right.now ≤ greatest_weight }
        ensures { OnOk result (IsFlow left.now right.now self.new) }
    {
        let (mut i, mut j) = (0, 0);
        while i < left.len() && j < right.len() {
            let (giver, taker) = (&left[i], &right[j]);
            match order_factors(&giver.atoms, &taker.atoms) {
                Ordering::Less => i += 1,
                Ordering::Greater => j += 1,
                Ordering::Equal => {
                    let amount = self.free[i].min(self.want[j]);
                    self.give_first(i, j, amount)?;
                    i += 1;
                    j += 1;
                }
            }
        }
        Ok(())
    }

    /// Whether the right monomial can get all that it wants, and then it has. If not, no moves cover the right
    /// polynomial.
    pub fn fill(
        &mut self,
        alloc: Global,
        left: &[Monomial],
        right: &[Monomial],
        root: usize,
    ) -> Result<bool, AllocError>
        requires left { IsNormal (sum_of left.now) }
        requires right { IsNormal (sum_of right.now) }
        requires few_left { length left.now ≤ greatest_weight }
        requires few_right { length right.now ≤ greatest_weight }
        requires flow { IsFlow left.now right.now self.old }
        requires here { root < length right.now }
        ensures flow { OnOk result (IsFlow left.now right.now self.new) }
        ensures others { OnOk result (WantsAlike root self.old self.new) }
        ensures filled { IfOk result (λ filled. MatchBool filled (slice_index self.new.want.items root ≡ 0)
            (NoneCovers (sum_of left.now) (sum_of right.now) × (0 < slice_index self.new.want.items root))) }
    {
        while self.want[root] > 0 {
            if !self.grow(alloc, left, right, root)? {
                return Ok(false);
            }
        }
        Ok(true)
    }

    // Whether there is a path along which something goes to the right monomial, and then it has gone.
    fn grow(
        &mut self,
        alloc: Global,
        left: &[Monomial],
        right: &[Monomial],
        root: usize,
    ) -> Result<bool, AllocError>
        requires left { IsNormal (sum_of left.now) }
        requires right { IsNormal (sum_of right.now) }
        requires few_left { length left.now ≤ greatest_weight }
        requires few_right { length right.now ≤ greatest_weight }
        requires flow { IsFlow left.now right.now self.old }
        requires here { root < length right.now }
        requires wants { 0 < slice_index self.old.want.items root }
        ensures flow { OnOk result (IsFlow left.now right.now self.new) }
        ensures others { OnOk result (WantsAlike root self.old self.new) }
        ensures grown { IfOk result (λ grown. MatchBool grown
            (slice_index self.new.want.items root < slice_index self.old.want.items root)
            (NoneCovers (sum_of left.now) (sum_of right.now) × (self.new.want.items ≡ self.old.want.items))) }
    {
        let path = match find_path(alloc, left, right, self, root)? {
            Some(path) => path,
            None => return Ok(false),
        };
        let (mut at, mut giver) = (path.at, path.giver);
        while let Some(link) = path.steps[at].link {
            giver = self.reroute(link.through, giver)?;
            at = link.towards;
        }
        let amount = self.free[giver].min(self.want[root]);
        self.give(giver, root, amount)?;
        Ok(true)
    }
}
