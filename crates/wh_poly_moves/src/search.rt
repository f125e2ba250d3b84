//! The search for a path along which a flow can grow. It goes breadth first over right monomials, from one that wants
//! something: from each to those that get units from a left monomial that could give to it. It ends at a left monomial
//! that has something free, or with right monomials whose possible givers have nothing free and give to these alone;
//! then no moves cover them.

ghost use Rattle.std.specs.Prelude.{◌≡◌, ◌<◌, ◌↔◌, List, IsTrue, IfOk, OnOk, MatchOption, length, slice_index};
ghost use Rattle.wh_poly.specs.declared.polynomial.Monomial.{Monomial};
ghost use Rattle.wh_poly.specs.Erase.{sum_of};
ghost use Rattle.wh_hopoly.specs.Erase.{transfer};
ghost use Rattle.wh_polycheck.specs.CoverFaults.{IsNormal};
ghost use Rattle.wh_poly_moves.specs.declared.flow.Flow.{Flow};
ghost use Rattle.wh_poly_moves.specs.Found.{NoneCovers};
ghost use Rattle.wh_poly_moves.specs.Flows.{CanGive, IsFlow};
ghost use Rattle.wh_poly_moves.specs.Paths.{AllMarked, GivesTo, HasMarked, HasReached, HasStepped, IsPath, IsSearch, ReachesBy, target};

use crate::flow::Flow;
use std::alloc::{AllocError, Global};
use wh_hopoly::Move;
use wh_poly::Monomial;
use wh_polycheck::are_factors_at_least;

/// How a step of the search got to its right monomial: by a move to it, from a left monomial that could also give to
/// the right monomial of an earlier step.
#[derive(Clone, Copy)]
pub struct Link {
    /// The place of the move.
    pub through: usize,
    /// The place of the earlier step.
    pub towards: usize,
}

/// A right monomial that the search got to.
#[derive(Drop)]
pub struct Step {
    /// The monomial.
    pub target: usize,
    /// How the search got there; the one that it began with has none.
    pub link: Option<Link>,
}

/// A left monomial that has something free, and the steps that lead from there to the right monomial that wants it.
#[derive(Drop)]
pub struct Path {
    /// All steps of the search.
    pub steps: Vec<Step>,
    /// The step to whose monomial the giver can give.
    pub at: usize,
    /// The left monomial.
    pub giver: usize,
}

/// What a search knows.
#[derive(Drop)]
pub struct Search {
    /// The right monomials in the order in which the search got to them.
    pub steps: Vec<Step>,
    /// Which right monomials these are.
    pub reached: Vec<bool>,
    /// For each left monomial that could give to one of those visited, the step of the first such.
    pub givers: Vec<Option<usize>>,
}

/// A path along which something goes to the right monomial, or `None` where no moves cover the right polynomial.
pub fn find_path(
    alloc: Global,
    left: &[Monomial],
    right: &[Monomial],
    flow: &Flow,
    root: usize,
) -> Result<Option<Path>, AllocError>
    requires left { IsNormal (sum_of left.now) }
    requires right { IsNormal (sum_of right.now) }
    requires flow { IsFlow left.now right.now flow.now }
    requires here { root < length right.now }
    requires wants { 0 < slice_index flow.now.want.items root }
    ensures { IfOk result (λ found. MatchOption found (NoneCovers (sum_of left.now) (sum_of right.now))
        (IsPath left.now right.now flow.now root)) }
{
    let mut search = Search::start(alloc, left, right, root)?;
    let mut at = 0;
    while at < search.steps.len() {
        match search.visit(left, right, flow, at) {
            Some(giver) => {
                let Search { steps, .. } = search;
                return Ok(Some(Path { steps, at, giver }));
            }
            None => search.reach(flow)?,
        }
        at += 1;
    }
    Ok(None)
}

impl Search {
    // As the search begins.
    fn start(
        alloc: Global,
        left: &[Monomial],
        right: &[Monomial],
        root: usize,
    ) -> Result<Search, AllocError>
        requires { root < length right.now }
        ensures search { IfOk result (λ search. (flow : Flow) → IsSearch left.now right.now flow search) }
        ensures reached { IfOk result (λ search. (flow : Flow) → HasReached flow search) }
        ensures begun { IfOk result (λ search. target search.steps.items 0 ≡ root) }
    {
        let mut reached = vec![in alloc; false; right.len()]?;
        reached[root] = true;
        let givers = vec![in alloc; None; left.len()]?;
        let mut steps = Vec::new(alloc);
        steps.push(Step {
            target: root,
            link: None,
        })?;
        Ok(Search {
            steps,
            reached,
            givers,
        })
    }

    // Marks the left monomials that could give to the right monomial of a step. The first of them that has something
    // free, if one has.
    fn visit(
        &mut self,
        left: &[Monomial],
        right: &[Monomial],
        flow: &Flow,
        at: usize,
    ) -> Option<usize>
        requires left { IsNormal (sum_of left.now) }
        requires right { IsNormal (sum_of right.now) }
        requires flow { IsFlow left.now right.now flow.now }
        requires search { IsSearch left.now right.now flow.now self.old }
        requires here { at < length self.old.steps.items }
        ensures search { IsSearch left.now right.now flow.now self.new }
        ensures marked { HasMarked self.old self.new }
        ensures found { MatchOption result (AllMarked left.now right.now (target self.old.steps.items at) self.new)
            (GivesTo left.now right.now flow.now (target self.old.steps.items at)) }
    {
        let target = self.steps[at].target;
        for giver in 0..left.len() {
            if self.givers[giver].is_none() && can_give(left, right, giver, target) {
                if flow.free[giver] > 0 {
                    return Some(giver);
                }
                self.givers[giver] = Some(at);
            }
        }
        None
    }

    // Gets to the right monomials that get something from a marked left one.
    fn reach(&mut self, flow: &Flow) -> Result<(), AllocError>
        requires { (left : List Monomial) × (right : List Monomial) × IsFlow left right flow.now × IsSearch left right flow.now self.old }
        ensures search { OnOk result ((left right : List Monomial) → IsFlow left right flow.now → IsSearch left right flow.now self.old
            → IsSearch left right flow.now self.new) }
        ensures reached { OnOk result (HasReached flow.now self.new) }
        ensures stepped { OnOk result (HasStepped self.old self.new) }
    {
        for (place, item) in flow.moves.iter().enumerate() {
            if item.amount > 0 {
                self.reach_by(place, item)?;
            }
        }
        Ok(())
    }

    // Gets to the right monomial of a move that brings something, if its left one is marked.
    fn reach_by(&mut self, through: usize, item: &Move) -> Result<(), AllocError>
        requires giver { item.now.from < length self.old.givers.items }
        requires taker { item.now.to < length self.old.reached.items }
        ensures { OnOk result (ReachesBy through (transfer item.now) self.old self.new) }
    {
        let target = item.to as usize;
        if self.reached[target] {
            return Ok(());
        }
        if let Some(towards) = self.givers[item.from as usize] {
            self.reached[target] = true;
            self.steps.push(Step {
                target,
                link: Some(Link { through, towards }),
            })?;
        }
        Ok(())
    }
}

// Whether a unit of the left monomial may go to the right one.
fn can_give(left: &[Monomial], right: &[Monomial], giver: usize, taker: usize) -> bool
    requires left { IsNormal (sum_of left.now) }
    requires right { IsNormal (sum_of right.now) }
    requires giver { giver < length left.now }
    requires taker { taker < length right.now }
    ensures { IsTrue result ↔ CanGive left.now right.now giver taker }
{
    let (from, to) = (&left[giver], &right[taker]);
    are_factors_at_least(&from.atoms, &to.atoms)
}
