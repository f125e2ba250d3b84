//! Finding the inference of a line: `find_inference` for at least, `find_greater` for greater.

ghost use Rattle.std.specs.Prelude.{IfOk};
ghost use Rattle.wh_order_path.specs.Verdict.{Claim, at_least, greater};
ghost use Rattle.wh_order_node.specs.FilteringView.{filtering_data};
ghost use Rattle.wh_order_trees.specs.declared.tree.Tree.{Tree};
ghost use Rattle.wh_order_known.specs.LineGoals.{IsLineGoal};
ghost use Rattle.wh_order_infer.specs.Lines.{IsFound};

use crate::build::build;
use std::alloc::{AllocError, Global};
use wh_order::Goal;
use wh_order_inference::Inference;
use wh_order_known::{Known, strict_goal, weak_goal};
use wh_order_node::Filters;
use wh_order_trees::Tree;

/// How deep the inferences of a line nest at most.
const DEEPEST: u8 = 64;

/// An inference that the left filtered tree is at least the right one in the path order of these filters, with the
/// fewest entries; `None` exactly where none nests at most 64 deep and has fewer than 2^32 entries.
pub fn find_inference(
    alloc: Global,
    filters: &Filters,
    left: &Tree,
    right: &Tree,
) -> Result<Option<Inference>, AllocError>
    ensures { IfOk result (IsFound (filtering_data filters.now) at_least left.now right.now) }
{
    find(alloc, filters, &weak_goal(left, right))
}

/// Finds a line by which the left tree is greater than the right one, so that the line is not `=`.
pub fn find_greater(
    alloc: Global,
    filters: &Filters,
    left: &Tree,
    right: &Tree,
) -> Result<Option<Inference>, AllocError>
    ensures { IfOk result (IsFound (filtering_data filters.now) greater left.now right.now) }
{
    find(alloc, filters, &strict_goal(left, right))
}

// An inference for the goal of a line, and so the same.
fn find(alloc: Global, filters: &Filters, goal: &Goal<'_>) -> Result<Option<Inference>, AllocError>
    ensures { IfOk result (λ r. (c : Claim) (s t : Tree) → IsLineGoal c s t goal.now
        → IsFound (filtering_data filters.now) c s t r) }
{
    let mut known = Known::new(alloc, filters)?;
    build(&mut known, goal, DEEPEST)
}
