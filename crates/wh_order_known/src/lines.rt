//! The goals that lines of a node are for: that the left side is at least the right one, or greater.

ghost use Rattle.wh_order_path.specs.Verdict.{at_least, greater};
ghost use Rattle.wh_order_known.specs.LineGoals.{IsLineGoal};
ghost use Rattle.wh_order.specs.Claims.{said};

use wh_order::{Claim, Goal, Side};
use wh_order_trees::Tree;

/// The goal of a line: the left tree is at least the right one.
pub fn weak_goal<'a>(left: &'a Tree, right: &'a Tree) -> Goal<'a>
    ensures { IsLineGoal at_least left.now right.now result }
{
    line_goal(Claim::AtLeast, left, right)
}

/// The goal of a line that is not `=`: the left tree is greater.
pub fn strict_goal<'a>(left: &'a Tree, right: &'a Tree) -> Goal<'a>
    ensures { IsLineGoal greater left.now right.now result }
{
    line_goal(Claim::Greater, left, right)
}

// The goal with the claim.
fn line_goal<'a>(claim: Claim, left: &'a Tree, right: &'a Tree) -> Goal<'a>
    ensures { IsLineGoal (said claim) left.now right.now result }
{
    Goal {
        claim,
        next: 0,
        left: Side::Here(left),
        right: Side::Here(right),
    }
}
