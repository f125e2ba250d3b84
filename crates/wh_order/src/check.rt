//! The check of an inference for two filtered trees. `check_inference` goes through the inference in preorder.

ghost use Rattle.std.specs.Prelude.{◌≡◌, List, None, Some, length, map};
ghost use Rattle.wh_types.specs.Outcome.{MatchOr};
ghost use Rattle.wh_terms.specs.Rules.{RewriteRule};
ghost use Rattle.wh_terms.specs.Typing.{Declared, Symbols};
ghost use Rattle.wh_order_inference.specs.Inferences.{all_entries, entries};
ghost use Rattle.wh_order_inference.specs.Said as s;
ghost use Rattle.wh_order_path.specs.Verdict.{verdict, verdicts};
ghost use Rattle.wh_order_node.specs.FilteringView.{filtering_data};
ghost use Rattle.wh_order_trees.specs.TreeParts.{World};
ghost use Rattle.wh_order.specs.BadNumber.{number_of_bad};
ghost use Rattle.wh_order.specs.Claims.{AreGoalsOver, IsGoalOver, Judged, task};
ghost use Rattle.wh_order.specs.Precedences.{order_of};
ghost use Rattle.wh_order.specs.TreeSides.{AreSides, tree_verdict};

use crate::asked::goals_of;
use crate::goals::{Claim, Goal, Side};
use std::alloc::Global;
use wh_order_inference::Inference;
use wh_order_node::Filters;
use wh_order_trees::Tree;
use wh_types::{Or, sum};

/// The first inference of a line that is not good for what it is for.
#[derive(Clone, Copy)]
pub struct BadInference {
    /// The number of the inference, counted in preorder from 0.
    pub at: u32,
}

/// Whether the inference shows that the left tree is at least the right one in the path order (Kop 2012; Blanqui,
/// Jouannaud and Rubio 2015).
///
/// `Err` names the first inference, in preorder, that is bad: its letter is not for its claim, the condition of the
/// letter fails, it has another number of parts, or its claim compares trees of two types.
pub fn check_inference(
    alloc: Global,
    filters: &Filters,
    left: &Tree,
    right: &Tree,
    inference: &Inference,
) -> Result<(), Or<BadInference>>
    ensures { MatchOr result
        (λ _. (S : Symbols) (rules : List RewriteRule) (M : List Declared)
        → AreSides S rules (filtering_data filters.now) M left.now right.now
        → tree_verdict S rules (filtering_data filters.now) M left.now right.now inference.now ≡ None)
        (λ e. (S : Symbols) (rules : List RewriteRule) (M : List Declared)
        → AreSides S rules (filtering_data filters.now) M left.now right.now
        → tree_verdict S rules (filtering_data filters.now) M left.now right.now inference.now ≡ Some e.at) }
{
    let goal = Goal {
        claim: Claim::AtLeast,
        next: 0,
        left: Side::Here(left),
        right: Side::Here(right),
    };
    match check_goal(alloc, filters, &goal, inference, 0) {
        Ok(_) => Ok(()),
        Err(e) => Err(e),
    }
}

// Whether the inference, which has the number `at`, is good for the goal; the number behind those in it.
#[cycle(checking)]
fn check_goal(
    alloc: Global,
    filters: &Filters,
    goal: &Goal<'_>,
    inference: &Inference,
    at: u32,
) -> Result<u32, Or<BadInference>>
    ensures { (w : World) → IsGoalOver (length (filtering_data filters.now).symbols) w goal.now → Judged number_of_bad at
        (verdict w.symbols (order_of (filtering_data filters.now)) w.metas (task (length (filtering_data filters.now).symbols) goal.now)
        (s.inference inference.now)) (entries (s.inference inference.now)) result }
{
    let parts = inference.parts.as_slice();
    match goals_of(
        alloc,
        filters,
        goal,
        inference.letter,
        inference.place,
        parts,
    )? {
        Some(goals) => {
            if goals.len() == parts.len() {
                check_goals(alloc, filters, goals.as_slice(), parts, sum(at, 1)?)
            } else {
                Err(Or::Because(BadInference { at }))
            }
        }
        None => Err(Or::Because(BadInference { at })),
    }
}

// Checks one inference after another, each for its goal.
#[cycle(checking)]
fn check_goals(
    alloc: Global,
    filters: &Filters,
    goals: &[Goal<'_>],
    parts: &[Inference],
    at: u32,
) -> Result<u32, Or<BadInference>>
    requires { length goals.now ≡ length parts.now }
    ensures { (w : World) → AreGoalsOver (length (filtering_data filters.now).symbols) w goals.now → Judged number_of_bad at
        (verdicts w.symbols (order_of (filtering_data filters.now))
        w.metas (map (task (length (filtering_data filters.now).symbols)) goals.now)
        (s.inferences parts.now)) (all_entries (s.inferences parts.now)) result }
{
    let mut next = at;
    for (i, part) in parts.iter().enumerate() {
        next = check_goal(alloc, filters, &goals[i], part, next)?;
    }
    Ok(next)
}
