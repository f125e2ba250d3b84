//! Goals: claims about two trees, which inferences are to show.

ghost use Rattle.std.specs.Prelude.{ℕ, ◌≡◌, ◌∷◌, ◌++◌, [], List, IfOk, OnOk, length};
ghost use Rattle.wh_order_path.specs.Verdict.{Task, each, pairwise};
ghost use Rattle.wh_order_trees.specs.TreeParts.{AllOver, Over, World};
ghost use Rattle.wh_order_trees.specs.Trees.{tree, trees};
ghost use Rattle.wh_order.specs.Claims.{HoldsGoals, IsGoalOver, StandFor, said, side_tree, task};

use std::alloc::{AllocError, Global};
use wh_order_trees::Tree;

/// A claim about a left and a right tree.
#[derive(Clone, Copy)]
pub enum Claim {
    /// The left tree is at least the right one.
    AtLeast,
    /// The left tree is greater.
    Greater,
    /// The left tree is above the right one, where the free variables from this number on stand for binders of the
    /// right tree that were passed.
    Above(u32),
}

/// A tree of a claim.
#[derive(Drop)]
pub enum Side<'a> {
    /// A part of a tree that is there.
    Here(&'a Tree),
    /// A body that was opened.
    Made(Tree),
}

impl Side<'_> {
    /// The tree itself.
    pub fn tree(&self) -> &Tree
        ensures { result.now ≡ side_tree self.now }
    {
        match self {
            Side::Here(t) => t,
            Side::Made(t) => t,
        }
    }
}

/// A claim about two trees, whose free variables have numbers below `next`.
#[derive(Drop)]
pub struct Goal<'a> {
    /// The claim.
    pub claim: Claim,
    /// The number for the next variable.
    pub next: u32,
    /// The left tree.
    pub left: Side<'a>,
    /// The right tree.
    pub right: Side<'a>,
}

/// Two trees that are compared, whose free variables have numbers below `next`.
#[derive(Clone, Copy)]
pub struct Compared<'a> {
    /// The number for the next variable.
    pub next: u32,
    /// The left tree.
    pub left: &'a Tree,
    /// The right tree.
    pub right: &'a Tree,
}

/// The goals of these claims, one after another.
pub type Goals<'a> = Vec<Goal<'a>>;

/// One goal alone.
pub fn one<'a>(alloc: Global, goal: Goal<'a>) -> Result<Option<Goals<'a>>, AllocError>
    ensures { IfOk result (λ r. (n : ℕ) (w : World) → IsGoalOver n w goal.entry → HoldsGoals n w r (task n goal.entry ∷ [])) }
{
    let mut goals = Vec::new(alloc);
    goals.push(goal)?;
    Ok(Some(goals))
}

/// Puts the claim for the left tree and each of the right ones at the end.
pub fn push_each<'a>(
    goals: &mut Goals<'a>,
    claim: Claim,
    next: u32,
    left: &'a Tree,
    rights: &'a [Tree],
) -> Result<(), AllocError>
    ensures { OnOk result ((n : ℕ) (w : World) (l : List Task) → Over n w left.now → AllOver n w rights.now → StandFor n w goals.old.items l
        → StandFor n w goals.new.items (l ++ each (said claim) next (tree n left.now) (trees n rights.now))) }
{
    for right in rights {
        goals.push(Goal {
            claim,
            next,
            left: Side::Here(left),
            right: Side::Here(right),
        })?;
    }
    Ok(())
}

/// Puts the claims that each left tree is at least the right one at its place at the end.
pub fn push_pairs<'a>(
    goals: &mut Goals<'a>,
    next: u32,
    lefts: &'a [Tree],
    rights: &'a [Tree],
) -> Result<(), AllocError>
    requires { length lefts.now ≡ length rights.now }
    ensures { OnOk result ((n : ℕ) (w : World) (l : List Task) → AllOver n w lefts.now → AllOver n w rights.now
        → StandFor n w goals.old.items l
        → StandFor n w goals.new.items (l ++ pairwise next (trees n lefts.now) (trees n rights.now))) }
{
    for (i, left) in lefts.iter().enumerate() {
        goals.push(Goal {
            claim: Claim::AtLeast,
            next,
            left: Side::Here(left),
            right: Side::Here(&rights[i]),
        })?;
    }
    Ok(())
}
