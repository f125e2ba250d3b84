//! The claims that an inference asks for: `goals_of` answers with one for each of its parts.

ghost use Rattle.std.specs.Prelude.{ℕ, ◌≡◌, ◌↔◌, IfOk, IsTrue, length};
ghost use Rattle.wh_order_inference.specs.Inferences.{Inferences, arguments, bodies, same_trees};
ghost use Rattle.wh_order_inference.specs.Said as s;
ghost use Rattle.wh_order_path.specs.Verdict.{some_strict};
ghost use Rattle.wh_order_node.specs.FilteringView.{filtering_data};
ghost use Rattle.wh_order.specs.Claims.{AreAtLeastGoals, AreGoals, AreGreaterGoals, AreTypedGoals};
ghost use Rattle.wh_order.specs.Precedences.{order_of};

use crate::goals::{Claim, Compared, Goal, Goals, Side, one, push_pairs};
use crate::letters::above_goals;
use crate::opened::open_tree;
use std::alloc::{AllocError, Global};
use wh_order_inference::{Inference, Letter};
use wh_order_node::Filters;
use wh_order_trees::{application_of, body_of, have_one_type, same_tree};
use wh_types::{same_type, sum};

/// The goals of the parts of an inference with this letter, this place and these parts, where it is for the goal.
/// `None` where the letter is not for that goal, its condition fails, or the inference compares trees of two types.
pub fn goals_of<'a>(
    alloc: Global,
    filters: &Filters,
    goal: &'a Goal<'_>,
    letter: Letter,
    place: u32,
    parts: &[Inference],
) -> Result<Option<Goals<'a>>, AllocError>
    ensures { IfOk result (λ r. AreGoals (length (filtering_data filters.now).symbols) (order_of (filtering_data filters.now))
        goal.now (s.letter letter) place (s.inferences parts.now) r) }
{
    let two = Compared {
        next: goal.next,
        left: goal.left.tree(),
        right: goal.right.tree(),
    };
    match goal.claim {
        Claim::AtLeast => at_least_goals(alloc, filters, &two, letter, place, parts),
        Claim::Greater => typed_goals(alloc, filters, &two, letter, place, parts),
        Claim::Above(from) => above_goals(alloc, filters, from, &two, letter, place),
    }
}

// The goals of an inference by which the left tree is at least the right one.
fn at_least_goals<'a>(
    alloc: Global,
    filters: &Filters,
    two: &Compared<'a>,
    letter: Letter,
    place: u32,
    parts: &[Inference],
) -> Result<Option<Goals<'a>>, AllocError>
    ensures { IfOk result (λ r. AreAtLeastGoals (length (filtering_data filters.now).symbols)
        (order_of (filtering_data filters.now)) two.now.next two.now.left.now two.now.right.now
        (s.letter letter) place (s.inferences parts.now) r) }
{
    if asks_same(letter, place) {
        if same_tree(two.left, two.right) {
            Ok(Some(Vec::new(alloc)))
        } else {
            Ok(None)
        }
    } else {
        typed_goals(alloc, filters, two, letter, place, parts)
    }
}

// Whether an inference with this letter and this place is that of the same trees.
fn asks_same(letter: Letter, place: u32) -> bool
    ensures { IsTrue result ↔ ((place ≡ 0) × (s.letter letter ≡ same_trees)) }
{
    place == 0 && is_same(letter)
}

// Whether the letter is that of the same trees.
fn is_same(letter: Letter) -> bool
    ensures { IsTrue result ↔ (s.letter letter ≡ same_trees) }
{
    matches!(letter, Letter::Same)
}

// The goals of an inference by which the left tree is greater than the right one, which has to have its type.
fn typed_goals<'a>(
    alloc: Global,
    filters: &Filters,
    two: &Compared<'a>,
    letter: Letter,
    place: u32,
    parts: &[Inference],
) -> Result<Option<Goals<'a>>, AllocError>
    ensures { IfOk result (λ r. AreTypedGoals (length (filtering_data filters.now).symbols)
        (order_of (filtering_data filters.now)) two.now.next two.now.left.now two.now.right.now
        (s.letter letter) place (s.inferences parts.now) r) }
{
    let Some(goals) = greater_goals(alloc, filters, two, letter, place, parts)? else {
        return Ok(None);
    };
    // To compare types they have to be made, which takes long: so they are made only where the letter asks for
    // something.
    let alike = have_one_type(alloc, two.left, two.right)?;
    if alike { Ok(Some(goals)) } else { Ok(None) }
}

// The goals of an inference by which the left tree is greater than the right one, where both have one type.
fn greater_goals<'a>(
    alloc: Global,
    filters: &Filters,
    two: &Compared<'a>,
    letter: Letter,
    place: u32,
    parts: &[Inference],
) -> Result<Option<Goals<'a>>, AllocError>
    ensures { IfOk result (λ r. AreGreaterGoals (length (filtering_data filters.now).symbols)
        (order_of (filtering_data filters.now)) two.now.next two.now.left.now two.now.right.now
        (s.letter letter) place (s.inferences parts.now) r) }
{
    match letter {
        Letter::Lam => by_bodies(alloc, two, place),
        Letter::Mono => by_arguments(alloc, two, place, parts),
        _ => above_goals(alloc, filters, two.next, two, letter, place),
    }
}

// `l`: two abstractions over one type; the left body is greater, where one free variable stands for both variables.
fn by_bodies<'a>(
    alloc: Global,
    two: &Compared<'a>,
    place: u32,
) -> Result<Option<Goals<'a>>, AllocError>
    ensures { IfOk result (λ r. (n : ℕ) (prec : ℕ → ℕ) (is : Inferences)
        → AreGreaterGoals n prec two.now.next two.now.left.now two.now.right.now bodies place is r) }
{
    let Some((kind, body)) = body_of(two.left) else {
        return Ok(None);
    };
    let Some((other, other_body)) = body_of(two.right) else {
        return Ok(None);
    };
    if place != 0 {
        return Ok(None);
    }
    if !same_type(kind, other) {
        return Ok(None);
    }
    let goal = Goal {
        claim: Claim::Greater,
        next: sum(two.next, 1)?,
        left: Side::Made(open_tree(alloc, body, two.next, kind)?),
        right: Side::Made(open_tree(alloc, other_body, two.next, other)?),
    };
    one(alloc, goal)
}

// `m`: two applications of one head to as many arguments; each argument is at least the other one, and some part says
// more.
fn by_arguments<'a>(
    alloc: Global,
    two: &Compared<'a>,
    place: u32,
    parts: &[Inference],
) -> Result<Option<Goals<'a>>, AllocError>
    ensures { IfOk result (λ r. (n : ℕ) (prec : ℕ → ℕ)
        → AreGreaterGoals n prec two.now.next two.now.left.now two.now.right.now arguments place
        (s.inferences parts.now) r) }
{
    let Some((head, items)) = application_of(two.left) else {
        return Ok(None);
    };
    let Some((other, others)) = application_of(two.right) else {
        return Ok(None);
    };
    if place != 0 {
        return Ok(None);
    }
    if items.len() != others.len() {
        return Ok(None);
    }
    if !same_tree(head, other) {
        return Ok(None);
    }
    if !is_some_strict(parts) {
        return Ok(None);
    }
    let mut goals = Vec::new(alloc);
    push_pairs(&mut goals, two.next, items, others)?;
    Ok(Some(goals))
}

// Whether some part is not that of the same trees.
fn is_some_strict(parts: &[Inference]) -> bool
    ensures { result ≡ some_strict (s.inferences parts.now) }
{
    for part in parts {
        if !is_same(part.letter) {
            return true;
        }
    }
    false
}
