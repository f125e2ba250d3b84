//! Letters: which goals each letter leaves where a symbol heads the left tree, which is to be above the right one.

ghost use Rattle.std.specs.Prelude.{ℕ, ◌≡◌, IfOk, length};
ghost use Rattle.wh_terms.specs.Tree.{fun, head};
ghost use Rattle.wh_order_inference.specs.Inferences.{body, first_less, lower, meta_part, part, spine_parts, variable};
ghost use Rattle.wh_order_inference.specs.Said as s;
ghost use Rattle.wh_order_path.specs.Heads.{arguments_of};
ghost use Rattle.wh_order_path.specs.Verdict.{above, each};
ghost use Rattle.wh_order_node.specs.FilteringView.{filtering_data};
ghost use Rattle.wh_order_trees.specs.TreeParts.{Over, World};
ghost use Rattle.wh_order_trees.specs.Trees.{tree};
ghost use Rattle.wh_order.specs.Claims.{AreAboveGoals, AreSymbolGoals, HoldsGoals};
ghost use Rattle.wh_order.specs.Precedences.{order_of};

use crate::below::is_meta_below;
use crate::goals::{Claim, Compared, Goal, Goals, Side, one, push_each};
use crate::opened::open_tree;
use crate::precedence::precedence_of;
use std::alloc::{AllocError, Global};
use wh_order_inference::Letter;
use wh_order_node::Filters;
use wh_order_trees::{
    Tree, application_of, argument_at, arguments_of, body_of, meta_of, number_of, same_before,
};
use wh_types::sum;

/// The goals of the parts of an inference with this letter and this place, where the left tree is to be above the right
/// one; `None` where the letter is not for that, or its condition fails.
pub fn above_goals<'a>(
    alloc: Global,
    filters: &Filters,
    from: u32,
    two: &Compared<'a>,
    letter: Letter,
    place: u32,
) -> Result<Option<Goals<'a>>, AllocError>
    ensures { IfOk result (λ r. AreAboveGoals (length (filtering_data filters.now).symbols)
        (order_of (filtering_data filters.now)) from two.now.next two.now.left.now two.now.right.now (s.letter letter) place r) }
{
    match precedence_of(filters, two.left) {
        Some(high) => match letter {
            Letter::Sub => by_part(alloc, two, place),
            Letter::Prec => by_lower(alloc, filters, high, from, two, place),
            Letter::Lex => by_first_less(alloc, filters, high, from, two, place),
            Letter::App => by_spine(alloc, from, two, place),
            Letter::Bind => by_body(alloc, from, two, place),
            Letter::Var => by_variable(alloc, from, two, place),
            Letter::Meta => by_meta(alloc, from, two, place),
            Letter::Same | Letter::Lam | Letter::Mono => Ok(None),
        },
        None => Ok(None),
    }
}

// `s`: an argument on the left that is at least the right tree.
fn by_part<'a>(
    alloc: Global,
    two: &Compared<'a>,
    place: u32,
) -> Result<Option<Goals<'a>>, AllocError>
    ensures { IfOk result (λ r. (n f from : ℕ) (prec : ℕ → ℕ)
        → AreSymbolGoals n prec f from two.now.next two.now.left.now two.now.right.now part place r) }
{
    match argument_at(two.left, place) {
        Some(item) => {
            let goal = Goal {
                claim: Claim::AtLeast,
                next: two.next,
                left: Side::Here(item),
                right: Side::Here(two.right),
            };
            one(alloc, goal)
        }
        None => Ok(None),
    }
}

// `p`: a symbol of lower precedence on the right; the left tree is above each of its arguments.
fn by_lower<'a>(
    alloc: Global,
    filters: &Filters,
    high: u32,
    from: u32,
    two: &Compared<'a>,
    place: u32,
) -> Result<Option<Goals<'a>>, AllocError>
    ensures { IfOk result (λ r. (f : ℕ) → order_of (filtering_data filters.now) f ≡ high
        → AreSymbolGoals (length (filtering_data filters.now).symbols) (order_of (filtering_data filters.now))
        f from two.now.next two.now.left.now two.now.right.now lower place r) }
{
    match precedence_of(filters, two.right) {
        Some(low) => {
            if place != 0 {
                return Ok(None);
            }
            if low >= high {
                return Ok(None);
            }
            above_each(alloc, from, two)
        }
        None => Ok(None),
    }
}

// The left tree is above each argument of the right one.
fn above_each<'a>(
    alloc: Global,
    from: u32,
    two: &Compared<'a>,
) -> Result<Option<Goals<'a>>, AllocError>
    ensures { IfOk result (λ r. (n : ℕ) (w : World) → Over n w two.now.left.now → Over n w two.now.right.now
        → HoldsGoals n w r (each (above from) two.now.next (tree n two.now.left.now)
        (arguments_of (tree n two.now.right.now)))) }
{
    let mut goals = Vec::new(alloc);
    push_each(
        &mut goals,
        Claim::Above(from),
        two.next,
        two.left,
        arguments_of(two.right),
    )?;
    Ok(Some(goals))
}

// `x`: a symbol of equal precedence on the right, and the first arguments that differ get smaller; the left tree is
// above each argument of the right one.
fn by_first_less<'a>(
    alloc: Global,
    filters: &Filters,
    high: u32,
    from: u32,
    two: &Compared<'a>,
    place: u32,
) -> Result<Option<Goals<'a>>, AllocError>
    ensures { IfOk result (λ r. (f : ℕ) → order_of (filtering_data filters.now) f ≡ high
        → AreSymbolGoals (length (filtering_data filters.now).symbols) (order_of (filtering_data filters.now))
        f from two.now.next two.now.left.now two.now.right.now first_less place r) }
{
    match precedence_of(filters, two.right) {
        Some(low) => {
            if low == high {
                less_at(alloc, from, two, place as usize)
            } else {
                Ok(None)
            }
        }
        None => Ok(None),
    }
}

// The arguments before the place are the same, and that at the place gets smaller; the left tree is above each argument
// of the right one.
fn less_at<'a>(
    alloc: Global,
    from: u32,
    two: &Compared<'a>,
    place: usize,
) -> Result<Option<Goals<'a>>, AllocError>
    ensures { IfOk result (λ r. (n f g : ℕ) (prec : ℕ → ℕ) → head (tree n two.now.right.now) ≡ fun g → prec g ≡ prec f
        → AreSymbolGoals n prec f from two.now.next two.now.left.now two.now.right.now first_less place r) }
{
    let (items, others) = (arguments_of(two.left), arguments_of(two.right));
    if place == 0 {
        return Ok(None);
    }
    if place > items.len() {
        return Ok(None);
    }
    if place > others.len() {
        return Ok(None);
    }
    if !same_before(items, others, place) {
        return Ok(None);
    }
    let mut goals = Vec::new(alloc);
    goals.push(Goal {
        claim: Claim::Greater,
        next: two.next,
        left: Side::Here(&items[place - 1]),
        right: Side::Here(&others[place - 1]),
    })?;
    push_each(&mut goals, Claim::Above(from), two.next, two.left, others)?;
    Ok(Some(goals))
}

// `a`: an application on the right; the left tree is above its head and each of its arguments.
fn by_spine<'a>(
    alloc: Global,
    from: u32,
    two: &Compared<'a>,
    place: u32,
) -> Result<Option<Goals<'a>>, AllocError>
    ensures { IfOk result (λ r. (n f : ℕ) (prec : ℕ → ℕ)
        → AreSymbolGoals n prec f from two.now.next two.now.left.now two.now.right.now spine_parts place r) }
{
    if place != 0 {
        return Ok(None);
    }
    match application_of(two.right) {
        Some((head, items)) => {
            let mut goals = Vec::new(alloc);
            goals.push(Goal {
                claim: Claim::Above(from),
                next: two.next,
                left: Side::Here(two.left),
                right: Side::Here(head),
            })?;
            push_each(&mut goals, Claim::Above(from), two.next, two.left, items)?;
            Ok(Some(goals))
        }
        None => Ok(None),
    }
}

// `b`: an abstraction on the right; the left tree is above its body, where a free variable stands for the variable.
fn by_body<'a>(
    alloc: Global,
    from: u32,
    two: &Compared<'a>,
    place: u32,
) -> Result<Option<Goals<'a>>, AllocError>
    ensures { IfOk result (λ r. (n f : ℕ) (prec : ℕ → ℕ)
        → AreSymbolGoals n prec f from two.now.next two.now.left.now two.now.right.now body place r) }
{
    if place != 0 {
        return Ok(None);
    }
    match body_of(two.right) {
        Some((kind, inner)) => {
            let goal = Goal {
                claim: Claim::Above(from),
                next: sum(two.next, 1)?,
                left: Side::Here(two.left),
                right: Side::Made(open_tree(alloc, inner, two.next, kind)?),
            };
            one(alloc, goal)
        }
        None => Ok(None),
    }
}

// `v`: a variable of a binder that was passed on the right.
fn by_variable<'a>(
    alloc: Global,
    from: u32,
    two: &Compared<'a>,
    place: u32,
) -> Result<Option<Goals<'a>>, AllocError>
    ensures { IfOk result (λ r. (n f : ℕ) (prec : ℕ → ℕ)
        → AreSymbolGoals n prec f from two.now.next two.now.left.now two.now.right.now variable place r) }
{
    match number_of(two.right) {
        Some(number) => {
            if place != 0 {
                return Ok(None);
            }
            if number < from {
                return Ok(None);
            }
            if number >= two.next {
                return Ok(None);
            }
            Ok(Some(Vec::new(alloc)))
        }
        None => Ok(None),
    }
}

// `z`: a meta-variable on the right that an argument on the left is; the left tree is above each of its arguments.
fn by_meta<'a>(
    alloc: Global,
    from: u32,
    two: &Compared<'a>,
    place: u32,
) -> Result<Option<Goals<'a>>, AllocError>
    ensures { IfOk result (λ r. (n f : ℕ) (prec : ℕ → ℕ)
        → AreSymbolGoals n prec f from two.now.next two.now.left.now two.now.right.now meta_part place r) }
{
    let Some((meta, items)) = meta_of(two.right) else {
        return Ok(None);
    };
    let Some(item) = argument_at(two.left, place) else {
        return Ok(None);
    };
    if !is_meta_below(item, meta, items.len(), items.len()) {
        return Ok(None);
    }
    let mut goals = Vec::new(alloc);
    push_each(&mut goals, Claim::Above(from), two.next, two.left, items)?;
    Ok(Some(goals))
}
