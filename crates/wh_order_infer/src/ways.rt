//! The ways to show a goal: letters by number, and the goals that are left by a letter at a place.

ghost use Rattle.std.specs.Prelude.{◌≡◌, IfOk};
ghost use Rattle.wh_order_inference.specs.Inferences.{arguments, infer, no_parts, variable};
ghost use Rattle.wh_order_inference.specs.Said as s;
ghost use Rattle.wh_order_inference.specs.Said.{inference, inferences};
ghost use Rattle.wh_order_node.specs.FilteringView.{filtering_data};
ghost use Rattle.wh_order_infer.specs.Bests.{AreGoalsBy, letter_with};

use std::alloc::{AllocError, Global};
use wh_order::{Claim, Goal, Goals, goals_of};
use wh_order_inference::{Inference, Inferences, Letter};
use wh_order_node::Filters;

/// How many letters there are.
pub const LETTERS: u32 = 10;

/// The letter of that number, counted from 0.
pub fn letter_at(number: u32) -> Letter
    ensures { result ≡ letter_with number }
{
    match number {
        0 => Letter::Same,
        1 => Letter::Lam,
        2 => Letter::Mono,
        3 => Letter::Sub,
        4 => Letter::Prec,
        5 => Letter::Lex,
        6 => Letter::App,
        7 => Letter::Bind,
        8 => Letter::Var,
        _ => Letter::Meta,
    }
}

/// What has to be shown where the goal is shown by this letter at this place; `None` where it can't be.
pub fn goals_by<'a>(
    alloc: Global,
    filters: &Filters,
    goal: &'a Goal<'_>,
    letter: Letter,
    place: u32,
) -> Result<Option<Goals<'a>>, AllocError>
    ensures { IfOk result (AreGoalsBy (filtering_data filters.now) goal.now (s.letter letter) place) }
{
    match letter {
        Letter::Mono => goals_by_argument(alloc, filters, goal, place),
        _ => goals_of(alloc, filters, goal, letter, place, &[]),
    }
}

// The goals of the letter `m`, where the argument at the place is to get smaller.
fn goals_by_argument<'a>(
    alloc: Global,
    filters: &Filters,
    goal: &'a Goal<'_>,
    place: u32,
) -> Result<Option<Goals<'a>>, AllocError>
    ensures { IfOk result (AreGoalsBy (filtering_data filters.now) goal.now arguments place) }
{
    let number = place as usize;
    if number == 0 {
        return Ok(None);
    }
    let strict = strict_part(alloc)?;
    match goals_of(alloc, filters, goal, Letter::Mono, 0, &[strict])? {
        Some(mut goals) => {
            if number > goals.len() {
                return Ok(None);
            }
            goals[number - 1].claim = Claim::Greater;
            Ok(Some(goals))
        }
        None => Ok(None),
    }
}

// An inference that is not that of equal trees.
fn strict_part(alloc: Global) -> Result<Inference, AllocError>
    ensures { IfOk result (λ i. inference i ≡ infer variable 0 no_parts) }
{
    Ok(made(Letter::Var, 0, Inferences::new(alloc)))
}

/// The inference of these parts.
#[tactic(auto, using(crate::proofs::InferenceLemmas::inference_made))]
pub fn made(letter: Letter, place: u32, parts: Inferences) -> Inference
    ensures { inference result ≡ infer (s.letter letter) place (inferences parts) }
{
    Inference {
        letter,
        place,
        parts,
    }
}
