//! Building an inference with the fewest entries for a goal, by the choices of `best`.

ghost use Rattle.std.specs.Prelude.{◌≡◌, IfOk, Some};
ghost use Rattle.wh_order_node.specs.FilteringView.{filtering_data};
ghost use Rattle.wh_order_known.specs.Least.{NotRefuted};
ghost use Rattle.wh_order_infer.specs.Bests.{AreLeastInferences, IsBest, IsLeastInference, IsMadeWith, written_place};

use crate::best::best;
use crate::ways::{goals_by, made};
use std::alloc::AllocError;
use wh_order::Goal;
use wh_order_inference::{Inference, Inferences, Letter};
use wh_order_known::{Choice, Known};

/// An inference with the fewest entries that shows the goal, nested at most `room` deep; `None` where each has 2^32 at
/// least.
#[cycle(building)]
pub fn build(
    known: &mut Known<'_>,
    goal: &Goal<'_>,
    room: u8,
) -> Result<Option<Inference>, AllocError>
    ensures found { IfOk result (IsLeastInference (filtering_data known.old.filters.now) room goal.now) }
    ensures filters { known.new.filters ≡ known.old.filters }
{
    match best(known, goal, room)? {
        Some(choice) => build_by(known, goal, room, choice),
        None => Ok(None),
    }
}

// Builds the inferences of a goal by the best choice for it.
#[cycle(building)]
fn build_by(
    known: &mut Known<'_>,
    goal: &Goal<'_>,
    room: u8,
    choice: Choice,
) -> Result<Option<Inference>, AllocError>
    requires { NotRefuted (IsBest (filtering_data known.old.filters.now) room goal.now (Some choice)) }
    ensures found { IfOk result (IsLeastInference (filtering_data known.old.filters.now) room goal.now) }
    ensures filters { known.new.filters ≡ known.old.filters }
{
    if room == 0 {
        return Ok(None);
    }
    let filters = known.filters;
    match goals_by(known.alloc, filters, goal, choice.letter, choice.place)? {
        Some(goals) => {
            let parts = build_each(known, goals.as_slice(), room - 1)?;
            Ok(made_with(choice, parts))
        }
        None => Ok(None),
    }
}

// Inferences with the fewest entries for each of the goals; `None` where there are none for one.
#[cycle(building)]
fn build_each(
    known: &mut Known<'_>,
    goals: &[Goal<'_>],
    room: u8,
) -> Result<Option<Inferences>, AllocError>
    ensures found { IfOk result (AreLeastInferences (filtering_data known.old.filters.now) room goals.now) }
    ensures filters { known.new.filters ≡ known.old.filters }
{
    let mut parts = Inferences::new(known.alloc);
    for goal in goals {
        match build(known, goal, room)? {
            Some(part) => parts.push(part)?,
            None => return Ok(None),
        }
    }
    Ok(Some(parts))
}

// The inference by the choice, where the parts are there.
fn made_with(choice: Choice, parts: Option<Inferences>) -> Option<Inference>
    ensures { IsMadeWith choice parts result }
{
    match parts {
        Some(parts) => Some(made(choice.letter, written_place(choice), parts)),
        None => None,
    }
}

// The place that is written with the letter: none with `m`.
fn written_place(choice: Choice) -> u32
    ensures { result ≡ written_place choice }
{
    match choice.letter {
        Letter::Mono => 0,
        _ => choice.place,
    }
}
