//! The search for the least number of entries that shows a goal. `best` is the main function; `build` makes the
//! inference.

ghost use Rattle.std.specs.Prelude.{◌≡◌, ◌↔◌, IfOk, IsTrue, Some};
ghost use Rattle.wh_order_node.specs.FilteringView.{filtering_data};
ghost use Rattle.wh_order_known.specs.Least.{NotRefuted};
ghost use Rattle.wh_order_known.specs.Counts.{IsLeastCount, count_of};
ghost use Rattle.wh_order_infer.specs.Bests.{IsBest, IsBestAt, IsBestBy, IsLeastTotal, IsOneMore, IsSum};

use crate::ways::{LETTERS, goals_by, letter_at};
use std::alloc::AllocError;
use wh_order::Goal;
use wh_order_inference::Letter;
use wh_order_known::{Choice, Known, count_of, lesser};
use wh_order_trees::arguments_of;
use wh_types::{counted, sum};

/// The way to show the goal that has the fewest entries, nested at most `room` deep; `None` where each has 2^32 at
/// least.
#[cycle(counting)]
pub fn best(known: &mut Known<'_>, goal: &Goal<'_>, room: u8) -> Result<Option<Choice>, AllocError>
    ensures found { IfOk result (λ r. NotRefuted (IsBest (filtering_data known.old.filters.now) room goal.now r)) }
    ensures filters { known.new.filters ≡ known.old.filters }
{
    let mut found = None;
    for number in 0..LETTERS {
        let letter = letter_at(number);
        let own = best_by(known, goal, room, letter)?;
        found = lesser(found, own);
        // No choice has fewer entries, and of two with as many the first one counts: the others need not be tried.
        if has_one_entry(found) {
            return Ok(found);
        }
    }
    Ok(found)
}

// Whether there is a choice, and it has one entry.
fn has_one_entry(choice: Option<Choice>) -> bool
    ensures { IsTrue result ↔ (count_of choice ≡ Some 1) }
{
    match choice {
        Some(choice) => choice.count == 1,
        None => false,
    }
}

// The least number of inferences for the goal if the first one has this letter.
#[cycle(counting)]
fn best_by(
    known: &mut Known<'_>,
    goal: &Goal<'_>,
    room: u8,
    letter: Letter,
) -> Result<Option<Choice>, AllocError>
    ensures found { IfOk result (λ r. NotRefuted (IsBestBy (filtering_data known.old.filters.now) room goal.now letter r)) }
    ensures filters { known.new.filters ≡ known.old.filters }
{
    let left = goal.left.tree();
    let items = arguments_of(left);
    let count = counted(items.len())?;
    let places = sum(count, 1)?;
    let mut found = None;
    for place in 0..places {
        let own = choice_at(known, goal, room, letter, place)?;
        found = lesser(found, own);
    }
    Ok(found)
}

// The least number of inferences for the goal if the first one has this letter and place.
#[cycle(counting)]
fn choice_at(
    known: &mut Known<'_>,
    goal: &Goal<'_>,
    room: u8,
    letter: Letter,
    place: u32,
) -> Result<Option<Choice>, AllocError>
    ensures found { IfOk result (λ r. NotRefuted (IsBestAt (filtering_data known.old.filters.now) room goal.now letter place r)) }
    ensures filters { known.new.filters ≡ known.old.filters }
{
    if room == 0 {
        return Ok(None);
    }
    let filters = known.filters;
    match goals_by(known.alloc, filters, goal, letter, place)? {
        Some(goals) => {
            let parts = total(known, goals.as_slice(), room - 1)?;
            Ok(one_more(letter, place, parts))
        }
        None => Ok(None),
    }
}

// The choice whose parts have this number of entries, if there is one and it fits in 32 bits with one more.
fn one_more(letter: Letter, place: u32, parts: Option<u32>) -> Option<Choice>
    ensures { IsOneMore letter place parts result }
{
    match parts {
        Some(parts) => match parts.checked_add(1) {
            Some(count) => Some(Choice {
                letter,
                place,
                count,
            }),
            None => None,
        },
        None => None,
    }
}

// The least number of entries that shows each of the goals, nested at most `room` deep; `None` where it is 2^32 at
// least.
#[cycle(counting)]
fn total(known: &mut Known<'_>, goals: &[Goal<'_>], room: u8) -> Result<Option<u32>, AllocError>
    ensures found { IfOk result (λ r. NotRefuted (IsLeastTotal (filtering_data known.old.filters.now) room goals.now r)) }
    ensures filters { known.new.filters ≡ known.old.filters }
{
    let mut entries = 0;
    let mut left = goals.len();
    while left > 0 {
        left -= 1;
        let own = least(known, &goals[left], room)?;
        match sum_of(own, entries) {
            Some(more) => entries = more,
            None => return Ok(None),
        }
    }
    Ok(Some(entries))
}

// The sum of two numbers, where the first one is there and it is below 2^32.
fn sum_of(own: Option<u32>, others: u32) -> Option<u32>
    ensures { IsSum own others result }
{
    match own {
        Some(own) => own.checked_add(others),
        None => None,
    }
}

// The least number of entries that shows the goal, nested at most `room` deep; `None` where it is 2^32 at least. It is
// looked up, or else kept where other goals were asked for on the way: one that asks for none is found as fast again,
// and to keep it copies both its trees.
#[cycle(counting)]
fn least(known: &mut Known<'_>, goal: &Goal<'_>, room: u8) -> Result<Option<u32>, AllocError>
    ensures found { IfOk result (λ r. NotRefuted (IsLeastCount (filtering_data known.old.filters.now) room goal.now r)) }
    ensures filters { known.new.filters ≡ known.old.filters }
{
    known.asked = known.asked.wrapping_add(1);
    if let Some(count) = known.look(goal, room) {
        return Ok(count);
    }
    let asked = known.asked;
    let choice = best(known, goal, room)?;
    let count = count_of(choice);
    if known.asked == asked {
        return Ok(count);
    }
    known.note_choice(goal, room, choice)?;
    Ok(count)
}
