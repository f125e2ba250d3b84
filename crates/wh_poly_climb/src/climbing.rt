//! The climb: from a guess on, coefficients are changed one at a time, so that what is failing comes nearer to being
//! met.
//!
//! `climb_from` is the one to call. A round goes from one guess to where it finds an interpretation or is stuck; the
//! next one begins at a guess that is stirred. (The search is ours.)

ghost use Rattle.std.specs.Prelude.{◌<◌};
ghost use Rattle.wh_poly_guesses.specs.Tasks.{IsGuessOf, IsTaskOf};

use crate::state::{Aim, Change, State, changes_for};
use std::alloc::{AllocError, Global};
use wh_poly_guesses::{Guess, Outcome, change_at, outcome_of};
use wh_reduction_pairs::Task;

/// The outcome of a change that was tried.
#[derive(Clone, Copy)]
enum Trial {
    /// The change is made.
    Taken,
    /// The change is not made. It does not better what the step aims at, or it waits.
    Useless,
    /// The change is not made. It would give this score.
    Worse(u64),
}

/// The least change of those that give no better score.
#[derive(Clone, Copy)]
struct Least {
    change: Change,
    score: u64,
}

/// Climbs from the guess on until an interpretation is found or the looks are spent. The answer says whether the guess
/// is an interpretation.
pub fn climb_from<'a>(
    alloc: Global,
    task: &Task<'a>,
    guess: &mut Guess,
    state: &mut State,
    limit: u64,
) -> Result<bool, AllocError>
    requires task { IsTaskOf task.now }
    requires guess { IsGuessOf task.now guess.old }
    ensures { IsGuessOf task.now guess.new }
{
    renew_all(alloc, task, guess, state)?;
    state.keep_best(alloc)?;
    'rounds: for _ in 0..limit {
        if round(alloc, task, guess, state)? {
            read_all(alloc, task, guess, state)?;
            return Ok(true);
        }
        state.keep_best(alloc)?;
        if state.left == 0 {
            return Ok(false);
        }
        state.stir();
        renew_all(alloc, task, guess, state)?;
    }
    Ok(false)
}

// One round from a guess that is evaluated; whether it found an interpretation.
fn round<'a>(
    alloc: Global,
    task: &Task<'a>,
    guess: &mut Guess,
    state: &mut State,
) -> Result<bool, AllocError>
    requires task { IsTaskOf task.now }
    requires guess { IsGuessOf task.now guess.old }
    ensures { IsGuessOf task.now guess.new }
{
    let steps = state.count().saturating_mul(3).saturating_add(60);
    for number in 0..steps {
        if state.score() == 0 {
            return Ok(true);
        }
        if state.left == 0 || !step(alloc, task, guess, state, number)? {
            return Ok(false);
        }
    }
    Ok(state.score() == 0)
}

// One step: the first change that betters the score, else the one that worsens it least, else any. `false` where the
// round ends.
fn step<'a>(
    alloc: Global,
    task: &Task<'a>,
    guess: &mut Guess,
    state: &mut State,
    number: u64,
) -> Result<bool, AllocError>
    requires task { IsTaskOf task.now }
    requires guess { IsGuessOf task.now guess.old }
    ensures { IsGuessOf task.now guess.new }
{
    let aim = state.aim(alloc)?;
    let changes = changes_for(alloc, state, &aim)?;
    let mut least: Option<Least> = None;
    for change in &changes {
        match try_change(alloc, task, guess, state, &aim, *change, number)? {
            Trial::Taken => return Ok(true),
            Trial::Useless => {}
            Trial::Worse(score) => least = lesser(least, *change, score),
        }
        if state.left == 0 {
            return Ok(false);
        }
    }
    match fallback(state, &aim, least, &changes) {
        Some(change) => {
            take(alloc, task, guess, state, change, number)?;
            Ok(true)
        }
        None => Ok(false),
    }
}

// The one with the lesser score.
fn lesser(least: Option<Least>, change: Change, score: u64) -> Option<Least> {
    match least {
        Some(old) if old.score <= score => Some(old),
        _ => Some(Least { change, score }),
    }
}

// What to do where no change betters the score; nothing, with chance one half, where all conditions are met.
fn fallback(
    state: &mut State,
    aim: &Aim,
    least: Option<Least>,
    changes: &[Change],
) -> Option<Change> {
    if let Some(found) = least {
        return Some(found.change);
    }
    if aim.met && state.choose(2) == 0 {
        return None;
    }
    changes.first().copied()
}

// Tries the change: it is made where it betters what the step aims at and the score, and does not wait.
fn try_change<'a>(
    alloc: Global,
    task: &Task<'a>,
    guess: &mut Guess,
    state: &mut State,
    aim: &Aim,
    change: Change,
    number: u64,
) -> Result<Trial, AllocError>
    requires task { IsTaskOf task.now }
    requires guess { IsGuessOf task.now guess.old }
    ensures { IsGuessOf task.now guess.new }
{
    let old = state.reverse(change);
    state.set(change);
    if !helps(alloc, task, guess, state, aim)? {
        state.set(old);
        return Ok(Trial::Useless);
    }
    let score = state.score();
    let held = state.holders_of(alloc, change.number)?;
    let before = state.outcomes_of(alloc, &held)?;
    renew(alloc, task, guess, state, &held)?;
    let new = state.score();
    let waits = state.waits(change, number);
    if new == 0 || (new < score && !waits) {
        state.delay(old, number)?;
        return Ok(Trial::Taken);
    }
    state.restore(&held, &before);
    state.set(old);
    Ok(if waits {
        Trial::Useless
    } else {
        Trial::Worse(new)
    })
}

// Makes the change, whether it betters the score or not.
fn take<'a>(
    alloc: Global,
    task: &Task<'a>,
    guess: &mut Guess,
    state: &mut State,
    change: Change,
    number: u64,
) -> Result<(), AllocError>
    requires task { IsTaskOf task.now }
    requires guess { IsGuessOf task.now guess.old }
    ensures { IsGuessOf task.now guess.new }
{
    let old = state.reverse(change);
    state.set(change);
    let held = state.holders_of(alloc, change.number)?;
    renew(alloc, task, guess, state, &held)?;
    state.delay(old, number)
}

// Whether the guess betters one of the goals.
fn helps<'a>(
    alloc: Global,
    task: &Task<'a>,
    guess: &mut Guess,
    state: &mut State,
    aim: &Aim,
) -> Result<bool, AllocError>
    requires task { IsTaskOf task.now }
    requires guess { IsGuessOf task.now guess.old }
    ensures { IsGuessOf task.now guess.new }
{
    for goal in &aim.goals {
        let outcome = look(alloc, task, guess, state, *goal)?;
        let before = state.outcome(*goal);
        if (aim.met && outcome.strict) || (!aim.met && outcome.wanting < before.wanting) {
            return Ok(true);
        }
    }
    Ok(false)
}

// Looks at the conditions anew.
fn renew<'a>(
    alloc: Global,
    task: &Task<'a>,
    guess: &mut Guess,
    state: &mut State,
    conditions: &[usize],
) -> Result<(), AllocError>
    requires task { IsTaskOf task.now }
    requires guess { IsGuessOf task.now guess.old }
    ensures { IsGuessOf task.now guess.new }
{
    for condition in conditions {
        let outcome = look(alloc, task, guess, state, *condition)?;
        state.put(*condition, outcome);
    }
    Ok(())
}

// Looks at all conditions.
fn renew_all<'a>(
    alloc: Global,
    task: &Task<'a>,
    guess: &mut Guess,
    state: &mut State,
) -> Result<(), AllocError>
    requires task { IsTaskOf task.now }
    requires guess { IsGuessOf task.now guess.old }
    ensures { IsGuessOf task.now guess.new }
{
    for condition in 0..state.outcomes.len() {
        let outcome = look(alloc, task, guess, state, condition)?;
        state.put(condition, outcome);
    }
    Ok(())
}

// What the condition is under the coefficients. It is evaluated only where no earlier look was under the same ones.
// Each look counts, so that a climb ends also where it sees nothing new, and one that has to evaluate many abstractions
// counts as more.
fn look<'a>(
    alloc: Global,
    task: &Task<'a>,
    guess: &mut Guess,
    state: &mut State,
    condition: usize,
) -> Result<Outcome, AllocError>
    requires task { IsTaskOf task.now }
    requires guess { IsGuessOf task.now guess.old }
    ensures { IsGuessOf task.now guess.new }
{
    state.spend();
    let case = state.case_of(alloc, condition)?;
    if let Some(outcome) = state.known.get(&case) {
        return Ok(outcome);
    }
    read_sides(alloc, task, guess, state, condition)?;
    let outcome = outcome_of(alloc, task, guess, condition)?;
    state.spend_more(condition);
    state.known.learn(case, outcome)?;
    Ok(outcome)
}

// What stands on the sides of the condition is read by its coefficients.
fn read_sides<'a>(
    alloc: Global,
    task: &Task<'a>,
    guess: &mut Guess,
    state: &mut State,
    condition: usize,
) -> Result<(), AllocError>
    requires { IsGuessOf task.now guess.old }
    ensures { IsGuessOf task.now guess.new }
{
    for number in &state.numbers_in(alloc, condition)? {
        if state.is_due(*number) {
            read_at(alloc, task, guess, state, *number)?;
        }
    }
    Ok(())
}

// What has the number is read by its coefficients.
fn read_at<'a>(
    alloc: Global,
    task: &Task<'a>,
    guess: &mut Guess,
    state: &State,
    number: usize,
) -> Result<(), AllocError>
    requires { IsGuessOf task.now guess.old }
    ensures { IsGuessOf task.now guess.new }
{
    match state.coefficients.get(number) {
        Some(list) => change_at(alloc, task, guess, number, list),
        None => Ok(()),
    }
}

// Everything is read by the coefficients.
fn read_all<'a>(
    alloc: Global,
    task: &Task<'a>,
    guess: &mut Guess,
    state: &State,
) -> Result<(), AllocError>
    requires { IsGuessOf task.now guess.old }
    ensures { IsGuessOf task.now guess.new }
{
    for (number, list) in state.coefficients.iter().enumerate() {
        change_at(alloc, task, guess, number, list)?;
    }
    Ok(())
}
