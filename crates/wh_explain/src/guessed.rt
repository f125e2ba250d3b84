//! The interpretation that the search came to first, by a climb, for pairs of which none was dropped: what it
//! covers and what not.

ghost use Rattle.std.specs.Prelude.{◌≤◌, ◌<◌, All, length};
ghost use Rattle.wh_types.specs.Limits.{most_pairs};
ghost use Rattle.wh_system.specs.SystemView.{system_data};
ghost use Rattle.wh_pairs.specs.Marked.{AreMarked};
ghost use Rattle.wh_pairs.specs.SystemPairs.{HasPairs};
ghost use Rattle.wh_pairs.specs.Views.{pairs_data};
ghost use Rattle.wh_reduction_pairs.specs.TaskView.{task_data};
ghost use Rattle.wh_poly_guesses.specs.Tasks.{IsGuessOf, IsTaskOf};

use std::alloc::{AllocError, Global};
use wh_pairs::{PairSet, marked_symbols};
use wh_poly_climb::{Climbed, climb};
use wh_poly_guesses::{Guess, guess_by, outcome_of};
use wh_polycheck::MarkedSymbol;
use wh_reduction_pairs::{Task, all_rules};
use wh_system::System;
use wh_tell::Piece::{Named, Sum};
use wh_tell::{Text, names_of_system, number_of, put_pair_line, put_rule_line, tell_line};
use wh_top_judging::Problem;

// How many rules and pairs the climb looks at.
const LOOKS: u64 = 30_000;

/// Appends the best guess of a climb, and the rules and pairs that it does not cover.
pub fn put_best_guess(
    alloc: Global,
    text: &mut Text,
    problem: &Problem,
    set: &PairSet,
) -> Result<(), AllocError>
    requires pairs { HasPairs (system_data problem.now.system) (pairs_data problem.now.pairs) }
    requires set { All (λ n. n < length problem.now.pairs) set.now }
{
    let covered = all_rules(alloc, &problem.system)?;
    let task = Task {
        system: &problem.system,
        pairs: problem.pairs.as_slice(),
        set: set.as_slice(),
        covered: &covered,
    };
    problem.system.is_well_made();
    let marked = marked_symbols(alloc, &problem.pairs, set)?;
    put_climbed(alloc, text, &task, &marked)
}

// Appends the best guess for a task, with the marked symbols of its set.
fn put_climbed<'a>(
    alloc: Global,
    text: &mut Text,
    task: &Task<'a>,
    marked: &'a [u32],
) -> Result<(), AllocError>
    requires few { length task.now.pairs.now ≤ most_pairs }
    requires task { IsTaskOf task.now }
    requires marked { AreMarked (task_data task.now).pairs (task_data task.now).set marked.now }
{
    match climb(alloc, task, marked, LOOKS)? {
        Climbed::Found(_) => {
            text.say("A short search finds an interpretation that drops a pair.\n");
            Ok(())
        }
        Climbed::Best(lists) => {
            let guess = guess_by(alloc, task, marked, &lists)?;
            put_guess(text, task.system, &guess);
            put_uncovered(alloc, text, task, &guess)
        }
    }
}

// Appends what symbols are read as.
fn put_guess<'a>(text: &mut Text, system: &'a System, guess: &'a Guess) {
    let names = names_of_system(system);
    text.say("An interpretation that a short search comes to:\n");
    for (number, symbol) in guess.symbols.iter().enumerate() {
        let name = Named(names.funs, number_of(number));
        tell_line(text, 1, "@ is @", &[name, Sum(&symbol.poly)]);
    }
    put_marks(text, system, &guess.marks);
}

// Appends what marked symbols are read as.
fn put_marks<'a>(text: &mut Text, system: &'a System, marks: &'a [MarkedSymbol]) {
    let names = names_of_system(system);
    for mark in marks {
        let name = Named(names.funs, mark.symbol);
        tell_line(text, 1, "@# is @", &[name, Sum(&mark.poly)]);
    }
}

// Appends the rules and pairs that are not covered under the guess, and that no pair is covered strictly where
// that is so.
fn put_uncovered<'a>(
    alloc: Global,
    text: &mut Text,
    task: &Task<'a>,
    guess: &Guess,
) -> Result<(), AllocError>
    requires task { IsTaskOf task.now }
    requires guess { IsGuessOf task.now guess.now }
{
    text.say("What it leaves open:\n");
    for (number, rule) in task.covered.iter().enumerate() {
        if outcome_of(alloc, task, guess, number)?.wanting > 0 {
            put_rule_line(text, task.system, *rule, 1);
        }
    }
    if !put_uncovered_pairs(alloc, text, task, guess)? {
        text.say("  no pair is worth less on the right side, and one has to be\n");
    }
    text.say("This says nothing of other interpretations.\n");
    Ok(())
}

// Appends the pairs that are not covered under the guess, and says whether some pair is covered strictly.
fn put_uncovered_pairs<'a>(
    alloc: Global,
    text: &mut Text,
    task: &Task<'a>,
    guess: &Guess,
) -> Result<bool, AllocError>
    requires task { IsTaskOf task.now }
    requires guess { IsGuessOf task.now guess.now }
{
    let mut strict = false;
    for (place, number) in task.set.iter().enumerate() {
        let condition = place.saturating_add(task.covered.len());
        let outcome = outcome_of(alloc, task, guess, condition)?;
        strict = strict || outcome.strict;
        if outcome.wanting > 0 {
            if let Some(pair) = task.pairs.get(*number as usize) {
                put_pair_line(text, task.system, *number, pair, 1);
            }
        }
    }
    Ok(strict)
}
