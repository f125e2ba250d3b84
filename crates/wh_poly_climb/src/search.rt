//! The call of a climb for a set, and its answer.

ghost use Rattle.std.specs.Prelude.{◌≤◌, IfOk, length};
ghost use Rattle.wh_types.specs.Limits.{most_pairs};
ghost use Rattle.wh_pairs.specs.Marked.{AreMarked};
ghost use Rattle.wh_reduction_pairs.specs.TaskView.{task_data};
ghost use Rattle.wh_poly_guesses.specs.Tasks.{IsTaskOf};
ghost use Rattle.wh_poly_climb.specs.Climbs.{IsClimb};

use crate::burdens::burdens_of;
use crate::climbing::climb_from;
use crate::holders::holders_of;
use crate::known::Known;
use crate::state::{State, copy_lists};
use std::alloc::{AllocError, Global};
use std::collections::VecDeque;
use wh_cert::Node;
use wh_poly_guesses::{Outcome, Weighing, arguments_of, guess_by, node_of_guess, uses_of};
use wh_poly_space::{Random, Spot, spots_of};
use wh_polycheck::kind_of_mark;
use wh_reduction_pairs::Task;
use wh_system::System;
use wh_types::SimpleType;

/// The end of a climb.
#[derive(Drop)]
pub enum Climbed {
    /// The node of interpretations.
    Found(Node),
    /// The coefficients of the best guess, a list for each symbol and then for each marked symbol. They say nothing:
    /// the climb may miss what is there.
    Best(Vec<Vec<u8>>),
}

/// Looks for interpretations under which no rule and no pair of the set grows and some pair shrinks, by climbing from
/// one first guess (the reduction pair processor of Kop 2012 with the polynomials of Fuhs and Kop 2012; the search is
/// ours).
///
/// All pairs that are covered strictly are dropped. `marked` are the marked symbols of the set. `limit` bounds how
/// often a condition is looked at.
pub fn climb<'a>(
    alloc: Global,
    task: &Task<'a>,
    marked: &[u32],
    limit: u64,
) -> Result<Climbed, AllocError>
    requires few { length task.now.pairs.now ≤ most_pairs }
    requires task { IsTaskOf task.now }
    requires marked { AreMarked (task_data task.now).pairs (task_data task.now).set marked.now }
    ensures { IfOk result (IsClimb task.now) }
{
    let mut state = first_state(alloc, task, marked, limit)?;
    let mut guess = guess_by(alloc, task, marked, &state.coefficients)?;
    if climb_from(alloc, task, &mut guess, &mut state, limit)? {
        if let Weighing::Found(node) = node_of_guess(alloc, task, &guess)? {
            return Ok(Climbed::Found(node));
        }
    }
    Ok(Climbed::Best(state.into_best()))
}

// Where a climb begins.
fn first_state<'a>(
    alloc: Global,
    task: &Task<'a>,
    marked: &[u32],
    limit: u64,
) -> Result<State, AllocError>
    requires task { IsTaskOf task.now }
    requires marked { AreMarked (task_data task.now).pairs (task_data task.now).set marked.now }
{
    let uses = uses_of(alloc, task, marked)?;
    let count = task.system.fun_names().len().saturating_add(marked.len());
    let holders = holders_of(alloc, &uses, count)?;
    let coefficients = first_coefficients(alloc, task.system, marked, &holders)?;
    let outcomes = unmet(alloc, uses.len())?;
    let best = copy_lists(alloc, &coefficients)?;
    let changed = vec![in alloc; false; coefficients.len()]?;
    Ok(State {
        rules: task.covered.len(),
        uses,
        holders,
        coefficients,
        changed,
        outcomes,
        known: Known::new(alloc),
        waiting: VecDeque::new(alloc),
        random: Random::new(),
        burdens: burdens_of(alloc, task)?,
        left: limit,
        best,
        least: u64::MAX,
    })
}

// `count` outcomes of conditions that are not evaluated yet.
fn unmet(alloc: Global, count: usize) -> Result<Vec<Outcome>, AllocError> {
    let mut outcomes = Vec::new(alloc);
    for _ in 0..count {
        outcomes.push(Outcome {
            wanting: 1,
            strict: false,
        })?;
    }
    Ok(outcomes)
}

// The first guess: a symbol in no condition is 0; each other one, and each marked one, is the sum of its arguments, and
// 1 more where it has arguments and no rules.
fn first_coefficients(
    alloc: Global,
    system: &System,
    marked: &[u32],
    holders: &[Vec<usize>],
) -> Result<Vec<Vec<u8>>, AllocError> {
    let mut coefficients = Vec::new(alloc);
    for (number, kind) in system.signature().funs.as_slice().iter().enumerate() {
        if is_held(holders, number) {
            let constant = is_constructor(system, number);
            coefficients.push(first_of_kind(alloc, kind, constant)?)?;
        } else {
            coefficients.push(Vec::new(alloc))?;
        }
    }
    for symbol in marked {
        let kind = kind_of_mark(alloc, system, *symbol)?;
        coefficients.push(first_of_kind(alloc, &kind, false)?)?;
    }
    Ok(coefficients)
}

// Whether some condition has the number on a side.
fn is_held(holders: &[Vec<usize>], number: usize) -> bool {
    match holders.get(number) {
        Some(list) => !list.is_empty(),
        None => false,
    }
}

// Whether the symbol has no rules.
fn is_constructor(system: &System, number: usize) -> bool {
    match u32::try_from(number) {
        Ok(symbol) => system.need(symbol).is_none(),
        Err(_) => true,
    }
}

// The first coefficients for a type: each variable once, products not; and 1 more where that is asked and there are
// variables.
fn first_of_kind(alloc: Global, kind: &SimpleType, constant: bool) -> Result<Vec<u8>, AllocError> {
    let scope = arguments_of(alloc, kind)?;
    let spots = spots_of(alloc, &scope)?;
    let mut coefficients = Vec::new(alloc);
    for spot in &spots {
        coefficients.push(match spot {
            Spot::Constant => u8::from(constant && !scope.is_empty()),
            Spot::One(_) => 1,
            Spot::Two(_, _) => 0,
        })?;
    }
    Ok(coefficients)
}
