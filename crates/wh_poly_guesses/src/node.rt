//! From a guess to a node of interpretations, or to a condition that fails under it.

ghost use Rattle.std.specs.Prelude.{◌+◌, ◌≡◌, ◌≢◌, ◌≤◌, [], IfOk, length, map};
ghost use Rattle.wh_types.specs.Limits.{most_pairs};
ghost use Rattle.wh_reduction_pairs.specs.TaskView.{task_data};
ghost use Rattle.wh_hopoly.specs.Erase.{transfers};
ghost use Rattle.wh_polycheck.specs.Covering.{IsTypedTask};
ghost use Rattle.wh_polycheck.specs.ReadingsView.{readings_data};
ghost use Rattle.wh_poly_guesses.specs.Coefficients.{AreOfSpace};
ghost use Rattle.wh_poly_guesses.specs.Lines.{AreLinesOfPairs, AreRuleLines};
ghost use Rattle.wh_poly_guesses.specs.Tasks.{IsGuessOf, IsTaskOf, guess_data};
ghost use Rattle.wh_poly_guesses.specs.Weighing.{AreRulesOf, Weighs, WeighsOver};

use crate::guess::Guess;
use crate::lines::{PairLines, pair_lines, rule_lines};
use std::alloc::{AllocError, Global};
use wh_cert::{Node, PolyNode};
use wh_hopoly::Covers;
use wh_polycheck::Readings;
use wh_proof::{lines_of_marks, lines_of_symbols};
use wh_reduction_pairs::Task;
use wh_types::{Numbers, Or};

/// The outcome of a guess.
#[derive(Drop)]
pub enum Weighing {
    /// All conditions hold: the node of the guess.
    Found(Node),
    /// The number of a condition that fails.
    Failing(usize),
}

/// The node of the guess, if under it moves cover every rule and every pair of the set, and some pair strictly; else a
/// condition that fails. All pairs that are covered strictly are dropped.
pub fn node_of_guess<'a>(
    alloc: Global,
    task: &Task<'a>,
    guess: &Guess,
) -> Result<Weighing, AllocError>
    requires few { length task.now.pairs.now ≤ most_pairs }
    requires task { IsTaskOf task.now }
    requires guess { IsGuessOf task.now guess.now }
    ensures { IfOk result (Weighs task.now (guess_data guess.now)) }
{
    let readings = guess.readings();
    weighed(alloc, task, None, &readings)
}

/// The node of a guess that lists these rules, which are closed for the set; with no list it covers all rules.
pub fn listing_node_of_guess<'a>(
    alloc: Global,
    task: &Task<'a>,
    usable: Option<Numbers>,
    guess: &Guess,
) -> Result<Weighing, AllocError>
    requires few { length task.now.pairs.now ≤ most_pairs }
    requires task { IsTypedTask (task_data task.now) }
    requires usable { AreRulesOf task.now usable }
    requires guess { IsGuessOf task.now guess.now }
    ensures { IfOk result (WeighsOver task.now usable (guess_data guess.now)) }
{
    let readings = guess.readings();
    weighed(alloc, task, usable, &readings)
}

// The outcome of readings; the node lists these rules, or none.
fn weighed<'a, 'b>(
    alloc: Global,
    task: &Task<'a>,
    usable: Option<Numbers>,
    readings: &Readings<'b>,
) -> Result<Weighing, AllocError>
    requires few { length task.now.pairs.now ≤ most_pairs }
    requires task { IsTypedTask (task_data task.now) }
    requires usable { AreRulesOf task.now usable }
    requires readings { AreOfSpace (task_data task.now) (readings_data readings.now) }
    ensures { IfOk result (WeighsOver task.now usable (readings_data readings.now)) }
{
    let rules = match rule_lines(alloc, task, readings) {
        Ok(lines) => lines,
        Err(Or::Because(place)) => return Ok(Weighing::Failing(place)),
        Err(Or::NoMemory) => return Err(AllocError),
    };
    let found = match pair_lines(alloc, task, readings) {
        Ok(found) => found,
        Err(Or::Because(place)) => return Ok(Weighing::Failing(number_of_pair(task, place))),
        Err(Or::NoMemory) => return Err(AllocError),
    };
    if found.drop.as_slice().is_empty() {
        return Ok(Weighing::Failing(number_of_pair(task, task.set.len())));
    }
    node_with(alloc, task, usable, readings, rules, found)
}

// The number of the condition of the pair with this place in the set, and behind these of the last condition.
fn number_of_pair<'a>(task: &Task<'a>, place: usize) -> usize
    requires { place ≤ length task.now.set.now }
    ensures { result ≡ length (task_data task.now).covered + place }
{
    task.covered.len() + place
}

// The node with these lines.
fn node_with<'a, 'b>(
    alloc: Global,
    task: &Task<'a>,
    usable: Option<Numbers>,
    readings: &Readings<'b>,
    rules: Covers,
    found: PairLines,
) -> Result<Weighing, AllocError>
    requires few { length task.now.pairs.now ≤ most_pairs }
    requires task { IsTypedTask (task_data task.now) }
    requires usable { AreRulesOf task.now usable }
    requires readings { AreOfSpace (task_data task.now) (readings_data readings.now) }
    requires rules { AreRuleLines (task_data task.now) (readings_data readings.now) (map transfers rules) }
    requires pairs { AreLinesOfPairs (task_data task.now) (readings_data readings.now) found }
    requires some { found.drop ≢ [] }
    ensures { IfOk result (WeighsOver task.now usable (readings_data readings.now)) }
{
    task.system.is_well_made();
    let names = task.system.fun_names();
    let funs = lines_of_symbols(alloc, names, readings.symbols)?;
    let marks = lines_of_marks(alloc, names, readings.marks)?;
    let PairLines { lines, drop } = found;
    let node = PolyNode {
        usable,
        funs,
        marks,
        rules,
        pairs: lines,
        drop,
    };
    Ok(Weighing::Found(Node::Poly(Box::new(alloc, node)?)))
}
