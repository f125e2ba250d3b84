//! Nodes of interpretations: the sides of rules and pairs are evaluated under the polynomials of the node, and each
//! line is put into words.

ghost use Rattle.std.specs.Prelude.{◌≡◌, ◌<◌, ℕ, All, Contains, IfOk, IsTrue, Some, length, map, slice_get};
ghost use Rattle.wh_system.specs.SystemView.{system_data};
ghost use Rattle.wh_pairs.specs.PairData.{IsIncreasing, PairData};
ghost use Rattle.wh_pairs.specs.SystemPairs.{HasPairs};
ghost use Rattle.wh_pairs.specs.Views.{pairs_data};
ghost use Rattle.wh_polycheck.specs.Covering.{IsTypedTask};
ghost use Rattle.wh_polycheck.specs.Marks.{HasMarkedSides};
ghost use Rattle.wh_polycheck.specs.Readings.{AreNormal, AreProper, AreReadingsFor};
ghost use Rattle.wh_polycheck.specs.ReadingsView.{readings_data};
ghost use Rattle.wh_reduction_pairs.specs.TaskView.{task_data};
ghost use Rattle.wh_cert.specs.Said.{said_interp};
ghost use Rattle.wh_checker.specs.Faults.{SayCovering};
ghost use Rattle.wh_tell_nodes.specs.Later.{LeavesNormal};

use std::alloc::{AllocError, Global};
use wh_cert::PolyNode;
use wh_pairs::PairSet;
use wh_poly_covering::{CoveringFault, Evidence, check_covering};
use wh_poly_guesses::{pair_side, rule_side};
use wh_poly_meaning::pairs_have_marked_sides;
use wh_polycheck::{Readings, interpretations_in_order_interpret};
use wh_proof::{marks_of_set, rules_to_cover, symbols_of};
use wh_reduction_pairs::Task;
use wh_tell::{Text, put_numbers, tell_line};
use wh_tell_parts::{
    Valued, is_within, put_dropped, put_pair_values, put_readings, put_rule_values,
};
use wh_top_judging::Problem;
use wh_types::{Or, is_in};

// The words about lines that don't name what they have to name.
const NO_LIST: &str =
    "These are not the numbers of rules, each above the one before it, so sides are not told.";

const NO_READINGS: &str =
    "These lines don't name each symbol and each marked symbol of the pairs once, in order, so sides have no values.";

/// Appends the polynomials of symbols, the values of both sides of each rule and pair, and which pairs are dropped.
pub fn put_interpretation(
    alloc: Global,
    text: &mut Text,
    problem: &Problem,
    set: &PairSet,
    node: &PolyNode,
    depth: u32,
) -> Result<(), AllocError>
    requires { HasPairs (system_data problem.now.system) (pairs_data problem.now.pairs) }
{
    let words =
        "Interpretation: each symbol is read as a polynomial in its arguments y0, y1 and so on.";
    tell_line(text, depth, words, &[]);
    put_readings(text, "", node.funs.as_slice(), depth.saturating_add(1));
    put_readings(text, "#", node.marks.as_slice(), depth.saturating_add(1));
    if let Some(listed) = &node.usable {
        text.indent(depth);
        text.say("Only these rules are covered, since what the pairs call uses no others:");
        put_numbers(text, listed.as_slice());
        text.say("\n");
    }
    if is_within(set, problem.pairs.as_slice().len()) {
        put_values(alloc, text, problem, set, node, depth)?;
    }
    put_dropped(text, node.drop.as_slice(), depth);
    Ok(())
}

// Appends what both sides of each line are worth, where the lines of the node name what they have to name.
fn put_values(
    alloc: Global,
    text: &mut Text,
    problem: &Problem,
    set: &PairSet,
    node: &PolyNode,
    depth: u32,
) -> Result<(), AllocError>
    requires pairs { HasPairs (system_data problem.now.system) (pairs_data problem.now.pairs) }
    requires set { All (λ n. n < length problem.now.pairs) set.now }
{
    let system = &problem.system;
    system.is_well_made();
    pairs_have_marked_sides();
    let Some(rules) = rules_to_cover(alloc, system, &node.usable)? else {
        tell_line(text, depth, NO_LIST, &[]);
        return Ok(());
    };
    let Some(symbols) = symbols_of(alloc, system, node.funs.as_slice())? else {
        tell_line(text, depth, NO_READINGS, &[]);
        return Ok(());
    };
    let Some(marks) = marks_of_set(alloc, system, &problem.pairs, set, node.marks.as_slice())?
    else {
        tell_line(text, depth, NO_READINGS, &[]);
        return Ok(());
    };
    let task = Task {
        system,
        pairs: problem.pairs.as_slice(),
        set: set.as_slice(),
        covered: &rules,
    };
    let readings = Readings {
        symbols: &symbols,
        marks: &marks,
    };
    put_under(alloc, text, &task, &readings, node, depth)
}

// Appends what the sides are worth under the polynomials that the lines of the node say, and how they compare.
fn put_under<'a, 'b>(
    alloc: Global,
    text: &mut Text,
    task: &Task<'a>,
    readings: &Readings<'b>,
    node: &PolyNode,
    depth: u32,
) -> Result<(), AllocError>
    requires task { IsTypedTask (task_data task.now) }
    requires increasing { IsIncreasing (task_data task.now).covered }
    requires says { SayCovering (system_data task.now.system.now) (pairs_data task.now.pairs.now) task.now.set.now
        (map said_interp node.now.funs) (map said_interp node.now.marks) (readings_data readings.now) }
{
    interpretations_in_order_interpret();
    let normal = are_normal(alloc, task, readings, node)?;
    if normal {
        put_rules(alloc, text, task, readings, node, depth)?;
        put_pairs(alloc, text, task, readings, node, depth)
    } else {
        let words = "Not all of these polynomials are normal, so sides have no values.";
        tell_line(text, depth, words, &[]);
        Ok(())
    }
}

// Whether the polynomials of the readings are normal: a check of the node finds anything else that is wrong later.
fn are_normal<'a, 'b>(
    alloc: Global,
    task: &Task<'a>,
    readings: &Readings<'b>,
    node: &PolyNode,
) -> Result<bool, AllocError>
    requires task { IsTypedTask (task_data task.now) }
    requires increasing { IsIncreasing (task_data task.now).covered }
    requires readings { AreReadingsFor (task_data task.now) (readings_data readings.now) }
    ensures { IfOk result (λ b. IsTrue b
        → AreNormal (task_data task.now).symbols (task_data task.now).rules (readings_data readings.now)) }
{
    let evidence = Evidence {
        rules: node.rules.as_slice(),
        pairs: node.pairs.as_slice(),
        drop: node.drop.as_slice(),
    };
    match check_covering(alloc, task, readings, &evidence) {
        Ok(()) => Ok(true),
        Err(Or::NoMemory) => Err(AllocError),
        Err(Or::Because(fault)) => Ok(comes_later(&fault)),
    }
}

// Whether the fault is one that is found behind the polynomials, which are normal then.
fn comes_later(fault: &CoveringFault) -> bool
    ensures { IsTrue result → LeavesNormal fault.now }
{
    match fault {
        CoveringFault::BadPolynomial { .. } => false,
        _ => true,
    }
}

// Appends each rule that is to be covered.
fn put_rules<'a, 'b>(
    alloc: Global,
    text: &mut Text,
    task: &Task<'a>,
    readings: &Readings<'b>,
    node: &PolyNode,
    depth: u32,
) -> Result<(), AllocError>
    requires proper { AreProper (task_data task.now).symbols (task_data task.now).rules (readings_data readings.now) }
    requires rules { All (λ n. n < length (task_data task.now).rules) (task_data task.now).covered }
{
    for i in 0..task.covered.len() {
        let rule = task.covered[i];
        let left = rule_side(alloc, task.system, readings, rule, false)?;
        let right = rule_side(alloc, task.system, readings, rule, true)?;
        let valued = Valued {
            left: &left,
            right: &right,
            moves: node.rules.as_slice().get(i),
            dropped: false,
        };
        put_rule_values(text, task.system, rule, &valued, depth);
    }
    Ok(())
}

// Appends each pair of the set.
fn put_pairs<'a, 'b>(
    alloc: Global,
    text: &mut Text,
    task: &Task<'a>,
    readings: &Readings<'b>,
    node: &PolyNode,
    depth: u32,
) -> Result<(), AllocError>
    requires proper { AreProper (task_data task.now).symbols (task_data task.now).rules (readings_data readings.now) }
    requires task { IsTypedTask (task_data task.now) }
    requires sides { (n : ℕ) (p : PairData) → Contains (task_data task.now).set n → slice_get (task_data task.now).pairs n ≡ Some p
        → HasMarkedSides (task_data task.now).symbols (task_data task.now).rules (readings_data readings.now).marks p }
{
    for i in 0..task.set.len() {
        let number = task.set[i];
        let pair = &task.pairs[number as usize];
        let left = pair_side(alloc, task.system, readings, pair, false)?;
        let right = pair_side(alloc, task.system, readings, pair, true)?;
        let valued = Valued {
            left: &left,
            right: &right,
            moves: node.pairs.as_slice().get(i),
            dropped: is_in(node.drop.as_slice(), number),
        };
        put_pair_values(text, task.system, number, pair, &valued, depth);
    }
    Ok(())
}
