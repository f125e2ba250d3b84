//! Nodes of path orders: the sides of rules and pairs are filtered, and each inference is put into words.

ghost use Rattle.std.specs.Prelude.{◌<◌, All, Contains, IfOk, IsTrue, length, map};
ghost use Rattle.wh_system.specs.SystemView.{system_data};
ghost use Rattle.wh_pairs.specs.PairData.{PairData};
ghost use Rattle.wh_pairs.specs.SystemPairs.{HasPairs};
ghost use Rattle.wh_pairs.specs.Views.{pairs_data};
ghost use Rattle.wh_polycheck.specs.Covering.{IsTypedTask};
ghost use Rattle.wh_reduction_pairs.specs.TaskView.{task_data};
ghost use Rattle.wh_order.specs.TreeSides.{AreFilters, HasTypedCalls};
ghost use Rattle.wh_order_node.specs.Filterings.{AreFiltersFor};
ghost use Rattle.wh_order_node.specs.FilteringView.{filtering_data};
ghost use Rattle.wh_cert.specs.Said.{said_filter};
ghost use Rattle.wh_checker.specs.Faults.{SayOrdering};
ghost use Rattle.wh_tell_nodes.specs.Later.{LeavesProper};

use std::alloc::{AllocError, Global};
use wh_cert::OrderNode;
use wh_order::{TooWide, filtered_pair, filtered_rule};
use wh_order_check::{Inferred, OrderingFault, check_ordering};
use wh_order_inference::Inference;
use wh_order_node::Filters;
use wh_order_trees::Tree;
use wh_pairs::PairSet;
use wh_poly_meaning::pairs_have_marked_sides;
use wh_proof::filters_of_lines;
use wh_reduction_pairs::{Task, all_rules};
use wh_tell::{Names, Text, names_of_rule, put_pair_line, put_rule_line, tell_line};
use wh_tell_parts::{Comparison, is_within, put_dropped, put_filters, put_inferred};
use wh_top_judging::Problem;
use wh_types::{Or, is_in};

// The words about lines that don't name what they have to name.
const NO_FILTERS: &str =
    "These lines don't name each symbol and each marked symbol of the pairs once, in order, so no sides are compared.";

/// Appends how symbols are filtered, the inferences of each rule and pair, and which pairs are dropped.
pub fn put_order(
    alloc: Global,
    text: &mut Text,
    problem: &Problem,
    set: &PairSet,
    node: &OrderNode,
    depth: u32,
) -> Result<(), AllocError>
    requires { HasPairs (system_data problem.now.system) (pairs_data problem.now.pairs) }
{
    let words =
        "Path order: terms are compared by their symbols, of which some arguments are kept.";
    tell_line(text, depth, words, &[]);
    put_filters(text, "", node.funs.as_slice(), depth.saturating_add(1));
    put_filters(text, "#", node.marks.as_slice(), depth.saturating_add(1));
    if is_within(set, problem.pairs.as_slice().len()) {
        put_inferences(alloc, text, problem, set, node, depth)?;
    }
    put_dropped(text, node.drop.as_slice(), depth);
    Ok(())
}

// Appends the inferences of each line, where the lines of the node name what they have to name.
fn put_inferences(
    alloc: Global,
    text: &mut Text,
    problem: &Problem,
    set: &PairSet,
    node: &OrderNode,
    depth: u32,
) -> Result<(), AllocError>
    requires pairs { HasPairs (system_data problem.now.system) (pairs_data problem.now.pairs) }
    requires set { All (λ n. n < length problem.now.pairs) set.now }
{
    let system = &problem.system;
    system.is_well_made();
    pairs_have_marked_sides();
    let funs = node.funs.as_slice();
    let marks = node.marks.as_slice();
    let Some(filters) = filters_of_lines(alloc, system, &problem.pairs, set, funs, marks)? else {
        tell_line(text, depth, NO_FILTERS, &[]);
        return Ok(());
    };
    let covered = all_rules(alloc, system)?;
    let task = Task {
        system,
        pairs: problem.pairs.as_slice(),
        set: set.as_slice(),
        covered: &covered,
    };
    put_under(alloc, text, &task, &filters, node, depth)
}

// Appends what the sides are behind the filters that the lines of the node say, and how they compare.
fn put_under<'a>(
    alloc: Global,
    text: &mut Text,
    task: &Task<'a>,
    filters: &Filters,
    node: &OrderNode,
    depth: u32,
) -> Result<(), AllocError>
    requires task { IsTypedTask (task_data task.now) }
    requires says { SayOrdering (system_data task.now.system.now) (pairs_data task.now.pairs.now) task.now.set.now
        (map said_filter node.now.funs) (map said_filter node.now.marks) (filtering_data filters.now) }
{
    task.system.is_well_made();
    let proper = are_proper(alloc, task, filters, node)?;
    if proper {
        put_rules(alloc, text, task, filters, node, depth)?;
        put_pairs(alloc, text, task, filters, node, depth)
    } else {
        let words = "Not all of these filters are proper, so sides can't be compared.";
        tell_line(text, depth, words, &[]);
        Ok(())
    }
}

// Whether the filters are proper: a check of the node finds anything else that is wrong later.
fn are_proper<'a>(
    alloc: Global,
    task: &Task<'a>,
    filters: &Filters,
    node: &OrderNode,
) -> Result<bool, AllocError>
    requires task { IsTypedTask (task_data task.now) }
    requires filters { AreFiltersFor (task_data task.now) (filtering_data filters.now) }
    ensures { IfOk result (λ b. IsTrue b
        → AreFilters (task_data task.now).symbols (task_data task.now).rules (filtering_data filters.now)) }
{
    let inferred = Inferred {
        rules: node.rules.as_slice(),
        pairs: node.pairs.as_slice(),
        drop: node.drop.as_slice(),
    };
    match check_ordering(alloc, task, filters, &inferred) {
        Ok(()) => Ok(true),
        Err(Or::NoMemory) => Err(AllocError),
        Err(Or::Because(fault)) => Ok(comes_later(&fault)),
    }
}

// Whether the fault is one that is found behind the filters, which are proper then.
fn comes_later(fault: &OrderingFault) -> bool
    ensures { IsTrue result → LeavesProper fault.now }
{
    match fault {
        OrderingFault::BadFilter { .. } => false,
        _ => true,
    }
}

// Appends each rule.
fn put_rules<'a>(
    alloc: Global,
    text: &mut Text,
    task: &Task<'a>,
    filters: &Filters,
    node: &OrderNode,
    depth: u32,
) -> Result<(), AllocError>
    requires filters { AreFilters (task_data task.now).symbols (task_data task.now).rules (filtering_data filters.now) }
    requires rules { All (λ n. n < length (task_data task.now).rules) (task_data task.now).covered }
{
    for i in 0..task.covered.len() {
        let rule = task.covered[i];
        let left = side(filtered_rule(alloc, task.system, filters, rule, false))?;
        let right = side(filtered_rule(alloc, task.system, filters, rule, true))?;
        put_rule_line(text, task.system, rule, depth);
        let names = names_of_rule(task.system, rule);
        let line = node.rules.as_slice().get(i);
        put_line(text, &names, compared(&left, &right, false), line, depth);
    }
    Ok(())
}

// Appends each pair of the set.
fn put_pairs<'a>(
    alloc: Global,
    text: &mut Text,
    task: &Task<'a>,
    filters: &Filters,
    node: &OrderNode,
    depth: u32,
) -> Result<(), AllocError>
    requires filters { AreFilters (task_data task.now).symbols (task_data task.now).rules (filtering_data filters.now) }
    requires task { IsTypedTask (task_data task.now) }
    requires calls { (p : PairData) → Contains (task_data task.now).pairs p
        → HasTypedCalls (task_data task.now).symbols (task_data task.now).rules p }
{
    for i in 0..task.set.len() {
        let number = task.set[i];
        let pair = &task.pairs[number as usize];
        let left = side(filtered_pair(alloc, task.system, filters, pair, false))?;
        let right = side(filtered_pair(alloc, task.system, filters, pair, true))?;
        put_pair_line(text, task.system, number, pair, depth);
        let names = names_of_rule(task.system, pair.rule);
        let line = node.pairs.as_slice().get(i);
        let greater = is_in(node.drop.as_slice(), number);
        put_line(text, &names, compared(&left, &right, greater), line, depth);
    }
    Ok(())
}

// Appends the inferences of a line, where there are both sides and the line.
fn put_line(
    text: &mut Text,
    names: &Names<'_>,
    sides: Option<Comparison<'_>>,
    line: Option<&Inference>,
    depth: u32,
) {
    let inner = depth.saturating_add(1);
    match (sides, line) {
        (Some(sides), Some(line)) => put_inferred(text, names, sides, line, inner),
        _ => {
            let words = "there is no line for it, or a side has too many nodes";
            tell_line(text, inner, words, &[]);
        }
    }
}

// What is compared, where there are both sides.
fn compared<'a>(
    left: &'a Option<Tree>,
    right: &'a Option<Tree>,
    greater: bool,
) -> Option<Comparison<'a>> {
    match (left, right) {
        (Some(left), Some(right)) => Some(Comparison {
            left,
            right,
            greater,
        }),
        _ => None,
    }
}

// A side, if it is not too wide.
fn side(made: Result<Tree, Or<TooWide>>) -> Result<Option<Tree>, AllocError> {
    match made {
        Ok(tree) => Ok(Some(tree)),
        Err(Or::NoMemory) => Err(AllocError),
        Err(Or::Because(_)) => Ok(None),
    }
}
