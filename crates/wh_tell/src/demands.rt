//! Why each sort has its rank: where a rule takes an argument out of another one, ranks are demanded to rise.

use crate::names::{names_of_rule, names_of_system, number_of};
use crate::sentence::Piece::{Named, Number, Say, Unknown};
use crate::sentence::{tell, tell_line};
use crate::spines::{argument_type, arguments_of, count_arguments, count_meta, symbol_of};
use crate::text::Text;
use std::alloc::{AllocError, Global};
use wh_system::System;
use wh_terms::{Rule, Signature, Term};
use wh_types::SimpleType;

/// A demand: the rank of a sort is to be at most the rank of another one, or below it.
#[derive(Clone, Copy)]
struct Demand {
    from: u32,
    to: u32,
    strict: bool,
    rule: u32,
    meta: u32,
    symbol: u32,
    place: u32,
}

/// Appends the rank of each sort, and what asks for it.
pub fn put_ranks(
    alloc: Global,
    text: &mut Text,
    system: &System,
    ranks: &[u32],
) -> Result<(), AllocError> {
    put_sorts(text, system, ranks);
    put_demands(alloc, text, system)
}

/// Appends which sorts are to be below which others or not above them, and which rules ask for it.
pub fn put_demands(alloc: Global, text: &mut Text, system: &System) -> Result<(), AllocError> {
    let demands = demands_of(alloc, system)?;
    if demands.is_empty() {
        tell_line(text, 1, "No rule asks that they differ.", &[]);
    }
    for demand in &demands {
        put_demand(text, system, demand);
    }
    Ok(())
}

// Appends the rank of each sort.
fn put_sorts(text: &mut Text, system: &System, ranks: &[u32]) {
    let names = names_of_system(system);
    text.say("\nRanks of sorts:");
    for (sort, rank) in ranks.iter().enumerate() {
        let sort = Named(names.sorts, number_of(sort));
        tell(text, " @ @", &[sort, Number(*rank)]);
    }
    text.say(".\n");
}

// Appends what a rule asks for.
fn put_demand(text: &mut Text, system: &System, demand: &Demand) {
    let names = names_of_rule(system, demand.rule);
    tell(
        text,
        "  @@@",
        &[
            Named(names.sorts, demand.from),
            Say(if demand.strict {
                " has to be below "
            } else {
                " must not be above "
            }),
            Named(names.sorts, demand.to),
        ],
    );
    tell_line(
        text,
        0,
        ", since rule @ takes @ out of argument @ of @.",
        &[
            Number(demand.rule),
            Unknown(names.metas, demand.meta),
            Number(demand.place.saturating_add(1)),
            Named(names.funs, demand.symbol),
        ],
    );
}

// What the rules demand, each of two sorts once.
fn demands_of(alloc: Global, system: &System) -> Result<Vec<Demand>, AllocError> {
    let mut demands = Vec::new(alloc);
    for (number, rule) in system.rules().iter().enumerate() {
        ask_rule(
            alloc,
            system.signature(),
            &mut demands,
            rule,
            number_of(number),
        )?;
    }
    Ok(demands)
}

// Adds the demands for each meta-variable that the rule uses on the right.
fn ask_rule(
    alloc: Global,
    signature: &Signature,
    demands: &mut Vec<Demand>,
    rule: &Rule,
    number: u32,
) -> Result<(), AllocError> {
    for meta in 0..number_of(rule.metas.as_slice().len()) {
        if count_meta(meta, &rule.right) > 0 {
            ask_left(alloc, signature, demands, &rule.left, number, meta)?;
        }
    }
    Ok(())
}

// Adds the demands on the way to the first place of the meta-variable in a left side. The left side's own arguments
// demand nothing.
fn ask_left(
    alloc: Global,
    signature: &Signature,
    demands: &mut Vec<Demand>,
    left: &Term,
    rule: u32,
    meta: u32,
) -> Result<(), AllocError> {
    let arguments = arguments_of(alloc, left)?;
    for argument in &arguments {
        if ask_in(signature, demands, argument, rule, meta)? {
            return Ok(());
        }
    }
    Ok(())
}

// Adds the demands on the way to the meta-variable in a pattern; false where the meta-variable is not read in it.
fn ask_in(
    signature: &Signature,
    demands: &mut Vec<Demand>,
    pattern: &Term,
    rule: u32,
    meta: u32,
) -> Result<bool, AllocError> {
    match pattern {
        Term::Bound(_) | Term::Free(..) | Term::Fun(_) => Ok(false),
        Term::Meta(number, _) => Ok(*number == meta),
        Term::Lam(_, body) => ask_in(signature, demands, body, rule, meta),
        Term::App(function, argument) => {
            if ask_in(signature, demands, function, rule, meta)? {
                return Ok(true);
            }
            let Some(symbol) = symbol_of(function) else {
                return Ok(false);
            };
            if !ask_in(signature, demands, argument, rule, meta)? {
                return Ok(false);
            }
            let place = count_arguments(function);
            ask_at(signature, demands, symbol, place, rule, meta)?;
            Ok(true)
        }
    }
}

// Adds what the argument of the symbol at that place, counted from 0, demands.
fn ask_at(
    signature: &Signature,
    demands: &mut Vec<Demand>,
    symbol: u32,
    place: u32,
    rule: u32,
    meta: u32,
) -> Result<(), AllocError> {
    let Some(kind) = signature.funs.as_slice().get(symbol as usize) else {
        return Ok(());
    };
    let Some(argument) = argument_type(kind, place) else {
        return Ok(());
    };
    let demand = Demand {
        from: 0,
        to: kind.result_sort(),
        strict: matches!(argument, SimpleType::Arrow(..)),
        rule,
        meta,
        symbol,
        place,
    };
    ask_of(demands, argument, demand)
}

// Adds the demand from each sort in the type.
fn ask_of(demands: &mut Vec<Demand>, kind: &SimpleType, demand: Demand) -> Result<(), AllocError> {
    match kind {
        SimpleType::Sort(sort) => add(
            demands,
            Demand {
                from: *sort,
                ..demand
            },
        ),
        SimpleType::Arrow(argument, rest) => {
            ask_of(demands, argument, demand)?;
            ask_of(demands, rest, demand)
        }
    }
}

// Adds the demand, if there is none like it and it is not that of a sort with itself.
fn add(demands: &mut Vec<Demand>, demand: Demand) -> Result<(), AllocError> {
    if demand.from == demand.to && !demand.strict {
        return Ok(());
    }
    for other in demands.iter() {
        if other.from == demand.from && other.to == demand.to && other.strict == demand.strict {
            return Ok(());
        }
    }
    demands.push(demand)?;
    Ok(())
}
