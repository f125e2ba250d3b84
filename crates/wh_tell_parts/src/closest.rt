//! The projection that comes closest, for pairs of which none was dropped. It keeps or lowers the argument in as many
//! of them as can be found by changing one argument at a time. Others may keep as many.

use crate::compared::put_compared;
use std::alloc::{AllocError, Global};
use wh_pairs::{Pair, PairSet};
use wh_subterm::{Relation, relation_at};
use wh_system::System;
use wh_tell::Piece::{Named, Number};
use wh_tell::{Text, names_of_system, number_of, tell};

// How often each symbol is gone through.
const ROUNDS: u32 = 4;

/// Appends the projection that comes closest, and the pairs that stop it.
pub fn put_closest_projection<'a>(
    alloc: Global,
    text: &mut Text,
    system: &'a System,
    pairs: &'a [Pair],
    set: &PairSet,
) -> Result<(), AllocError> {
    let members = pairs_of_set(alloc, pairs, set.as_slice())?;
    let mut chosen = first_arguments(alloc, system.fun_names().len())?;
    for _ in 0..ROUNDS {
        improve(system, &members, &mut chosen);
    }
    put_chosen(text, system, pairs, set.as_slice(), &chosen);
    if !lowers_some(&members, &chosen) {
        text.say("  no argument gets smaller, and one has to\n");
    }
    Ok(())
}

// The first argument of each of `count` symbols.
fn first_arguments(alloc: Global, count: usize) -> Result<Vec<u32>, AllocError> {
    let mut chosen = Vec::new(alloc);
    for _ in 0..count {
        chosen.push(0)?;
    }
    Ok(chosen)
}

// The pairs of a set.
fn pairs_of_set<'a>(
    alloc: Global,
    pairs: &'a [Pair],
    set: &[u32],
) -> Result<Vec<&'a Pair>, AllocError> {
    let mut found = Vec::new(alloc);
    for number in set {
        if let Some(pair) = pairs.get(*number as usize) {
            found.push(pair)?;
        }
    }
    Ok(found)
}

// Chooses for each symbol the argument with which the most pairs are kept or lowered.
fn improve(system: &System, pairs: &[&Pair], chosen: &mut [u32]) {
    for symbol in 0..chosen.len() {
        let need = system.need(number_of(symbol));
        improve_at(pairs, chosen, symbol, need.unwrap_or(0));
    }
}

// Chooses the argument of one symbol anew, of the `need` arguments that its rules have, where that scores more.
fn improve_at(pairs: &[&Pair], chosen: &mut [u32], symbol: usize, need: u32) {
    for place in 0..need {
        let most = score(pairs, chosen);
        let before = choose(chosen, symbol, place);
        if score(pairs, chosen) <= most {
            choose(chosen, symbol, before);
        }
    }
}

// Chooses the argument of a symbol, and gives the one that was chosen before.
fn choose(chosen: &mut [u32], symbol: usize, place: u32) -> u32 {
    match chosen.get_mut(symbol) {
        Some(here) => {
            let before = *here;
            *here = place;
            before
        }
        None => place,
    }
}

// How many pairs are kept or lowered, where one that is lowered counts a little more.
fn score(pairs: &[&Pair], chosen: &[u32]) -> u64 {
    let mut sum: u64 = 0;
    for pair in pairs {
        sum = sum.saturating_add(match relation_in(pair, chosen) {
            Relation::Neither => 0,
            Relation::Equal => 1000,
            Relation::Below => 1001,
        });
    }
    sum
}

// Whether some pair is lowered.
fn lowers_some(pairs: &[&Pair], chosen: &[u32]) -> bool {
    for pair in pairs {
        if matches!(relation_in(pair, chosen), Relation::Below) {
            return true;
        }
    }
    false
}

// What the chosen arguments of a pair are to one another.
fn relation_in(pair: &Pair, chosen: &[u32]) -> Relation {
    let left = chosen.get(pair.left_fun as usize);
    let right = chosen.get(pair.right_fun as usize);
    match (left, right) {
        (Some(left), Some(right)) => relation_at(pair, *left, *right),
        _ => Relation::Neither,
    }
}

// Appends the choices and the pairs that stop them.
fn put_chosen<'a>(
    text: &mut Text,
    system: &'a System,
    pairs: &'a [Pair],
    set: &[u32],
    chosen: &[u32],
) {
    put_choices(text, system, pairs, set, chosen);
    for number in set {
        if let Some(pair) = pairs.get(*number as usize) {
            put_chosen_in(text, system, *number, pair, chosen);
        }
    }
}

// Appends the chosen argument of each symbol that heads a side of a pair of the set.
fn put_choices(text: &mut Text, system: &System, pairs: &[Pair], set: &[u32], chosen: &[u32]) {
    let names = names_of_system(system);
    let mut words: &[u8] = b"A projection that comes close looks at argument ";
    for (symbol, place) in chosen.iter().enumerate() {
        let symbol = number_of(symbol);
        if heads_some(pairs, set, symbol) {
            let place = Number(place.saturating_add(1));
            text.spell(words);
            tell(text, "@ of @", &[place, Named(names.funs, symbol)]);
            words = b", argument ";
        }
    }
    text.say(".\n");
}

// Whether the symbol heads a side of a pair of the set.
fn heads_some(pairs: &[Pair], set: &[u32], symbol: u32) -> bool {
    for number in set {
        if let Some(pair) = pairs.get(*number as usize) {
            if pair.left_fun == symbol || pair.right_fun == symbol {
                return true;
            }
        }
    }
    false
}

// Appends what becomes of the chosen argument in a pair.
fn put_chosen_in<'a>(
    text: &mut Text,
    system: &'a System,
    number: u32,
    pair: &'a Pair,
    chosen: &[u32],
) {
    tell(text, "  pair @: ", &[Number(number)]);
    let left = chosen.get(pair.left_fun as usize);
    let right = chosen.get(pair.right_fun as usize);
    match (left, right) {
        (Some(left), Some(right)) => put_compared(text, system, pair, *left, *right),
        _ => text.say("There is no such argument.\n"),
    }
}
