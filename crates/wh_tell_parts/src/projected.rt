//! Nodes of projections: for each pair the two arguments that are compared.

use crate::compared::put_compared;
use wh_cert::Arg;
use wh_pairs::Pair;
use wh_system::System;
use wh_tell::Piece::{Number, Spell};
use wh_tell::{Text, put_numbers, put_pair_line, tell};

/// What a node of a projection says.
#[derive(Clone, Copy)]
pub struct Projected<'a> {
    /// Which argument of each symbol is looked at.
    pub args: &'a [Arg],
    /// Which pairs are dropped.
    pub drop: &'a [u32],
}

/// Appends which argument of each symbol is looked at, what becomes of it in each pair of the set, and which pairs are
/// dropped.
pub fn put_projection<'a>(
    text: &mut Text,
    system: &'a System,
    pairs: &'a [Pair],
    set: &[u32],
    node: Projected<'_>,
    depth: u32,
) {
    put_choices(text, node.args, depth);
    for number in set {
        if let Some(pair) = pairs.get(*number as usize) {
            put_pair_line(text, system, *number, pair, depth);
            put_looked_at(text, system, pair, node.args, depth.saturating_add(1));
        }
    }
    put_dropped(text, node.drop, depth);
}

// Appends which argument of each symbol is looked at.
fn put_choices(text: &mut Text, args: &[Arg], depth: u32) {
    text.indent(depth);
    let mut words: &[u8] = b"Projection: looked at is argument ";
    for arg in args {
        text.spell(words);
        tell(
            text,
            "@ of @",
            &[Number(arg.place), Spell(arg.name.bytes())],
        );
        words = b", argument ";
    }
    text.say(if args.is_empty() {
        "Projection: no argument is looked at.\n"
    } else {
        ".\n"
    });
}

/// Appends which pairs are dropped.
pub fn put_dropped(text: &mut Text, drop: &[u32], depth: u32) {
    text.indent(depth);
    text.say("Dropped:");
    put_numbers(text, drop);
    text.say(".\n");
}

// Appends what becomes of the argument that is looked at in a pair.
fn put_looked_at<'a>(
    text: &mut Text,
    system: &'a System,
    pair: &'a Pair,
    args: &[Arg],
    depth: u32,
) {
    text.indent(depth);
    let left = place_of(system, args, pair.left_fun);
    let right = place_of(system, args, pair.right_fun);
    match (left, right) {
        (Some(left), Some(right)) => put_compared(text, system, pair, left, right),
        _ => text.say("No argument is named.\n"),
    }
}

// The place, counted from 0, of the argument of the symbol that is looked at.
fn place_of(system: &System, args: &[Arg], symbol: u32) -> Option<u32> {
    let name = system.fun_names().get(symbol as usize)?;
    for arg in args {
        if arg.name.bytes() == name.bytes() {
            return arg.place.checked_sub(1);
        }
    }
    None
}
