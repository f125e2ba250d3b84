//! Projections in words: what becomes of one argument in a pair.

use wh_pairs::Pair;
use wh_subterm::{Relation, relation_at};
use wh_system::System;
use wh_tell::Piece::{Say, Tree};
use wh_tell::{Text, names_of_rule, tell_line};

/// Appends the rest of a line: the arguments of both sides of a pair at these places, counted from 0, and what they
/// are to one another.
pub fn put_compared<'a>(
    text: &mut Text,
    system: &'a System,
    pair: &'a Pair,
    left: u32,
    right: u32,
) {
    let names = names_of_rule(system, pair.rule);
    let from = pair.left.as_slice().get(left as usize);
    let to = pair.right.as_slice().get(right as usize);
    match (from, to) {
        (Some(from), Some(to)) => {
            let words = words_of(relation_at(pair, left, right));
            tell_line(
                text,
                0,
                "@ becomes @: @.",
                &[Tree(&names, from), Tree(&names, to), Say(words)],
            );
        }
        _ => text.say("There is no such argument.\n"),
    }
}

// The words about a relation.
fn words_of(relation: Relation) -> &'static str {
    match relation {
        Relation::Equal => "it stays the same",
        Relation::Below => "a proper part of it, so it gets smaller",
        Relation::Neither => "neither the same nor a part of it, which stops this projection",
    }
}
