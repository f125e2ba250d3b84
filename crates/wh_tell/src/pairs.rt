//! Dependency pairs and rules, in words.

use crate::names::{Names, names_of_rule, put_meta, put_name};
use crate::sentence::Piece::{Number, Tree};
use crate::sentence::{tell, tell_line};
use crate::terms::put_term;
use crate::text::Text;
use wh_pairs::{Condition, Pair};
use wh_system::System;
use wh_terms::Terms;

/// Appends a call of a marked symbol.
pub fn put_call(text: &mut Text, names: &Names<'_>, fun: u32, arguments: &Terms) {
    put_name(text, names.funs, fun);
    text.say("#");
    for argument in arguments.as_slice() {
        text.say(" ");
        put_term(text, names, argument, 0, false);
    }
}

/// Appends what a pair says: which call leads to which, and under which conditions.
pub fn put_pair(text: &mut Text, system: &System, pair: &Pair) {
    let names = names_of_rule(system, pair.rule);
    put_call(text, &names, pair.left_fun, &pair.left);
    text.say(" => ");
    put_call(text, &names, pair.right_fun, &pair.right);
    put_conditions(text, &names, pair.conditions.as_slice());
}

// Appends the conditions of a pair.
fn put_conditions(text: &mut Text, names: &Names<'_>, conditions: &[Condition]) {
    let mut words: &[u8] = b", where ";
    for condition in conditions {
        text.spell(words);
        put_meta(text, names.metas, condition.meta);
        text.say(" uses its argument ");
        text.number(condition.place as u128);
        words = b" and ";
    }
}

/// Appends a line for each of these pairs, with its number and its rule.
pub fn put_pairs(text: &mut Text, system: &System, pairs: &[Pair], set: &[u32], depth: u32) {
    for number in set {
        if let Some(pair) = pairs.get(*number as usize) {
            put_pair_line(text, system, *number, pair, depth);
        }
    }
}

/// Appends a line with the number of the pair, that of its rule, and what it says.
pub fn put_pair_line(text: &mut Text, system: &System, number: u32, pair: &Pair, depth: u32) {
    text.indent(depth);
    let (pair_number, rule) = (Number(number), Number(pair.rule));
    tell(text, "pair @, of rule @: ", &[pair_number, rule]);
    put_pair(text, system, pair);
    text.say("\n");
}

/// Appends numbers, a space before each.
pub fn put_numbers(text: &mut Text, numbers: &[u32]) {
    for number in numbers {
        text.say(" ");
        text.number(*number as u128);
    }
}

/// Appends a line with the rule of that number.
pub fn put_rule_line(text: &mut Text, system: &System, number: u32, depth: u32) {
    let names = names_of_rule(system, number);
    match system.rules().get(number as usize) {
        Some(rule) => tell_line(
            text,
            depth,
            "rule @: @ => @",
            &[
                Number(number),
                Tree(&names, &rule.left),
                Tree(&names, &rule.right),
            ],
        ),
        None => tell_line(text, depth, "rule @", &[Number(number)]),
    }
}
