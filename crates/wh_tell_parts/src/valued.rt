//! Interpretations in words: the polynomials of symbols, and how the monomials of the left side of a rule or pair cover
//! those of the right one.

use wh_cert::Interp;
use wh_hopoly::{Move, Moves};
use wh_pairs::Pair;
use wh_poly::{Monomial, Poly};
use wh_system::System;
use wh_tell::Piece::{Big, Count, Number, Say, Spell, Sum};
use wh_tell::{
    Names, Text, names_of_rule, number_of, put_factors, put_meta, put_pair_line, put_rule_line,
    tell, tell_line,
};

// How many monomials of a side are listed.
const MOST_LISTED: usize = 100;

/// Appends the polynomials of symbols; a mark stands behind the names of marked ones.
pub fn put_readings<'a>(text: &mut Text, mark: &'a str, lines: &'a [Interp], depth: u32) {
    for line in lines {
        tell_line(
            text,
            depth,
            "@@ is @",
            &[Spell(line.name.bytes()), Say(mark), Sum(&line.poly)],
        );
    }
}

/// The values of both sides of a rule or pair, where no value passes a limit, and the line of moves between them, where
/// there is one.
#[derive(Clone, Copy)]
pub struct Valued<'a> {
    /// The left side.
    pub left: &'a Option<Poly>,
    /// The right side.
    pub right: &'a Option<Poly>,
    /// The moves.
    pub moves: Option<&'a Moves>,
    /// Whether a unit of the left side's constant has to be left over, as in a pair that is dropped.
    pub dropped: bool,
}

/// Appends a rule and what its sides are worth.
pub fn put_rule_values(
    text: &mut Text,
    system: &System,
    rule: u32,
    valued: &Valued<'_>,
    depth: u32,
) {
    put_rule_line(text, system, rule, depth);
    let names = names_of_rule(system, rule);
    put_variables(text, &names, names.metas.len(), depth);
    put_valued(text, valued, depth.saturating_add(1));
}

/// Appends a pair and what its sides are worth, and for a pair that is dropped whether a unit of its constant is
/// left over.
pub fn put_pair_values(
    text: &mut Text,
    system: &System,
    number: u32,
    pair: &Pair,
    valued: &Valued<'_>,
    depth: u32,
) {
    put_pair_line(text, system, number, pair, depth);
    let names = names_of_rule(system, pair.rule);
    put_variables(text, &names, pair.metas.as_slice().len(), depth);
    put_valued(text, valued, depth.saturating_add(1));
}

// Appends which variable stands for which meta-variable.
fn put_variables(text: &mut Text, names: &Names<'_>, count: usize, depth: u32) {
    if count == 0 {
        return;
    }
    text.indent(depth.saturating_add(1));
    let mut words: &[u8] = b"with y";
    for number in 0..count {
        text.spell(words);
        tell(text, "@ for ", &[Count(number)]);
        put_meta(text, names.metas, number_of(number));
        words = b", y";
    }
    text.say("\n");
}

// Appends the values of both sides and the moves, and what is left of the constant where that is asked.
fn put_valued(text: &mut Text, valued: &Valued<'_>, depth: u32) {
    let (Some(left), Some(right)) = (valued.left, valued.right) else {
        tell_line(text, depth, "the value of a side passes a limit", &[]);
        return;
    };
    put_side(text, "left side", left, depth);
    put_side(text, "right side", right, depth);
    let Some(moves) = valued.moves else {
        tell_line(text, depth, "there is no line of moves", &[]);
        return;
    };
    put_moves(text, left, right, moves.as_slice(), depth);
    put_wanting(text, right, moves.as_slice(), depth);
    if valued.dropped {
        tell_line(text, depth, words_of(left, moves.as_slice()), &[]);
    }
}

// Appends what is moved from which monomial of the left side to which one of the right side, each as in certificates
// and in words.
fn put_moves(text: &mut Text, left: &Poly, right: &Poly, moves: &[Move], depth: u32) {
    for item in moves {
        text.indent(depth);
        let (from, to) = (Number(item.from), Number(item.to));
        tell(
            text,
            "@>@:@ gives @ of the units of ",
            &[from, to, Big(item.amount), Big(item.amount)],
        );
        put_numbered(text, left, item.from);
        text.say(" on the left to ");
        put_numbered(text, right, item.to);
        text.say(" on the right\n");
    }
}

// Appends which monomials of the right side get fewer units than they have.
fn put_wanting(text: &mut Text, right: &Poly, moves: &[Move], depth: u32) {
    for (number, item) in right.as_slice().iter().enumerate() {
        let units = units_to(moves, number_of(number));
        if units < item.coefficient {
            tell_line(
                text,
                depth,
                "monomial @ on the right gets @ of its @ units",
                &[Count(number), Big(units), Big(item.coefficient)],
            );
        }
    }
}

// How many units are moved to the monomial of that number.
fn units_to(moves: &[Move], number: u32) -> u128 {
    let mut sum: u128 = 0;
    for item in moves {
        if item.to == number {
            sum = sum.saturating_add(item.amount);
        }
    }
    sum
}

// The words about the constant on the left of a pair that is dropped.
fn words_of(left: &Poly, moves: &[Move]) -> &'static str {
    if spent(moves) < constant(left) {
        "a unit of the constant on the left is left over, as it has to be in a dropped pair"
    } else {
        "no unit of a constant on the left is left over, and one has to be in a dropped pair"
    }
}

// The constant of a polynomial: that of its first monomial, if this has no factors.
fn constant(poly: &Poly) -> u128 {
    match poly.as_slice().first() {
        Some(first) if first.atoms.as_slice().is_empty() => first.coefficient,
        _ => 0,
    }
}

// How many units are moved from the first monomial.
fn spent(moves: &[Move]) -> u128 {
    let mut sum: u128 = 0;
    for item in moves {
        if item.from == 0 {
            sum = sum.saturating_add(item.amount);
        }
    }
    sum
}

// Appends a side, and each of its monomials with its number.
fn put_side<'a>(text: &mut Text, word: &'a str, side: &'a Poly, depth: u32) {
    tell_line(text, depth, "@ @", &[Say(word), Sum(side)]);
    let items = side.as_slice();
    if items.len() < 2 {
        return;
    }
    let inner = depth.saturating_add(1);
    for (number, item) in items.iter().enumerate() {
        if number == MOST_LISTED {
            tell_line(text, inner, "and so on, @ in all", &[Count(items.len())]);
            return;
        }
        text.indent(inner);
        tell(text, "@: ", &[Count(number)]);
        put_monomial(text, item);
        text.say("\n");
    }
}

// Appends a monomial.
fn put_monomial(text: &mut Text, item: &Monomial) {
    text.number(item.coefficient);
    put_factors(text, &item.atoms);
}

// Appends the monomial with that number.
fn put_numbered(text: &mut Text, side: &Poly, number: u32) {
    match side.as_slice().get(number as usize) {
        Some(item) => put_monomial(text, item),
        None => text.say("none"),
    }
}
