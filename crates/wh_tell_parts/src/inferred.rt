//! Path orders in words: what filters leave of symbols, and a sentence for each inference, with the sentences of its
//! parts below it.

use crate::filtered::put_filtered_tree;
use wh_cert::{Filter, NamedFilter};
use wh_order_inference::{Inference, Letter};
use wh_order_trees::Tree;
use wh_tell::Piece::{Number, Say, Spell};
use wh_tell::{Names, Text, put_numbers, tell};

/// Appends what filters leave of each symbol; a mark stands behind the names of marked ones.
pub fn put_filters<'a>(text: &mut Text, mark: &'a str, lines: &'a [NamedFilter], depth: u32) {
    for line in lines {
        text.indent(depth);
        tell(text, "@@", &[Spell(line.name.bytes()), Say(mark)]);
        match &line.filter {
            Filter::Keep { prec, places } => {
                tell(text, " has precedence @", &[Number(*prec)]);
                text.say(kept(places.as_slice().len()));
                put_numbers(text, places.as_slice());
            }
            Filter::Pick { place } => tell(text, " gives way to its argument @", &[Number(*place)]),
        }
        text.say("\n");
    }
}

// The words before the places of `count` arguments.
fn kept(count: usize) -> &'static str {
    match count {
        0 => " and keeps no argument",
        1 => " and keeps argument",
        _ => " and keeps arguments",
    }
}

// What a claim says.
const LEAST: &str = " is at least ";

const GREATER: &str = " is greater than ";

const ABOVE: &str = " is above ";

/// The claim that an inference is to show of two trees, each below a number of binders.
#[derive(Clone, Copy)]
struct Claim<'a> {
    words: &'static str,
    left: &'a Tree,
    above: u32,
    right: &'a Tree,
    below: u32,
}

/// Two sides that are compared.
#[derive(Clone, Copy)]
pub struct Comparison<'a> {
    /// The left side.
    pub left: &'a Tree,
    /// The right side.
    pub right: &'a Tree,
    /// Whether the left one is to be greater, and not just at least the right one.
    pub greater: bool,
}

/// Appends the inferences that show the claim about the two sides.
pub fn put_inferred(
    text: &mut Text,
    names: &Names<'_>,
    sides: Comparison<'_>,
    inference: &Inference,
    depth: u32,
) {
    let claim = Claim {
        words: if sides.greater { GREATER } else { LEAST },
        left: sides.left,
        above: 0,
        right: sides.right,
        below: 0,
    };
    put_inference(text, names, Some(claim), inference, depth);
}

// Appends what is claimed and by which inference, and below it those of its parts. A claim that the letter does
// not fit is not told.
fn put_inference(
    text: &mut Text,
    names: &Names<'_>,
    claim: Option<Claim<'_>>,
    inference: &Inference,
    depth: u32,
) {
    text.indent(depth);
    if let Some(claim) = claim {
        put_filtered_tree(text, names, claim.left, claim.above, false);
        text.say(claim.words);
        put_filtered_tree(text, names, claim.right, claim.below, false);
        text.say(": ");
    }
    put_letter(text, inference);
    for (index, part) in inference.parts.as_slice().iter().enumerate() {
        let inner = match claim {
            Some(claim) => part_of(claim, inference.letter, inference.place, index),
            None => None,
        };
        put_inference(text, names, inner, part, depth.saturating_add(1));
    }
}

// Appends what an inference goes by.
fn put_letter(text: &mut Text, inference: &Inference) {
    text.say(words_of(inference.letter));
    if matches!(inference.letter, Letter::Sub | Letter::Lex | Letter::Meta) {
        tell(text, "@.", &[Number(inference.place)]);
    }
    text.say("\n");
}

// The words about a letter, before the argument that it names where it names one.
fn words_of(letter: Letter) -> &'static str {
    match letter {
        Letter::Same => "they are the same.",
        Letter::Lam => "both are abstractions, and the body gets smaller.",
        Letter::Mono => "the head is the same, and no argument gets greater.",
        Letter::Sub => "by its argument ",
        Letter::Prec => "its symbol has a greater precedence, and it is above each argument.",
        Letter::Lex =>
            "both symbols have one precedence, and the first argument that differs gets smaller: argument ",
        Letter::App => "it is above the head and each argument.",
        Letter::Bind => "it is above the body.",
        Letter::Var => "that is the variable of a binder that was passed.",
        Letter::Meta => "it has that meta-variable itself as its argument ",
    }
}

// What the part of that index is to show.
fn part_of<'a>(claim: Claim<'a>, letter: Letter, place: u32, index: usize) -> Option<Claim<'a>> {
    match letter {
        Letter::Same | Letter::Var => None,
        Letter::Lam => in_bodies(claim),
        Letter::Mono => by_arguments(claim, index, index, LEAST),
        Letter::Sub => by_left(claim, place),
        Letter::Prec | Letter::Meta => by_right(claim, index),
        Letter::Lex => match index.checked_sub(1) {
            None => {
                let at = (place as usize).checked_sub(1)?;
                by_arguments(claim, at, at, GREATER)
            }
            Some(index) => by_right(claim, index),
        },
        Letter::App => match index.checked_sub(1) {
            None => by_head(claim),
            Some(index) => by_right(claim, index),
        },
        Letter::Bind => in_right_body(claim),
    }
}

// The arguments that a tree has behind its filter.
fn items_of(tree: &Tree) -> &[Tree] {
    match tree {
        Tree::Bound(_) | Tree::Free(..) | Tree::Lam(..) => &[],
        Tree::Meta(_, _, items)
        | Tree::Sym(_, items)
        | Tree::Mark(_, items)
        | Tree::Apply(_, items) => items.as_slice(),
    }
}

fn by_arguments<'a>(
    claim: Claim<'a>,
    left: usize,
    right: usize,
    words: &'static str,
) -> Option<Claim<'a>> {
    let left = items_of(claim.left).get(left)?;
    let right = items_of(claim.right).get(right)?;
    Some(Claim {
        words,
        left,
        right,
        ..claim
    })
}

fn by_left<'a>(claim: Claim<'a>, place: u32) -> Option<Claim<'a>> {
    let at = (place as usize).checked_sub(1)?;
    let left = items_of(claim.left).get(at)?;
    Some(Claim {
        words: LEAST,
        left,
        ..claim
    })
}

fn by_right<'a>(claim: Claim<'a>, index: usize) -> Option<Claim<'a>> {
    let right = items_of(claim.right).get(index)?;
    Some(Claim {
        words: ABOVE,
        right,
        ..claim
    })
}

fn by_head<'a>(claim: Claim<'a>) -> Option<Claim<'a>> {
    match claim.right {
        Tree::Apply(head, _) => Some(Claim {
            words: ABOVE,
            right: &**head,
            ..claim
        }),
        _ => None,
    }
}

fn in_right_body<'a>(claim: Claim<'a>) -> Option<Claim<'a>> {
    match claim.right {
        Tree::Lam(_, body) => Some(Claim {
            words: ABOVE,
            right: &**body,
            below: claim.below.saturating_add(1),
            ..claim
        }),
        _ => None,
    }
}

fn in_bodies<'a>(claim: Claim<'a>) -> Option<Claim<'a>> {
    match (claim.left, claim.right) {
        (Tree::Lam(_, left), Tree::Lam(_, right)) => Some(Claim {
            words: GREATER,
            left: &**left,
            above: claim.above.saturating_add(1),
            right: &**right,
            below: claim.below.saturating_add(1),
        }),
        _ => None,
    }
}
