//! Spelling an argument as an abstraction, as a rule wants it: an eta step backwards.

use crate::names::Names;
use crate::sentence::Piece::Number;
use crate::sentence::tell;
use crate::spines::{argument_type, binders_of, body_of};
use crate::terms::put_term;
use crate::text::Text;
use crate::types::put_type;
use crate::wanted::Wanted;
use wh_system::System;
use wh_terms::Term;
use wh_types::SimpleType;

/// Appends the spelling of the argument as an abstraction, behind the abstractions that it begins with. The binders
/// have the numbers from the depth on; one within the argument may have such a number again, and hides it where it is
/// not used.
pub fn put_expanded(
    text: &mut Text,
    system: &System,
    names: &Names<'_>,
    wanted: &Wanted,
    argument: &Term,
    depth: u32,
) {
    let kinds = system.signature().funs.as_slice();
    let Some(whole) = kinds.get(wanted.symbol as usize) else {
        return;
    };
    let Some(kind) = argument_type(whole, wanted.place) else {
        return;
    };
    text.say("  as an abstraction it is ");
    put_binders(text, names, kind, wanted.binders, depth);
    let had = binders_of(argument);
    put_term(
        text,
        names,
        body_of(argument),
        depth.saturating_add(had),
        true,
    );
    put_variables(text, had, wanted.binders, depth);
    put_ends(text, wanted.binders);
}

// Appends the beginnings of `count` abstractions.
fn put_binders(text: &mut Text, names: &Names<'_>, kind: &SimpleType, count: u32, depth: u32) {
    for number in 0..count {
        put_binder(text, names, kind, number, depth);
    }
}

// Appends the variables of the new abstractions, from the one of that number on.
fn put_variables(text: &mut Text, first: u32, count: u32, depth: u32) {
    for number in first..count {
        tell(text, " $@", &[Number(depth.saturating_add(number))]);
    }
}

// Appends the ends of `count` abstractions.
fn put_ends(text: &mut Text, count: u32) {
    for _ in 0..count {
        text.say(")");
    }
    text.say("\n");
}

// Appends the beginning of an abstraction over the argument of that number.
fn put_binder(text: &mut Text, names: &Names<'_>, kind: &SimpleType, number: u32, depth: u32) {
    text.say("(\\$");
    text.number(depth.saturating_add(number) as u128);
    text.say(":");
    if let Some(argument) = argument_type(kind, number) {
        put_type(text, names, argument, true);
    }
    text.say(".");
}
