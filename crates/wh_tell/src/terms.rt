//! Terms, as `show` writes them.

use crate::names::{Names, put_meta, put_name};
use crate::text::Text;
use crate::types::put_type;
use wh_terms::{Term, Terms};

/// Appends a term below `depth` binders; a spine that is bare has no parentheses.
#[cycle(terms)]
pub fn put_term(text: &mut Text, names: &Names<'_>, term: &Term, depth: u32, bare: bool) {
    match term {
        Term::Bound(outward) => put_bound(text, depth, *outward),
        Term::Free(number, kind) => {
            text.say("%");
            text.number(*number as u128);
            text.say(":");
            put_type(text, names, kind, true);
        }
        Term::Fun(symbol) => put_name(text, names.funs, *symbol),
        Term::Meta(meta, items) => {
            put_meta(text, names.metas, *meta);
            put_bracketed(text, names, items, depth);
        }
        Term::Lam(kind, body) => {
            text.say("(\\$");
            text.number(depth as u128);
            text.say(":");
            put_type(text, names, kind, true);
            text.say(".");
            put_term(text, names, body, depth.saturating_add(1), false);
            text.say(")");
        }
        Term::App(function, argument) => {
            if !bare {
                text.say("(");
            }
            put_term(text, names, function, depth, true);
            text.say(" ");
            put_term(text, names, argument, depth, false);
            if !bare {
                text.say(")");
            }
        }
    }
}

/// Appends a bound variable: `$` and the number of binders above its own one.
pub fn put_bound(text: &mut Text, depth: u32, outward: u32) {
    let level = depth.saturating_sub(outward).saturating_sub(1);
    text.say("$");
    text.number(level as u128);
}

// Appends the arguments of a meta-variable in brackets, and nothing where there are none.
#[cycle(terms)]
fn put_bracketed(text: &mut Text, names: &Names<'_>, items: &Terms, depth: u32) {
    let mut sign: &[u8] = b"[";
    for item in items.as_slice() {
        text.spell(sign);
        put_term(text, names, item, depth, false);
        sign = b",";
    }
    if !items.as_slice().is_empty() {
        text.say("]");
    }
}
