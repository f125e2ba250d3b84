//! Printing trees behind argument filters.

use wh_order_trees::{Tree, Trees};
use wh_tell::{Names, Text, put_bound, put_meta, put_name};

// What stands around arguments, where there are any.
#[derive(Clone, Copy)]
struct Signs<'a> {
    first: &'a [u8],
    between: &'a [u8],
    end: &'a str,
}

// Around those of a meta-variable.
const BRACKETS: Signs<'static> = Signs {
    first: b"[",
    between: b",",
    end: "]",
};

/// Appends a filtered tree below `depth` binders; a spine that is bare has no parentheses.
#[cycle(filtered)]
pub fn put_filtered_tree(text: &mut Text, names: &Names<'_>, tree: &Tree, depth: u32, bare: bool) {
    match tree {
        Tree::Bound(outward) => put_bound(text, depth, *outward),
        Tree::Free(number, _) => {
            text.say("%");
            text.number(*number as u128);
        }
        Tree::Meta(meta, _, items) => {
            put_meta(text, names.metas, *meta);
            put_enclosed(text, names, items, depth, BRACKETS);
        }
        Tree::Sym(symbol, items) => {
            text.say(front(bare, items));
            put_name(text, names.funs, *symbol);
            put_enclosed(text, names, items, depth, blanks(bare));
        }
        Tree::Mark(symbol, items) => {
            text.say(front(bare, items));
            put_name(text, names.funs, *symbol);
            text.say("#");
            put_enclosed(text, names, items, depth, blanks(bare));
        }
        Tree::Lam(_, body) => {
            text.say("(\\$");
            text.number(depth as u128);
            text.say(".");
            put_filtered_tree(text, names, body, depth.saturating_add(1), false);
            text.say(")");
        }
        Tree::Apply(head, items) => {
            text.say(front(bare, items));
            put_filtered_tree(text, names, head, depth, true);
            put_enclosed(text, names, items, depth, blanks(bare));
        }
    }
}

// What stands before a spine with these arguments.
fn front(bare: bool, items: &Trees) -> &'static str {
    if bare || items.as_slice().is_empty() {
        ""
    } else {
        "("
    }
}

// What stands around those of a spine.
fn blanks(bare: bool) -> Signs<'static> {
    Signs {
        first: b" ",
        between: b" ",
        end: if bare { "" } else { ")" },
    }
}

// Appends arguments with their signs.
#[cycle(filtered)]
fn put_enclosed(text: &mut Text, names: &Names<'_>, items: &Trees, depth: u32, signs: Signs<'_>) {
    let mut sign = signs.first;
    for item in items.as_slice() {
        text.spell(sign);
        put_filtered_tree(text, names, item, depth, false);
        sign = signs.between;
    }
    if !items.as_slice().is_empty() {
        text.say(signs.end);
    }
}
