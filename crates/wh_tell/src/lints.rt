//! What is likely not meant in a system: arguments that no rule can match, and names that are not used.

use crate::expanded::put_expanded;
use crate::names::{Names, names_of_rule, names_of_system, number_of, put_name};
use crate::sentence::Piece::{Count, Named, Number, Say, Unknown};
use crate::sentence::{tell, tell_line};
use crate::spines::{binders_of, count_arguments, count_meta, has_symbol, symbol_of};
use crate::terms::put_term;
use crate::text::Text;
use crate::wanted::{Wanted, wanted_abstractions};
use std::alloc::{AllocError, Global};
use wh_system::System;
use wh_terms::{Rule, Term, Terms};

/// Appends a line or two for each thing that is likely not meant, or a line that there is none.
pub fn put_lints(alloc: Global, text: &mut Text, system: &System) -> Result<(), AllocError> {
    let begin = text.len();
    let wanted = wanted_abstractions(alloc, system)?;
    for (number, rule) in system.rules().iter().enumerate() {
        let names = names_of_rule(system, number_of(number));
        let place = Place {
            system,
            names: &names,
            rule: number,
            wanted: &wanted,
        };
        lint_term(text, &place, &rule.right, 0);
        lint_metas(text, &names, number, rule);
    }
    lint_symbols(text, system);
    if text.len() == begin {
        tell_line(text, 0, "lint: nothing was found.", &[]);
    }
    Ok(())
}

/// Where a term is looked at.
#[derive(Clone, Copy)]
struct Place<'a> {
    system: &'a System,
    names: &'a Names<'a>,
    rule: usize,
    wanted: &'a [Wanted],
}

// Looks for arguments that no rule can match, in a term below `depth` binders.
#[cycle(lints)]
fn lint_term(text: &mut Text, place: &Place<'_>, term: &Term, depth: u32) {
    lint_spine(text, place, term, depth);
    match term {
        Term::Bound(_) | Term::Free(..) | Term::Fun(_) => (),
        Term::Meta(_, items) => lint_list(text, place, items, depth),
        Term::Lam(_, body) => lint_term(text, place, body, depth.saturating_add(1)),
        Term::App(function, argument) => {
            lint_term(text, place, function, depth);
            lint_term(text, place, argument, depth);
        }
    }
}

// Looks for arguments that no rule can match, in each term of a list below `depth` binders.
#[cycle(lints)]
fn lint_list(text: &mut Text, place: &Place<'_>, items: &Terms, depth: u32) {
    for item in items.as_slice() {
        lint_term(text, place, item, depth);
    }
}

// Looks at the last argument of a spine. Each argument of a spine is the last one of a beginning of it.
fn lint_spine(text: &mut Text, place: &Place<'_>, term: &Term, depth: u32) {
    let Term::App(_, argument) = term else {
        return;
    };
    let Some(symbol) = symbol_of(term) else {
        return;
    };
    let last = count_arguments(term).saturating_sub(1);
    for wanted in place.wanted {
        if wanted.symbol == symbol && wanted.place == last {
            if binders_of(argument) < wanted.binders {
                put_mismatch(text, place, wanted, argument, depth);
            }
        }
    }
}

// Says that the argument is no abstraction where all rules want one, and how it is spelled as one.
fn put_mismatch(text: &mut Text, place: &Place<'_>, wanted: &Wanted, argument: &Term, depth: u32) {
    let names = place.names;
    tell(
        text,
        "lint: in rule @ argument @ of @ is ",
        &[
            Count(place.rule),
            Number(wanted.place.saturating_add(1)),
            Named(names.funs, wanted.symbol),
        ],
    );
    put_term(text, names, argument, depth, false);
    tell(
        text,
        ", and all rules of @ want an abstraction@ there: @\n",
        &[
            Named(names.funs, wanted.symbol),
            Say(extent(wanted)),
            Say(consequence(argument)),
        ],
    );
    put_expanded(text, place.system, names, wanted, argument, depth);
}

// The words about how many variables the abstraction is to have.
fn extent(wanted: &Wanted) -> &'static str {
    if wanted.binders > 1 {
        " of several variables"
    } else {
        ""
    }
}

// The words about the rules at an argument that is no abstraction.
fn consequence(argument: &Term) -> &'static str {
    match argument {
        Term::Meta(..) | Term::Bound(_) => "they apply only where an abstraction comes for it.",
        _ => "they don't apply to it.",
    }
}

// Looks for meta-variables of a rule that are not used or that stand twice on the left.
fn lint_metas(text: &mut Text, names: &Names<'_>, number: usize, rule: &Rule) {
    for meta in 0..number_of(rule.metas.as_slice().len()) {
        let times = count_meta(meta, &rule.left);
        let words = match times {
            0 => " is declared and stands nowhere.",
            1 => continue,
            _ => " stands more than once on the left: the rule applies to equal terms alone.",
        };
        tell_line(
            text,
            0,
            "lint: in rule @ @@",
            &[Count(number), Unknown(names.metas, meta), Say(words)],
        );
    }
}

// Looks for symbols that stand in no rule, and names all of them in one line.
fn lint_symbols(text: &mut Text, system: &System) {
    let names = names_of_system(system);
    let begin = text.len();
    let mut words: &[u8] = b"lint: these symbols stand in no rule: ";
    for symbol in 0..number_of(system.fun_names().len()) {
        if !is_used(system.rules(), symbol) {
            text.spell(words);
            put_name(text, names.funs, symbol);
            words = b", ";
        }
    }
    let end = if text.len() == begin { "" } else { ".\n" };
    text.say(end);
}

// Whether the symbol stands in some rule.
fn is_used(rules: &[Rule], symbol: u32) -> bool {
    for rule in rules {
        if has_symbol(symbol, &rule.left) || has_symbol(symbol, &rule.right) {
            return true;
        }
    }
    false
}
