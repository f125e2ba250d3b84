//! A term with a place in it marked: the place is reached by a path of digits, 0 for the function of an
//! application, 1 for its argument, 0 for the body of an abstraction.

use crate::names::Names;
use crate::terms::put_term;
use crate::text::Text;
use crate::types::put_type;
use wh_terms::Term;

// How long a line may be for its carets to stand under it.
const WIDEST: usize = 2000;

/// Where a part of a term was written.
#[derive(Clone, Copy)]
pub struct Span {
    start: usize,
    end: usize,
}

/// Appends a line with the term, and one with carets under the part at the path.
pub fn put_marked(text: &mut Text, names: &Names<'_>, term: &Term, path: &[u8], depth: u32) {
    text.indent(depth);
    let begin = text.len();
    let mut span = Span {
        start: begin,
        end: begin,
    };
    let place = Place {
        depth: 0,
        bare: false,
        path: Some(path),
    };
    put_at(text, names, term, place, &mut span);
    text.say("\n");
    let start = span.start.saturating_sub(begin);
    let width = span.end.saturating_sub(span.start);
    if start.saturating_add(width) > WIDEST || width == 0 {
        return;
    }
    text.indent(depth);
    put_times(text, " ", start);
    put_times(text, "^", width);
    text.say("\n");
}

// Appends the words `count` times.
fn put_times(text: &mut Text, words: &str, count: usize) {
    for _ in 0..count {
        text.say(words);
    }
}

/// The place of a term that is written: below how many binders it stands, whether its spine is bare, that is without
/// parentheses, and the path from it to the marked part.
#[derive(Clone, Copy)]
struct Place<'a> {
    depth: u32,
    bare: bool,
    path: Option<&'a [u8]>,
}

impl<'a> Place<'a> {
    // The place of the body of an abstraction.
    fn body(self) -> Place<'a> {
        Place {
            depth: self.depth.saturating_add(1),
            bare: false,
            path: path_after(self.path, 0),
        }
    }

    // The place of a function.
    fn function(self) -> Place<'a> {
        Place {
            depth: self.depth,
            bare: true,
            path: path_after(self.path, 0),
        }
    }

    // The place of an argument.
    fn argument(self) -> Place<'a> {
        Place {
            depth: self.depth,
            bare: false,
            path: path_after(self.path, 1),
        }
    }
}

// The rest of the path, if it goes that way.
fn path_after<'a>(path: Option<&'a [u8]>, way: u8) -> Option<&'a [u8]> {
    let (first, rest) = path?.split_first()?;
    if *first == way { Some(rest) } else { None }
}

// Whether the path ends here.
fn is_there(path: Option<&[u8]>) -> bool {
    match path {
        Some(rest) => rest.is_empty(),
        None => false,
    }
}

// Appends a term, and notes where the part at the path stands.
fn put_at(text: &mut Text, names: &Names<'_>, term: &Term, place: Place<'_>, span: &mut Span) {
    let start = text.len();
    match term {
        Term::Bound(_) | Term::Free(..) | Term::Fun(_) | Term::Meta(..) => {
            put_term(text, names, term, place.depth, place.bare);
        }
        Term::Lam(kind, body) => {
            text.say("(\\$");
            text.number(place.depth as u128);
            text.say(":");
            put_type(text, names, kind, true);
            text.say(".");
            put_at(text, names, body, place.body(), span);
            text.say(")");
        }
        Term::App(function, argument) => {
            text.say(if place.bare { "" } else { "(" });
            put_at(text, names, function, place.function(), span);
            text.say(" ");
            put_at(text, names, argument, place.argument(), span);
            text.say(if place.bare { "" } else { ")" });
        }
    }
    if is_there(place.path) {
        *span = Span {
            start,
            end: text.len(),
        };
    }
}
