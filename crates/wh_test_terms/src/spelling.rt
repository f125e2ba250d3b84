//! Terms and types as texts: a bound variable is `#` with its number, a symbol `f` with its number, and a type shows
//! the numbers of its sorts. A meta-variable is not shown with its arguments.

use std::alloc::AllocError;
use wh_terms::Term;
use wh_text::print_number;
use wh_types::{Bytes, SimpleType};

/// The text of a type.
pub fn spell_type(out: &mut Bytes, kind: &SimpleType) -> Result<(), AllocError> {
    match kind {
        SimpleType::Sort(sort) => print_number(out, *sort),
        SimpleType::Arrow(argument, rest) => {
            out.push(b'(')?;
            spell_type(out, argument)?;
            out.append(b"->")?;
            spell_type(out, rest)?;
            out.push(b')')
        }
    }
}

/// A letter and a number.
fn spell_numbered(out: &mut Bytes, letter: u8, number: u32) -> Result<(), AllocError> {
    out.push(letter)?;
    print_number(out, number)
}

/// The text of a term.
pub fn spell(out: &mut Bytes, term: &Term) -> Result<(), AllocError> {
    match term {
        Term::Bound(number) => spell_numbered(out, b'#', *number),
        Term::Fun(symbol) => spell_numbered(out, b'f', *symbol),
        Term::Meta(meta, _) => spell_numbered(out, b'?', *meta),
        Term::Free(number, kind) => {
            spell_numbered(out, b'%', *number)?;
            out.push(b':')?;
            spell_type(out, kind)
        }
        Term::Lam(kind, body) => {
            out.push(b'\\')?;
            spell_type(out, kind)?;
            out.push(b'.')?;
            spell(out, body)
        }
        Term::App(function, argument) => {
            out.push(b'(')?;
            spell(out, function)?;
            out.push(b' ')?;
            spell(out, argument)?;
            out.push(b')')
        }
    }
}

/// The text of a term, or `none`.
pub fn spell_option(out: &mut Bytes, term: Option<&Term>) -> Result<(), AllocError> {
    match term {
        Some(term) => spell(out, term),
        None => out.append(b"none"),
    }
}
