//! Printing the terms of rules and of dependency pairs, in one walk over each tree, which counts the binders that it
//! has passed.
//!
//! `print_tree` is the one to call. A spine stands in parentheses: `print_front` goes down its functions, and appends
//! the head and then each argument on the way back.

ghost use Rattle.std.specs.Prelude.{◌∷◌, OnOk, length};
ghost use Rattle.wh_types.specs.Ty.{SortsBelow};
ghost use Rattle.wh_types.specs.Erase.{ty};
ghost use Rattle.wh_terms.specs.Erase.{tm, tms};
ghost use Rattle.wh_text.specs.Pushes.{Pushes};
ghost use Rattle.wh_text.specs.Spelling.{put_part, put_term, put_each, put_bracketed};
ghost use Rattle.wh_system.specs.Canonical.{raw_type_of, raw_below, each_raw_below, IsNamedBelow, AreNamedBelow};
ghost use Rattle.wh_system_print.specs.Fronts.{put_front};
ghost use Rattle.wh_system_print.specs.NameViews.{printed_names};

use crate::names::{PrintedNames, print_meta};
use crate::types::print_part;
use std::alloc::AllocError;
use wh_terms::{Term, Terms};
use wh_text::{Name, print_number};
use wh_types::{Bytes, SimpleType, sum};

/// Appends a term below `depth` binders.
#[cycle(print_tree)]
pub fn print_tree(
    out: &mut Bytes,
    names: &PrintedNames<'_>,
    term: &Term,
    depth: u32,
) -> Result<(), AllocError>
    requires { IsNamedBelow (printed_names names.now) depth (tm term.now) }
    ensures { OnOk result (Pushes out.old out.new (put_term (raw_below (printed_names names.now) depth (tm term.now)))) }
{
    match term {
        Term::Bound(outward) => {
            out.push(b'$')?;
            print_number(out, depth - (*outward + 1))
        }
        Term::Free(number, kind) => {
            out.push(b'%')?;
            print_number(out, *number)?;
            print_kind(out, names.sorts, kind)
        }
        Term::Fun(symbol) => out.append(names.funs[*symbol as usize].bytes()),
        Term::Meta(meta, items) => {
            print_meta(out, names, *meta)?;
            print_bracketed(out, names, items, depth)
        }
        Term::Lam(kind, body) => {
            out.append(b"(\\$")?;
            print_number(out, depth)?;
            print_kind(out, names.sorts, kind)?;
            out.push(b'.')?;
            print_tree(out, names, body, sum(depth, 1)?)?;
            out.push(b')')
        }
        Term::App(function, argument) => {
            out.push(b'(')?;
            print_front(out, names, function, depth)?;
            out.push(b' ')?;
            print_tree(out, names, argument, depth)?;
            out.push(b')')
        }
    }
}

// Appends a spine without its parentheses.
#[cycle(print_tree)]
fn print_front(
    out: &mut Bytes,
    names: &PrintedNames<'_>,
    term: &Term,
    depth: u32,
) -> Result<(), AllocError>
    requires { IsNamedBelow (printed_names names.now) depth (tm term.now) }
    ensures { OnOk result (Pushes out.old out.new (put_front (raw_below (printed_names names.now) depth (tm term.now)))) }
{
    let Term::App(function, argument) = term else {
        return print_tree(out, names, term, depth);
    };
    print_front(out, names, function, depth)?;
    out.push(b' ')?;
    print_tree(out, names, argument, depth)
}

// Appends the arguments of a meta-variable in brackets, and nothing where there are none.
#[cycle(print_tree)]
fn print_bracketed(
    out: &mut Bytes,
    names: &PrintedNames<'_>,
    items: &Terms,
    depth: u32,
) -> Result<(), AllocError>
    requires { AreNamedBelow (printed_names names.now) depth (tms items.now) }
    ensures { OnOk result (Pushes out.old out.new (put_bracketed (each_raw_below (printed_names names.now) depth (tms items.now)))) }
{
    if items.as_slice().is_empty() {
        return Ok(());
    }
    print_listed(out, names, items, depth)?;
    out.push(b']')
}

// Appends terms, the first one behind an opening bracket and the others behind commas.
#[cycle(print_tree)]
fn print_listed(
    out: &mut Bytes,
    names: &PrintedNames<'_>,
    items: &Terms,
    depth: u32,
) -> Result<(), AllocError>
    requires { AreNamedBelow (printed_names names.now) depth (tms items.now) }
    ensures { OnOk result (Pushes out.old out.new (put_each 91 44 (each_raw_below (printed_names names.now) depth (tms items.now)))) }
{
    let mut sign = b'[';
    for item in items.as_slice() {
        out.push(sign)?;
        print_tree(out, names, item, depth)?;
        sign = b',';
    }
    Ok(())
}

// Appends a colon and a type, as a part of something else.
fn print_kind(out: &mut Bytes, sorts: &[Name], kind: &SimpleType) -> Result<(), AllocError>
    requires { SortsBelow (length sorts.now) (ty kind.now) }
    ensures { OnOk result (Pushes out.old out.new (λ r. 58 ∷ put_part (raw_type_of sorts.now (ty kind.now)) r)) }
{
    out.push(b':')?;
    print_part(out, sorts, kind)
}
