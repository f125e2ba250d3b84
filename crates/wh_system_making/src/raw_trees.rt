//! Canonical raw types and terms: the trees that the canonical texts say. One walk, which counts the binders that it
//! has passed.

ghost use Rattle.std.specs.Prelude.{◌≡◌, ◌+◌, IfOk, OnOk, length};
ghost use Rattle.wh_terms.specs.Typing.{WellTyped};
ghost use Rattle.wh_types.specs.Ty.{SortsBelow};
ghost use Rattle.wh_types.specs.Erase.{ty};
ghost use Rattle.wh_terms.specs.Erase.{tm, tms};
ghost use Rattle.wh_text.specs.Erase.{rty, rtys, rtm, rtms};
ghost use Rattle.wh_text.specs.RawTree.{RTm, spine};
ghost use Rattle.wh_system.specs.Canonical.{IsNamedBelow, AreNamedBelow, and_last, join_types, raw_type_of, raw_arguments_of, raw_below, each_raw_below, raw_of, with_argument};
ghost use Rattle.wh_system.specs.CanonicalView.{names_of_system};
ghost use Rattle.wh_system_making.specs.TermNamesView.{term_names};
ghost use Rattle.wh_system_making.specs.Resolve.{Means};
ghost use Rattle.wh_system.specs.SystemView.{system_data};

use std::alloc::{AllocError, Global};
use wh_system::System;
use wh_terms::{Term, Terms};
use wh_text::{Name, RawBinder, RawTerm, RawTerms, RawType, RawTypes};
use wh_types::{SimpleType, sum};

/// The names of what may stand in a term, by number.
#[derive(Drop)]
pub struct TermNames<'a> {
    /// The names of the sorts.
    pub sorts: &'a [Name],
    /// The names of the symbols.
    pub funs: &'a [Name],
    /// The names of the meta-variables.
    pub metas: &'a [Name],
}

/// The canonical raw tree of a well-typed term of a system: it stands for that term.
pub fn raw_term(alloc: Global, system: &System, term: &Term) -> Result<RawTerm, AllocError>
    requires { WellTyped (system_data system.now).symbols (tm term.now) }
    ensures tree { IfOk result (λ raw. rtm raw ≡ raw_of (names_of_system (system_data system.now)) (tm term.now)) }
    ensures meant { IfOk result (λ raw. Means (system_data system.now) (rtm raw) (tm term.now)) }
{
    let names = TermNames {
        sorts: system.sort_names(),
        funs: system.fun_names(),
        metas: &[],
    };
    raw_with(alloc, &names, term)
}

// The canonical raw tree of a term: symbols and meta-variables by their names, a bound variable by the number of
// binders above its own one, a spine with all its arguments in one list.
fn raw_with(alloc: Global, names: &TermNames, term: &Term) -> Result<RawTerm, AllocError>
    requires { IsNamedBelow (term_names names.now) 0 (tm term.now) }
    ensures { IfOk result (λ raw. rtm raw ≡ raw_of (term_names names.now) (tm term.now)) }
{
    raw_under(alloc, names, term, 0)
}

// The canonical raw tree of a part of a term below `depth` binders.
#[cycle(raw_under)]
fn raw_under(
    alloc: Global,
    names: &TermNames,
    term: &Term,
    depth: u32,
) -> Result<RawTerm, AllocError>
    requires { IsNamedBelow (term_names names.now) depth (tm term.now) }
    ensures { IfOk result (λ raw. rtm raw ≡ raw_below (term_names names.now) depth (tm term.now)) }
{
    match term {
        Term::Bound(outward) => Ok(RawTerm::Numbered(depth - (*outward + 1), 0)),
        Term::Free(number, kind) => {
            let kind = Box::new(alloc, raw_type(alloc, names.sorts, kind)?)?;
            Ok(RawTerm::Free(*number, kind, 0))
        }
        Term::Fun(symbol) => Ok(RawTerm::Named(copy_of(alloc, &names.funs[*symbol as usize])?, 0)),
        Term::Meta(meta, items) => {
            let name = copy_of(alloc, &names.metas[*meta as usize])?;
            if items.as_slice().is_empty() {
                return Ok(RawTerm::Named(name, 0));
            }
            Ok(RawTerm::Meta(name, raw_each(alloc, names, items, depth)?, 0))
        }
        Term::Lam(kind, body) => {
            let kind = Box::new(alloc, raw_type(alloc, names.sorts, kind)?)?;
            let body = raw_under(alloc, names, body, sum(depth, 1)?)?;
            Ok(RawTerm::Lam(RawBinder::Numbered(depth), kind, Box::new(alloc, body)?, 0))
        }
        Term::App(function, argument) => {
            let function = raw_under(alloc, names, function, depth)?;
            let argument = raw_under(alloc, names, argument, depth)?;
            with_argument(alloc, function, argument)
        }
    }
}

// The canonical raw trees of the arguments of a meta-variable below `depth` binders.
#[cycle(raw_under)]
fn raw_each(
    alloc: Global,
    names: &TermNames,
    items: &Terms,
    depth: u32,
) -> Result<RawTerms, AllocError>
    requires { AreNamedBelow (term_names names.now) depth (tms items.now) }
    ensures { IfOk result (λ raw. rtms raw ≡ each_raw_below (term_names names.now) depth (tms items.now)) }
{
    let mut raw = RawTerms::new(alloc);
    for item in items.as_slice() {
        raw.push(raw_under(alloc, names, item, depth)?)?;
    }
    Ok(raw)
}

// The term with one argument more.
fn with_argument(alloc: Global, function: RawTerm, argument: RawTerm) -> Result<RawTerm, AllocError>
    ensures { IfOk result (λ whole. rtm whole ≡ with_argument (rtm function) (rtm argument)) }
{
    let (head, mut items, at) = spine_parts(alloc, function)?;
    items.push(argument)?;
    Ok(RawTerm::Spine(head, items, at))
}

// The head of a term, its arguments, and the byte where it stands, to which one argument more may join: a term that is
// no spine is a head without arguments.
fn spine_parts(alloc: Global, term: RawTerm) -> Result<(Box<RawTerm>, RawTerms, u32), AllocError>
    ensures { IfOk result (λ parts. (u : RTm) → with_argument (rtm term) u
        ≡ spine (rtm parts.0.value) (and_last (rtms parts.1) u) parts.2) }
{
    match term {
        RawTerm::Spine(head, items, at) => Ok((head, items, at)),
        head @ (RawTerm::Named(_, _)
        | RawTerm::Numbered(_, _)
        | RawTerm::Free(_, _, _)
        | RawTerm::Meta(_, _, _)
        | RawTerm::Lam(_, _, _, _)) => Ok((Box::new(alloc, head)?, RawTerms::new(alloc), 0)),
    }
}

/// The canonical raw tree of a type: its arguments in one list, then the name of its sort.
#[cycle(raw_type)]
pub fn raw_type(alloc: Global, sorts: &[Name], kind: &SimpleType) -> Result<RawType, AllocError>
    requires { SortsBelow (length sorts.now) (ty kind.now) }
    ensures { IfOk result (λ raw. rty raw ≡ raw_type_of sorts.now (ty kind.now)) }
{
    let mut args = RawTypes::new(alloc);
    push_arguments(alloc, sorts, kind, &mut args)?;
    Ok(RawType {
        args,
        sort: copy_of(alloc, &sorts[kind.result_sort() as usize])?,
        at: 0,
    })
}

// The raw trees of the arguments join at the end of the list.
#[cycle(raw_type)]
fn push_arguments(
    alloc: Global,
    sorts: &[Name],
    kind: &SimpleType,
    args: &mut RawTypes,
) -> Result<(), AllocError>
    requires { SortsBelow (length sorts.now) (ty kind.now) }
    ensures { OnOk result (rtys args.new ≡ join_types (rtys args.old) (raw_arguments_of sorts.now (ty kind.now))) }
{
    if let SimpleType::Arrow(domain, rest) = kind {
        args.push(raw_type(alloc, sorts, domain)?)?;
        push_arguments(alloc, sorts, rest, args)?;
    }
    Ok(())
}

// A copy of the name.
fn copy_of(alloc: Global, name: &Name) -> Result<Name, AllocError>
    ensures { IfOk result (λ copy. copy ≡ name.now) }
{
    Name::new(alloc, name.bytes())
}
