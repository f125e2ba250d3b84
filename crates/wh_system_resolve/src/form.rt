//! The form of a left side: each part is one that a pattern may have. The walk goes over the term that the side stands
//! for, and over the side itself beside it, which tells where a fault is.

ghost use Rattle.std.specs.Prelude.{◌≡◌, ◌==◌, ◌&&◌, Some, [], not, reverse, IfOk};
ghost use Rattle.std.specs.List.{list_all};
ghost use Rattle.wh_terms.specs.Erase.{tm, tms};
ghost use Rattle.wh_text.specs.Erase.{rtm, rtms};
ghost use Rattle.wh_text.specs.RawTree.{spine};
ghost use Rattle.wh_system_resolve.specs.Answers.{Reports};
ghost use Rattle.wh_system_resolve.specs.Form.{
  TellsForm,
  are_distinct_bound,
  are_names,
  arguments_in,
  have_distinct,
  is_front,
  is_name,
};
ghost use Rattle.wh_system_parts.specs.Naming.{Scope, meant};
ghost use Rattle.wh_system_parts.specs.RuleTests.{pattern_tests};

use crate::parts::meta_arguments;
use std::alloc::{AllocError, Global};
use wh_system_parts::SystemFault;
use wh_terms::Term;
use wh_text::{RawTerm, RawTerms};
use wh_types::Or;

/// Whether each part of a left side, which stands for the term, has the form of a pattern's; the fault is at the first
/// that has not, in preorder.
pub fn check_pattern(alloc: Global, left: &Term, raw: &RawTerm) -> Result<(), Or<SystemFault>>
    ensures { (s : Scope) → meant s [] (rtm raw.now) ≡ Some (tm left.now) → Reports (pattern_tests s [] (rtm raw.now)) result }
{
    check_form(alloc, left, raw)
}

// Whether each part of a left side has the form of a pattern's, where the term stands below any binders; the fault is
// at the first part that has not.
#[cycle(form)]
fn check_form(alloc: Global, term: &Term, raw: &RawTerm) -> Result<(), Or<SystemFault>>
    ensures { TellsForm (tm term.now) (rtm raw.now) result }
{
    match raw {
        RawTerm::Free(_, _, at) => Err(Or::Because(SystemFault::NotPattern { at: *at })),
        RawTerm::Meta(_, items, at) => {
            if has_distinct(alloc, term, items)? {
                Ok(())
            } else {
                Err(Or::Because(SystemFault::NotPattern { at: *at }))
            }
        }
        RawTerm::Lam(_, _, inner, _) => {
            let Term::Lam(_, body) = term else {
                return Ok(());
            };
            check_form(alloc, body, inner)
        }
        RawTerm::Spine(head, items, at) => {
            check_applied(alloc, term, head, items.as_slice(), *at)
        }
        RawTerm::Named(_, _) | RawTerm::Numbered(_, _) => Ok(()),
    }
}

// Whether a head with the items as its arguments has the form of a pattern's. The head stands at `at`, and the last
// item is the argument of the application that the term is.
#[cycle(form)]
fn check_applied(
    alloc: Global,
    term: &Term,
    head: &RawTerm,
    items: &[RawTerm],
    at: u32,
) -> Result<(), Or<SystemFault>>
    ensures { TellsForm (tm term.now) (spine (rtm head.now) (rtms items.now) at) result }
{
    let Some((last, front)) = items.split_last() else {
        if may_head(term, head) {
            return Ok(());
        }
        return Err(Or::Because(SystemFault::NotPattern { at }));
    };
    let Term::App(function, argument) = term else {
        return Ok(());
    };
    check_applied(alloc, function, head, front, at)?;
    check_form(alloc, argument, last)
}

// Whether a pattern may have the head, which stands for the term: a bound variable or a symbol.
fn may_head(term: &Term, head: &RawTerm) -> bool
    ensures { result ≡ (is_name (rtm head.now) && is_front (tm term.now)) }
{
    is_name(head) && is_front(term)
}

// Whether the term is a bound variable or a symbol.
fn is_front(term: &Term) -> bool
    ensures { result ≡ is_front (tm term.now) }
{
    match term {
        Term::Bound(_) | Term::Fun(_) => true,
        Term::Free(_, _) | Term::Meta(_, _) | Term::Lam(_, _) | Term::App(_, _) => false,
    }
}

// Whether the raw term is one name.
fn is_name(raw: &RawTerm) -> bool
    ensures { result ≡ is_name (rtm raw.now) }
{
    match raw {
        RawTerm::Named(_, _) | RawTerm::Numbered(_, _) => true,
        RawTerm::Free(_, _, _)
        | RawTerm::Meta(_, _, _)
        | RawTerm::Lam(_, _, _, _)
        | RawTerm::Spine(_, _, _) => false,
    }
}

// Whether the term is a meta-variable on distinct bound variables, and the raw arguments are names of these.
fn has_distinct(alloc: Global, term: &Term, items: &RawTerms) -> Result<bool, AllocError>
    ensures { IfOk result (λ yes. yes ≡ (are_names (rtms items.now) && have_distinct (arguments_in (tm term.now)))) }
{
    if !are_names(items.as_slice()) {
        return Ok(false);
    }
    match meta_arguments(term) {
        Some(arguments) => are_distinct(alloc, arguments),
        None => Ok(false),
    }
}

// Whether each raw term is one name.
fn are_names(items: &[RawTerm]) -> bool
    ensures { result ≡ are_names (rtms items.now) }
{
    for item in items {
        if !is_name(item) {
            return false;
        }
    }
    true
}

// Whether the terms are distinct bound variables.
fn are_distinct(alloc: Global, items: &[Term]) -> Result<bool, AllocError>
    ensures { IfOk result (λ yes. yes ≡ are_distinct_bound [] (tms items.now)) }
{
    let mut seen = Vec::new(alloc);
    for item in items {
        let Term::Bound(number) = item else {
            return Ok(false);
        };
        if !is_unseen(*number, &seen) {
            return Ok(false);
        }
        seen.push(*number)?;
    }
    Ok(true)
}

// Whether the number is none of those seen.
fn is_unseen(number: u32, seen: &[u32]) -> bool
    ensures { result ≡ list_all (λ other. not (number == other)) (reverse seen.now) }
{
    seen.iter().rev().all(|other| number != *other)
}
