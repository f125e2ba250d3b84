//! The names and types of a side: the term that a raw term stands for and its type, or the first test of names and
//! types that fails. One walk, which keeps the binders that it has passed.

ghost use Rattle.std.specs.Prelude.{◌≡◌, Some, None, [], ◌∷◌, OnOk, not, option_map, length};
ghost use Rattle.wh_types.specs.Erase.{ty, tys};
ghost use Rattle.wh_types.specs.Outcome.{MatchOr};
ghost use Rattle.wh_terms.specs.Erase.{tm};
ghost use Rattle.wh_terms.specs.Tree.{app};
ghost use Rattle.wh_text.specs.Erase.{rtm, rty, rtms, rbinder};
ghost use Rattle.wh_text.specs.RawTree.{named, numbered, free_variable, lam as raw_lam};
ghost use Rattle.wh_system_resolve.specs.Answers.{Resolves};
ghost use Rattle.wh_system_parts.specs.Faults.{IsFirstFault, first_fault};
ghost use Rattle.wh_system_resolve.specs.InScope.{scope as in_scope, type_of, typed};
ghost use Rattle.wh_system_parts.specs.Kinds.{kind_of, takes, gives};
ghost use Rattle.wh_system_parts.specs.Naming.{meant};
ghost use Rattle.wh_system_resolve.specs.Resolving.{ResolvesTerm, ResolvesSpine, ResolvesEach, ResolvesMeta, fitting_tests};
ghost use Rattle.wh_system_parts.specs.Tests.{naming_tests, test};
ghost use Rattle.wh_system_parts.specs.declared.fault.SystemFault.TheVariants.{IllTyped};

use crate::around::{Around, Resolved, ResolvedList};
use crate::kind::Kind;
use crate::resolve_parts::{abstracted, applied, applied_meta, resolve_name, resolve_numbered};
use crate::scope::Scope;
use std::alloc::Global;
use wh_system_parts::{SystemFault, offset, resolve_type};
use wh_terms::{Term, Terms};
use wh_text::{RawBinder, RawTerm, RawTerms};
use wh_types::{List, Or, SimpleType};

/// The term that a side stands for, and its type. The fault is that of the first test of names and types that fails,
/// inner terms before outer ones and left before right.
pub fn resolve_side(
    alloc: Global,
    scope: &Scope,
    side: &RawTerm,
) -> Result<(Term, SimpleType), Or<SystemFault>>
    ensures { MatchOr result (λ r. (first_fault (naming_tests (in_scope scope.now) [] (rtm side.now)) ≡ None)
        × (meant (in_scope scope.now) [] (rtm side.now) ≡ Some (tm r.0))
        × (kind_of (in_scope scope.now) [] (rtm side.now) ≡ Some (ty r.1)))
        (λ fault. first_fault (naming_tests (in_scope scope.now) [] (rtm side.now)) ≡ Some fault) }
{
    let mut passed = Vec::new(alloc);
    let Resolved { term, kind } = resolve_under(alloc, scope, &mut passed, side)?;
    Ok((term, kind.into_type(alloc)?))
}

// The term that a part of a side stands for, and its type, below the binders in `passed`, of which the innermost is the
// last.
#[cycle(resolve)]
fn resolve_under<'a, 'b>(
    alloc: Global,
    scope: &Scope<'b>,
    passed: &mut Vec<Around<'a>>,
    term: &'a RawTerm,
) -> Result<Resolved<'b>, Or<SystemFault>>
    ensures told { ResolvesTerm (in_scope scope.now) (typed passed.old.items) (rtm term.now) result }
    ensures kept { OnOk result (passed.new.items ≡ passed.old.items) }
{
    match term {
        RawTerm::Named(name, at) => resolve_name(alloc, scope, passed, name, *at),
        RawTerm::Numbered(number, at) => resolve_numbered(alloc, scope, passed, *number, *at),
        RawTerm::Free(number, kind, _) => Ok(Resolved {
            term: Term::Free(*number, resolve_type(alloc, scope.sorts, kind)?),
            kind: Kind::Own(resolve_type(alloc, scope.sorts, kind)?),
        }),
        RawTerm::Meta(name, items, at) => {
            let list = resolve_each(alloc, scope, passed, items)?;
            applied_meta(alloc, scope, name, list, items, *at)
        }
        RawTerm::Lam(binder, kind, body, _) => {
            let kind = resolve_type(alloc, scope.sorts, kind)?;
            let body = resolve_below(alloc, scope, passed, binder, kind.copy(alloc)?, body)?;
            Ok(abstracted(alloc, kind, body)?)
        }
        RawTerm::Spine(head, items, _) => {
            let head = resolve_under(alloc, scope, passed, head)?;
            resolve_applied(alloc, scope, passed, head, items)
        }
    }
}

// The term that the body of an abstraction stands for, and its type, below one binder more, whose variable has the type
// `kind`.
#[cycle(resolve)]
fn resolve_below<'a, 'b>(
    alloc: Global,
    scope: &Scope<'b>,
    passed: &mut Vec<Around<'a>>,
    binder: &'a RawBinder,
    kind: SimpleType,
    body: &'a RawTerm,
) -> Result<Resolved<'b>, Or<SystemFault>>
    ensures told { ResolvesTerm (in_scope scope.now) (record { binder = rbinder binder.now; kind = Some (ty kind) }
        ∷ typed passed.old.items) (rtm body.now) result }
    ensures kept { OnOk result (passed.new.items ≡ passed.old.items) }
{
    passed.push(Around { binder, kind })?;
    let answer = resolve_under(alloc, scope, passed, body)?;
    let _ = passed.pop();
    Ok(answer)
}

// The terms that raw terms stand for, one after another, and their types.
#[cycle(resolve)]
fn resolve_each<'a, 'b>(
    alloc: Global,
    scope: &Scope<'b>,
    passed: &mut Vec<Around<'a>>,
    items: &'a RawTerms,
) -> Result<ResolvedList<'b>, Or<SystemFault>>
    ensures told { ResolvesEach (in_scope scope.now) (typed passed.old.items) (rtms items.now) result }
    ensures kept { OnOk result (passed.new.items ≡ passed.old.items) }
{
    let mut trees = Terms::new(alloc);
    let mut kinds = List::new(alloc);
    for item in items.as_slice() {
        let Resolved { term, kind } = resolve_under(alloc, scope, passed, item)?;
        trees.push(term)?;
        kinds.push(kind)?;
    }
    Ok(ResolvedList { trees, kinds })
}

// The head, applied to the arguments from the left.
#[cycle(resolve)]
fn resolve_applied<'a, 'b>(
    alloc: Global,
    scope: &Scope<'b>,
    passed: &mut Vec<Around<'a>>,
    head: Resolved<'b>,
    items: &'a RawTerms,
) -> Result<Resolved<'b>, Or<SystemFault>>
    ensures told { ResolvesSpine (in_scope scope.now) (typed passed.old.items) (Some (tm head.entry.term)) (Some (type_of head.entry.kind))
        (rtms items.now) result }
    ensures kept { OnOk result (passed.new.items ≡ passed.old.items) }
{
    let mut whole = head;
    for item in items.as_slice() {
        let argument = resolve_under(alloc, scope, passed, item)?;
        whole = applied(alloc, whole, argument, offset(item))?;
    }
    Ok(whole)
}
