//! The parts of terms, resolved: names, meta-variables with arguments, applications and abstractions.

ghost use Rattle.std.specs.Prelude.{◌≡◌, Some, None, [], ◌∷◌, not, option_map, length, IfOk};
ghost use Rattle.wh_types.specs.Erase.{ty, tys};
ghost use Rattle.wh_types.specs.Ty.{◌⇒◌};
ghost use Rattle.wh_terms.specs.Erase.{tm};
ghost use Rattle.wh_terms.specs.Tree.{app, lam};
ghost use Rattle.wh_text.specs.Erase.{rtms};
ghost use Rattle.wh_text.specs.RawTree.{named, numbered};
ghost use Rattle.wh_system_resolve.specs.Answers.{Resolves};
ghost use Rattle.wh_system_parts.specs.Faults.{IsFirstFault};
ghost use Rattle.wh_system_resolve.specs.InScope.{scope as in_scope, type_of, typed, types_of};
ghost use Rattle.wh_system_parts.specs.Kinds.{takes, gives};
ghost use Rattle.wh_system_resolve.specs.Resolving.{ResolvesTerm, ResolvesMeta, fitting_tests};
ghost use Rattle.wh_system_parts.specs.Tests.{test};
ghost use Rattle.wh_system_parts.specs.declared.fault.SystemFault.TheVariants.{IllTyped};

use crate::around::{Around, Resolved, ResolvedList};
use crate::kind::Kind;
use crate::lookup::{nearest_named, nearest_numbered, variable_of};
use crate::scope::Scope;
use std::alloc::{AllocError, Global};
use wh_system_parts::{SystemFault, offset};
use wh_terms::{Term, Terms};
use wh_text::{Name, RawTerms};
use wh_types::{Or, SimpleType, same_type};

/// A plain name: the innermost binder of that name, else the meta-variable, else the symbol.
pub fn resolve_name<'a>(
    alloc: Global,
    scope: &Scope<'a>,
    passed: &[Around],
    name: &Name,
    at: u32,
) -> Result<Resolved<'a>, Or<SystemFault>>
    ensures { ResolvesTerm (in_scope scope.now) (typed passed.now) (named name.now at) result }
{
    match nearest_named(passed, name.bytes()) {
        Some(number) => variable_of(alloc, passed, number),
        None => resolve_declared(alloc, scope, name, at),
    }
}

/// A plain name that no binder has.
pub fn resolve_declared<'a>(
    alloc: Global,
    scope: &Scope<'a>,
    name: &Name,
    at: u32,
) -> Result<Resolved<'a>, Or<SystemFault>>
    ensures { ResolvesTerm (in_scope scope.now) [] (named name.now at) result }
{
    if let Some(meta) = scope.metas.number(name) {
        let declared = &scope.declared.as_slice()[meta as usize];
        if !declared.args.as_slice().is_empty() {
            return Err(Or::Because(SystemFault::IllTyped { at }));
        }
        return Ok(Resolved {
            term: Term::Meta(meta, Terms::new(alloc)),
            kind: Kind::Known(&declared.result),
        });
    }
    match scope.funs.number(name) {
        Some(fun) => Ok(Resolved {
            term: Term::Fun(fun),
            kind: Kind::Known(&scope.kinds.as_slice()[fun as usize]),
        }),
        None => Err(Or::Because(SystemFault::UnknownName { at })),
    }
}

/// `$` with a number.
pub fn resolve_numbered<'a>(
    alloc: Global,
    scope: &Scope<'a>,
    passed: &[Around],
    number: u32,
    at: u32,
) -> Result<Resolved<'a>, Or<SystemFault>>
    ensures { ResolvesTerm (in_scope scope.now) (typed passed.now) (numbered number at) result }
{
    let _ = scope;
    match nearest_numbered(passed, number) {
        Some(nearest) => variable_of(alloc, passed, nearest),
        None => Err(Or::Because(SystemFault::UnknownName { at })),
    }
}

/// A meta-variable with its resolved arguments.
pub fn applied_meta<'a>(
    alloc: Global,
    scope: &Scope<'a>,
    name: &Name,
    list: ResolvedList<'a>,
    items: &RawTerms,
    at: u32,
) -> Result<Resolved<'a>, Or<SystemFault>>
    requires { length list.kinds ≡ length items.now }
    ensures { ResolvesMeta (in_scope scope.now) name.now list.entry (rtms items.now) at result }
{
    let Some(meta) = scope.metas.number(name) else {
        return Err(Or::Because(SystemFault::UnknownName { at }));
    };
    let declared = &scope.declared.as_slice()[meta as usize];
    let wanted = declared.args.as_slice();
    if wanted.len() != items.as_slice().len() {
        return Err(Or::Because(SystemFault::IllTyped { at }));
    }
    check_fitting(list.kinds.as_slice(), items, wanted)?;
    Ok(Resolved {
        term: Term::Meta(meta, list.trees),
        kind: Kind::Known(&declared.result),
    })
}

// Whether the arguments, whose types are given, have the types that are wanted.
#[tactic(auto, using(crate::proofs::FittingLemmas::fitting_next, crate::proofs::FittingLemmas::fitting_end))]
fn check_fitting(given: &[Kind], items: &RawTerms, wanted: &[SimpleType]) -> Result<(), SystemFault>
    requires given { length given.now ≡ length items.now }
    requires wanted { length wanted.now ≡ length items.now }
    ensures { IsFirstFault (fitting_tests (types_of given.now) (rtms items.now) (tys wanted.now)) result }
{
    let items = items.as_slice();
    for i in 0..items.len() {
        if !same_type(given[i].as_type(), &wanted[i]) {
            return Err(SystemFault::IllTyped {
                at: offset(&items[i]),
            });
        }
    }
    Ok(())
}

/// The function applied to the argument, which stands at `at`.
pub fn applied<'a>(
    alloc: Global,
    function: Resolved<'a>,
    argument: Resolved<'a>,
    at: u32,
) -> Result<Resolved<'a>, Or<SystemFault>>
    ensures { Resolves (test (not (takes (Some (type_of function.entry.kind)) (Some (type_of argument.entry.kind)))) (IllTyped at) ∷ [])
        (Some (app (tm function.entry.term) (tm argument.entry.term))) (gives (Some (type_of function.entry.kind))) result }
{
    let Resolved { term, kind } = function;
    let Some(kind) = kind.applied_to(argument.kind.as_type()) else {
        return Err(Or::Because(SystemFault::IllTyped { at }));
    };
    Ok(Resolved {
        term: Term::App(Box::new(alloc, term)?, Box::new(alloc, argument.term)?),
        kind,
    })
}

/// The abstraction of a body over a variable of the type.
pub fn abstracted<'a>(
    alloc: Global,
    kind: SimpleType,
    body: Resolved<'a>,
) -> Result<Resolved<'a>, AllocError>
    ensures term { IfOk result (λ whole. tm whole.term ≡ lam (ty kind) (tm body.entry.term)) }
    ensures kind { IfOk result (λ whole. type_of whole.kind ≡ ty kind ⇒ type_of body.entry.kind) }
{
    let Resolved { term, kind: rest } = body;
    let whole = arrow(alloc, &kind, rest)?;
    let term = abstraction(alloc, kind, term)?;
    Ok(Resolved {
        term,
        kind: Kind::Own(whole),
    })
}

// The type of the functions from the one type to the other.
fn arrow(alloc: Global, domain: &SimpleType, rest: Kind) -> Result<SimpleType, AllocError>
    ensures { IfOk result (λ whole. ty whole ≡ ty domain.now ⇒ type_of rest.entry) }
{
    let rest = Box::new(alloc, rest.into_type(alloc)?)?;
    let domain = Box::new(alloc, domain.copy(alloc)?)?;
    Ok(SimpleType::Arrow(domain, rest))
}

// The body below a binder, whose variable has the type.
fn abstraction(alloc: Global, kind: SimpleType, body: Term) -> Result<Term, AllocError>
    ensures { IfOk result (λ whole. tm whole ≡ lam (ty kind) (tm body)) }
{
    Ok(Term::Lam(kind, Box::new(alloc, body)?))
}
