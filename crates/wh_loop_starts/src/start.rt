//! Starts: the terms that the search for loops begins at.

ghost use Rattle.std.specs.Prelude.{◌≡◌, ◌<◌, IfOk, length};
ghost use Rattle.wh_types.specs.Erase.{ty, tys};
ghost use Rattle.wh_terms.specs.Erase.{tm, tms, declared_metas};
ghost use Rattle.wh_terms.specs.Tree.{free};
ghost use Rattle.wh_terms.specs.Typing.{WellTyped};
ghost use Rattle.wh_system.specs.SystemView.{system_data};
ghost use Rattle.wh_loop_starts.specs.Starts.{IsStart, function_type, meta_type, freed, freed_spine};

use std::alloc::{AllocError, Global};
use wh_system::System;
use wh_terms::{MetaDecl, Term, Terms};
use wh_types::SimpleType;

// The type of functions of arguments of these types, in order, to the last one.
fn function_type(
    alloc: Global,
    arguments: &[SimpleType],
    last: &SimpleType,
) -> Result<SimpleType, AllocError>
    ensures { IfOk result (λ kind. ty kind ≡ function_type (tys arguments.now) (ty last.now)) }
{
    match arguments.split_first() {
        Some((first, rest)) => {
            let first = Box::new(alloc, first.copy(alloc)?)?;
            let rest = function_type(alloc, rest, last)?;
            Ok(SimpleType::Arrow(first, Box::new(alloc, rest)?))
        }
        None => last.copy(alloc),
    }
}

// The type of functions from a meta-variable's arguments to its result.
fn meta_type(alloc: Global, metas: &[MetaDecl], meta: u32) -> Result<SimpleType, AllocError>
    ensures { IfOk result (λ kind. ty kind ≡ meta_type (declared_metas metas.now) meta) }
{
    match metas.get(meta as usize) {
        Some(declared) => function_type(alloc, declared.args.as_slice(), &declared.result),
        None => Ok(SimpleType::Sort(0)),
    }
}

// The term with a free variable in place of each meta-variable.
#[cycle(freed)]
fn freed(alloc: Global, metas: &[MetaDecl], term: &Term) -> Result<Term, AllocError>
    ensures { IfOk result (λ r. tm r ≡ freed (declared_metas metas.now) (tm term.now)) }
{
    match term {
        Term::Bound(number) => Ok(Term::Bound(*number)),
        Term::Free(number, kind) => Ok(Term::Free(*number, kind.copy(alloc)?)),
        Term::Fun(symbol) => Ok(Term::Fun(*symbol)),
        Term::Meta(meta, items) => {
            let kind = meta_type(alloc, metas, *meta)?;
            applied(alloc, metas, Term::Free(*meta, kind), items)
        }
        Term::Lam(kind, body) => {
            let kind = kind.copy(alloc)?;
            Ok(Term::Lam(kind, Box::new(alloc, freed(alloc, metas, body)?)?))
        }
        Term::App(function, argument) => {
            let function = Box::new(alloc, freed(alloc, metas, function)?)?;
            Ok(Term::App(function, Box::new(alloc, freed(alloc, metas, argument)?)?))
        }
    }
}

// The head applied to the arguments of a meta-variable, with free variables in place of meta-variables in these.
#[cycle(freed)]
fn applied(alloc: Global, metas: &[MetaDecl], head: Term, items: &Terms) -> Result<Term, AllocError>
    ensures { IfOk result (λ r. tm r ≡ freed_spine (declared_metas metas.now) (tm head) (tms items.now)) }
{
    let mut whole = head;
    for item in items.as_slice() {
        let function = Box::new(alloc, whole)?;
        whole = Term::App(function, Box::new(alloc, freed(alloc, metas, item)?)?);
    }
    Ok(whole)
}

/// The start of the rule with the number: its left side with a free variable in place of each meta-variable, of its
/// number and of the type from its arguments to its result, applied to its arguments.
pub fn start_of_rule(alloc: Global, system: &System, number: u32) -> Result<Term, AllocError>
    requires { number < length (system_data system.now).rules }
    ensures start { IfOk result (λ start. IsStart (system_data system.now).rules number (tm start)) }
    ensures typed { IfOk result (λ start. WellTyped (system_data system.now).symbols (tm start)) }
{
    system.is_well_made();
    let rule = &system.rules()[number as usize];
    freed(alloc, rule.metas.as_slice(), &rule.left)
}
