//! The type of a term. `type_of` finds it in one walk over the term, which keeps the types of the binders around it.

ghost use Rattle.std.specs.Prelude.{
  ◌≡◌,
  ◌↔◌,
  IfOk,
  IsTrue,
  MatchOption,
  OnOk,
  [],
  option_map,
  slice_get,
};
ghost use Rattle.wh_terms.specs.Erase.{declared_metas, symbols, tms, tm};
ghost use Rattle.wh_terms.specs.Tree.{lam, meta as meta_tree};
ghost use Rattle.wh_terms.specs.Typing.{AllTyped, Typed};
ghost use Rattle.wh_terms.specs.Scope.{TellsType, scope};
ghost use Rattle.wh_types.specs.Erase.{ty, tys};
ghost use Rattle.wh_types.specs.Ty.{Ty, SortsBelow, ◌⇒◌};

use crate::rule::{Metas, Signature};
use crate::term::{Term, Terms};
use std::alloc::{AllocError, Global};
use wh_types::{SimpleType, same_type};

/// The type of a term over the symbols of `signature` and the meta-variables `metas`; `None` exactly where it has none:
/// it is ill typed, has a loose bound variable, names a symbol or meta-variable that is not declared, or has a sort
/// that is not below `signature.sorts`.
pub fn type_of(
    alloc: Global,
    signature: &Signature,
    metas: &Metas,
    term: &Term,
) -> Result<Option<SimpleType>, AllocError>
    ensures { IfOk result (λ answer. TellsType (symbols signature.now) (declared_metas metas.now) [] (tm term.now) answer) }
{
    let mut binders = Vec::new(alloc);
    type_under(alloc, signature, metas, &mut binders, term)
}

// The type of a part of a term below binders of the types `binders`, the outermost first.
#[cycle(typing)]
fn type_under<'a>(
    alloc: Global,
    signature: &Signature,
    metas: &Metas,
    binders: &mut Vec<&'a SimpleType>,
    term: &'a Term,
) -> Result<Option<SimpleType>, AllocError>
    ensures typed { IfOk result (λ answer. TellsType (symbols signature.now) (declared_metas metas.now) (scope binders.old.items)
        (tm term.now) answer) }
    ensures kept { OnOk result (binders.new.items ≡ binders.old.items) }
{
    match term {
        Term::Bound(number) => type_of_binder(alloc, binders, *number),
        Term::Free(_, kind) => {
            if has_sorts_below(kind, signature.sorts) {
                Ok(Some(kind.copy(alloc)?))
            } else {
                Ok(None)
            }
        }
        Term::Fun(symbol) => type_of_symbol(alloc, signature.funs.as_slice(), *symbol),
        Term::Meta(meta, items) => type_of_meta(alloc, signature, metas, binders, *meta, items),
        Term::Lam(kind, body) => type_of_abstraction(alloc, signature, metas, binders, kind, body),
        Term::App(function, argument) => {
            let Some(function) = type_under(alloc, signature, metas, binders, function)? else {
                return Ok(None);
            };
            let Some(argument) = type_under(alloc, signature, metas, binders, argument)? else {
                return Ok(None);
            };
            Ok(applied(function, &argument))
        }
    }
}

// The type of a meta-variable with its arguments, below binders of the types `binders`.
#[cycle(typing)]
fn type_of_meta<'a>(
    alloc: Global,
    signature: &Signature,
    metas: &Metas,
    binders: &mut Vec<&'a SimpleType>,
    meta: u32,
    items: &'a Terms,
) -> Result<Option<SimpleType>, AllocError>
    ensures typed { IfOk result (λ answer. TellsType (symbols signature.now) (declared_metas metas.now) (scope binders.old.items)
        (meta_tree meta (tms items.now)) answer) }
    ensures kept { OnOk result (binders.new.items ≡ binders.old.items) }
{
    let Some(declared) = metas.as_slice().get(meta as usize) else {
        return Ok(None);
    };
    let kinds = declared.args.as_slice();
    if have_types(alloc, signature, metas, binders, items, kinds)? {
        Ok(Some(declared.result.copy(alloc)?))
    } else {
        Ok(None)
    }
}

// The type of an abstraction over a variable of the type `kind`, below binders of the types `binders`.
#[cycle(typing)]
fn type_of_abstraction<'a>(
    alloc: Global,
    signature: &Signature,
    metas: &Metas,
    binders: &mut Vec<&'a SimpleType>,
    kind: &'a SimpleType,
    body: &'a Term,
) -> Result<Option<SimpleType>, AllocError>
    ensures typed { IfOk result (λ answer. TellsType (symbols signature.now) (declared_metas metas.now) (scope binders.old.items)
        (lam (ty kind.now) (tm body.now)) answer) }
    ensures kept { OnOk result (binders.new.items ≡ binders.old.items) }
{
    if !has_sorts_below(kind, signature.sorts) {
        return Ok(None);
    }
    binders.push(kind)?;
    let answer = type_under(alloc, signature, metas, binders, body)?;
    let _ = binders.pop();
    match answer {
        Some(rest) => Ok(Some(arrow(alloc, kind.copy(alloc)?, rest)?)),
        None => Ok(None),
    }
}

// Whether the terms have the types, one for one.
#[cycle(typing)]
fn have_types<'a>(
    alloc: Global,
    signature: &Signature,
    metas: &Metas,
    binders: &mut Vec<&'a SimpleType>,
    items: &'a Terms,
    kinds: &[SimpleType],
) -> Result<bool, AllocError>
    ensures typed { IfOk result (λ yes. IsTrue yes ↔ AllTyped (symbols signature.now) (declared_metas metas.now)
        (scope binders.old.items) (tms items.now) (tys kinds.now)) }
    ensures kept { OnOk result (binders.new.items ≡ binders.old.items) }
{
    let terms = items.as_slice();
    if terms.len() != kinds.len() {
        return Ok(false);
    }
    for (i, term) in terms.iter().enumerate() {
        let Some(kind) = type_under(alloc, signature, metas, binders, term)? else {
            return Ok(false);
        };
        if !same_type(&kind, &kinds[i]) {
            return Ok(false);
        }
    }
    Ok(true)
}

// The type of the binder that the number counts to, from the nearest outward.
fn type_of_binder(
    alloc: Global,
    binders: &[&SimpleType],
    number: u32,
) -> Result<Option<SimpleType>, AllocError>
    ensures { IfOk result (λ answer. option_map ty answer ≡ slice_get (scope binders.now) number) }
{
    let outward = number as usize;
    if outward < binders.len() {
        Ok(Some(binders[binders.len() - 1 - outward].copy(alloc)?))
    } else {
        Ok(None)
    }
}

// The type of the symbol of that number, where the symbols have the types `kinds`.
fn type_of_symbol(
    alloc: Global,
    kinds: &[SimpleType],
    symbol: u32,
) -> Result<Option<SimpleType>, AllocError>
    ensures { IfOk result (λ answer. option_map ty answer ≡ slice_get (tys kinds.now) symbol) }
{
    match kinds.get(symbol as usize) {
        Some(kind) => Ok(Some(kind.copy(alloc)?)),
        None => Ok(None),
    }
}

// Whether every sort in the type is one of the first `sorts`.
fn has_sorts_below(kind: &SimpleType, sorts: u32) -> bool
    ensures { IsTrue result ↔ SortsBelow sorts (ty kind.now) }
{
    match kind {
        SimpleType::Sort(sort) => *sort < sorts,
        SimpleType::Arrow(argument, rest) => {
            has_sorts_below(argument, sorts) && has_sorts_below(rest, sorts)
        }
    }
}

// The type of functions from the one type to the other.
fn arrow(
    alloc: Global,
    argument: SimpleType,
    result_type: SimpleType,
) -> Result<SimpleType, AllocError>
    ensures { IfOk result (λ whole. ty whole ≡ ty argument ⇒ ty result_type) }
{
    Ok(SimpleType::Arrow(Box::new(alloc, argument)?, Box::new(alloc, result_type)?))
}

// The type of the result where a function of the one type is applied to an argument of the other.
fn applied(function: SimpleType, argument: &SimpleType) -> Option<SimpleType>
    ensures { MatchOption result ((b : Ty) → ty function ≡ ty argument.now ⇒ b → ⊥) (λ b. ty function ≡ ty argument.now ⇒ ty b) }
{
    match function {
        SimpleType::Arrow(domain, rest) => {
            if same_type(&domain, argument) {
                Some(Box::into_inner(rest))
            } else {
                None
            }
        }
        SimpleType::Sort(_) => None,
    }
}
