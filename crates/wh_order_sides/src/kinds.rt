//! The type that a term has if it is well typed. It is found without a test of the arguments.

ghost use Rattle.std.specs.Prelude.{◌≡◌, [], IfOk, OnOk};
ghost use Rattle.wh_types.specs.Erase.{ty, tys};
ghost use Rattle.wh_terms.specs.Erase.{declared_metas, symbols, tm};
ghost use Rattle.wh_terms.specs.Scope.{scope};
ghost use Rattle.wh_order_extended.specs.Kinds.{codomain, kind, out_at, type_at};

use std::alloc::{AllocError, Global};
use wh_terms::{MetaDecl, Signature, Term};
use wh_types::SimpleType;

/// The type that a term without loose variables has if it is well typed; some type for any other one.
pub fn kind_of(
    alloc: Global,
    signature: &Signature,
    metas: &[MetaDecl],
    term: &Term,
) -> Result<SimpleType, AllocError>
    ensures { IfOk result (λ a. ty a ≡ kind (symbols signature.now) (declared_metas metas.now) [] (tm term.now)) }
{
    let mut binders = Vec::new(alloc);
    kind_under(alloc, signature, metas, &mut binders, term)
}

/// The type that a term has below binders of the types `binders`, the outermost first, if it is well typed there. A
/// symbol or variable that is not declared gets a sort as its type.
#[tactic(auto, using(crate::proofs::KindLemmas::kind_of_lam, crate::proofs::KindLemmas::kind_of_meta))]
pub fn kind_under<'a>(
    alloc: Global,
    signature: &Signature,
    metas: &[MetaDecl],
    binders: &mut Vec<&'a SimpleType>,
    term: &'a Term,
) -> Result<SimpleType, AllocError>
    ensures typed { IfOk result (λ a. ty a ≡ kind (symbols signature.now) (declared_metas metas.now) (scope binders.old.items)
        (tm term.now)) }
    ensures kept { OnOk result (binders.new.items ≡ binders.old.items) }
{
    match term {
        Term::Bound(number) => kind_of_binder(alloc, binders, *number),
        Term::Free(_, kind) => kind.copy(alloc),
        Term::Fun(symbol) => kind_of_symbol(alloc, signature.funs.as_slice(), *symbol),
        Term::Meta(meta, _) => kind_of_meta(alloc, metas, *meta),
        Term::Lam(kind, body) => {
            binders.push(kind)?;
            let rest = kind_under(alloc, signature, metas, binders, body)?;
            let _ = binders.pop();
            let kind = kind.copy(alloc)?;
            Ok(SimpleType::Arrow(Box::new(alloc, kind)?, Box::new(alloc, rest)?))
        }
        Term::App(function, _) => {
            let whole = kind_under(alloc, signature, metas, binders, function)?;
            Ok(codomain(whole))
        }
    }
}

// The type of the binder that the number counts to, from the nearest outward, and a sort where there is none.
#[tactic(auto, using(crate::proofs::KindLemmas::binder_here, crate::proofs::KindLemmas::binder_past))]
fn kind_of_binder(
    alloc: Global,
    binders: &[&SimpleType],
    number: u32,
) -> Result<SimpleType, AllocError>
    ensures { IfOk result (λ a. ty a ≡ type_at (scope binders.now) number) }
{
    let outward = number as usize;
    if outward < binders.len() {
        binders[binders.len() - 1 - outward].copy(alloc)
    } else {
        Ok(SimpleType::Sort(0))
    }
}

// The type of the symbol of that number, where the symbols have the types `kinds`, and a sort where there is none.
#[tactic(auto, using(crate::proofs::KindLemmas::symbol_here, crate::proofs::KindLemmas::symbol_past))]
fn kind_of_symbol(
    alloc: Global,
    kinds: &[SimpleType],
    symbol: u32,
) -> Result<SimpleType, AllocError>
    ensures { IfOk result (λ a. ty a ≡ type_at (tys kinds.now) symbol) }
{
    let number = symbol as usize;
    if number < kinds.len() {
        kinds[number].copy(alloc)
    } else {
        Ok(SimpleType::Sort(0))
    }
}

// The type of the applications of the meta-variable of that number, and a sort where there is none.
#[tactic(auto, using(crate::proofs::KindLemmas::meta_here, crate::proofs::KindLemmas::meta_past))]
fn kind_of_meta(alloc: Global, metas: &[MetaDecl], meta: u32) -> Result<SimpleType, AllocError>
    ensures { IfOk result (λ a. ty a ≡ out_at (declared_metas metas.now) meta) }
{
    let number = meta as usize;
    if number < metas.len() {
        metas[number].result.copy(alloc)
    } else {
        Ok(SimpleType::Sort(0))
    }
}

// The type of what has this type once it has one argument more.
fn codomain(kind: SimpleType) -> SimpleType
    ensures { ty result ≡ codomain (ty kind) }
{
    match kind {
        SimpleType::Arrow(_, rest) => Box::into_inner(rest),
        SimpleType::Sort(sort) => SimpleType::Sort(sort),
    }
}
