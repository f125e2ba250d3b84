//! The meta-variables of the extended sides of a rule: those of the rule, and one for each argument that its sides
//! lack.

ghost use Rattle.std.specs.Prelude.{◌≡◌, ◌++◌, [], IfOk};
ghost use Rattle.wh_types.specs.Erase.{ty};
ghost use Rattle.wh_types.specs.Ty.{arguments};
ghost use Rattle.wh_terms.specs.Erase.{declared_meta, declared_metas, tm};
ghost use Rattle.wh_terms.specs.Tree.{meta, none, spine};
ghost use Rattle.wh_order_extended.specs.ExtendedSides.{added, added_from};

use std::alloc::{AllocError, Global};
use wh_terms::{MetaDecl, Metas, Term, Terms, Types};
use wh_types::{SimpleType, sum};

/// The meta-variables, and behind them one without arguments for each argument that a term of this type takes.
#[tactic(auto, using(crate::proofs::MetaLemmas::added_one))]
pub fn with_added(alloc: Global, metas: Metas, kind: &SimpleType) -> Result<Metas, AllocError>
    ensures { IfOk result (λ all. declared_metas all ≡ declared_metas metas ++ added (arguments (ty kind.now))) }
{
    match kind {
        SimpleType::Sort(_) => Ok(metas),
        SimpleType::Arrow(first, rest) => {
            let mut more = metas;
            more.push(constant(alloc, first)?)?;
            with_added(alloc, more, rest)
        }
    }
}

/// The term, applied to these meta-variables, which are numbered from `next` on.
#[tactic(auto, using(crate::proofs::MetaLemmas::spine_one))]
pub fn applied(alloc: Global, term: Term, next: u32, kind: &SimpleType) -> Result<Term, AllocError>
    ensures { IfOk result (λ whole. tm whole ≡ spine (tm term) (added_from next (arguments (ty kind.now)))) }
{
    match kind {
        SimpleType::Sort(_) => Ok(term),
        SimpleType::Arrow(_, rest) => {
            let argument = nullary(alloc, next)?;
            let front = Term::App(Box::new(alloc, term)?, Box::new(alloc, argument)?);
            applied(alloc, front, sum(next, 1)?, rest)
        }
    }
}

/// Copies of the declarations, in order.
pub fn copy_metas(alloc: Global, metas: &Metas) -> Result<Metas, AllocError>
    ensures { IfOk result (λ copies. declared_metas copies ≡ declared_metas metas.now) }
{
    let mut copies = Metas::new(alloc);
    for declaration in metas.as_slice() {
        copies.push(copy_declaration(alloc, declaration)?)?;
    }
    Ok(copies)
}

// An equal declaration.
fn copy_declaration(alloc: Global, declaration: &MetaDecl) -> Result<MetaDecl, AllocError>
    ensures { IfOk result (λ copy. declared_meta copy ≡ declared_meta declaration.now) }
{
    let mut args = Types::new(alloc);
    for kind in declaration.args.as_slice() {
        args.push(kind.copy(alloc)?)?;
    }
    Ok(MetaDecl {
        args,
        result: declaration.result.copy(alloc)?,
    })
}

// The declaration of a meta-variable without arguments.
fn constant(alloc: Global, kind: &SimpleType) -> Result<MetaDecl, AllocError>
    ensures { IfOk result (λ decl. declared_meta decl ≡ record { args = []; out = ty kind.now }) }
{
    Ok(MetaDecl {
        args: Types::new(alloc),
        result: kind.copy(alloc)?,
    })
}

// The application of a meta-variable without arguments.
#[tactic(auto, using(crate::proofs::MetaLemmas::meta_alone))]
fn nullary(alloc: Global, number: u32) -> Result<Term, AllocError>
    ensures { IfOk result (λ t. tm t ≡ meta number none) }
{
    Ok(Term::Meta(number, Terms::new(alloc)))
}
