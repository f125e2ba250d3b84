//! The scope of a side: its meta-variables, each a function of its arguments.

ghost use Rattle.std.specs.Prelude.{◌≡◌, IfOk, map};
ghost use Rattle.wh_types.specs.Erase.{ty, tys};
ghost use Rattle.wh_types.specs.Ty.{◌⇒◌};
ghost use Rattle.wh_terms.specs.Erase.{declared_metas};
ghost use Rattle.wh_polycheck.specs.Sides.{arrows};
ghost use Rattle.wh_intern_pairs.specs.SidesInScope.{AreInScope};

use std::alloc::{AllocError, Global};
use wh_terms::{MetaDecl, Metas};
use wh_types::SimpleType;

/// The types of meta-variables, each that of a function of its arguments.
pub fn scope_of(alloc: Global, metas: &Metas) -> Result<Vec<SimpleType>, AllocError>
    ensures { IfOk result (λ kinds. AreInScope (declared_metas metas.now) (map ty kinds.items)) }
{
    let mut kinds = Vec::new(alloc);
    for meta in metas.as_slice() {
        kinds.push(kind_of(alloc, meta)?)?;
    }
    Ok(kinds)
}

// The type of a meta-variable.
fn kind_of(alloc: Global, meta: &MetaDecl) -> Result<SimpleType, AllocError>
    ensures { IfOk result (λ kind. ty kind ≡ arrows (tys meta.now.args) (ty meta.now.result)) }
{
    let args = meta.args.as_slice();
    let mut kind = meta.result.copy(alloc)?;
    let mut left = args.len();
    while left > 0 {
        left -= 1;
        let argument = args[left].copy(alloc)?;
        kind = arrow(alloc, argument, kind)?;
    }
    Ok(kind)
}

// The type of functions from the one type to the other.
fn arrow(alloc: Global, argument: SimpleType, value: SimpleType) -> Result<SimpleType, AllocError>
    ensures { IfOk result (λ whole. ty whole ≡ ty argument ⇒ ty value) }
{
    Ok(SimpleType::Arrow(Box::new(alloc, argument)?, Box::new(alloc, value)?))
}
