//! Copies of raw types and terms, and of inferences.

ghost use Rattle.std.specs.Prelude.{◌≡◌, map, IfOk};
ghost use Rattle.wh_text.specs.Erase.{rty, rbinder, rtm};
ghost use Rattle.wh_order_inference.specs.Said.{inference};

use crate::lists::copy_name;
use std::alloc::{AllocError, Global};
use wh_order_inference::{Inference, Inferences};
use wh_text::{RawBinder, RawTerm, RawTerms, RawType, RawTypes};

/// An equal type.
#[cycle(copy_type)]
#[tactic(auto, using(crate::proofs::SameParts::type_copied))]
pub fn copy_type(alloc: Global, kind: &RawType) -> Result<RawType, AllocError>
    ensures { IfOk result (λ copy. rty copy ≡ rty kind.now) }
{
    let args = copy_types(alloc, &kind.args)?;
    let sort = copy_name(alloc, &kind.sort)?;
    Ok(RawType {
        args,
        sort,
        at: kind.at,
    })
}

/// Equal types in the same order.
#[cycle(copy_type)]
#[tactic(auto, using(crate::proofs::Copies::types_join, crate::proofs::Copies::types_end))]
fn copy_types(alloc: Global, kinds: &RawTypes) -> Result<RawTypes, AllocError>
    ensures { IfOk result (λ copies. map rty copies ≡ map rty kinds.now) }
{
    let mut copies = RawTypes::new(alloc);
    for kind in kinds.as_slice() {
        copies.push(copy_type(alloc, kind)?)?;
    }
    Ok(copies)
}

/// Copies a binder.
fn copy_binder(alloc: Global, binder: &RawBinder) -> Result<RawBinder, AllocError>
    ensures { IfOk result (λ copy. rbinder copy ≡ rbinder binder.now) }
{
    match binder {
        RawBinder::Named(name) => Ok(RawBinder::Named(copy_name(alloc, name)?)),
        RawBinder::Numbered(number) => Ok(RawBinder::Numbered(*number)),
    }
}

/// An equal term.
#[cycle(copy_term)]
pub fn copy_term(alloc: Global, term: &RawTerm) -> Result<RawTerm, AllocError>
    ensures { IfOk result (λ copy. rtm copy ≡ rtm term.now) }
{
    match term {
        RawTerm::Named(name, at) => Ok(RawTerm::Named(copy_name(alloc, name)?, *at)),
        RawTerm::Numbered(number, at) => Ok(RawTerm::Numbered(*number, *at)),
        RawTerm::Free(number, kind, at) => {
            let kind = Box::new(alloc, copy_type(alloc, kind)?)?;
            Ok(RawTerm::Free(*number, kind, *at))
        }
        RawTerm::Meta(name, args, at) => {
            let name = copy_name(alloc, name)?;
            Ok(RawTerm::Meta(name, copy_terms(alloc, args)?, *at))
        }
        RawTerm::Lam(binder, kind, body, at) => {
            let binder = copy_binder(alloc, binder)?;
            let kind = Box::new(alloc, copy_type(alloc, kind)?)?;
            let body = Box::new(alloc, copy_term(alloc, body)?)?;
            Ok(RawTerm::Lam(binder, kind, body, *at))
        }
        RawTerm::Spine(head, args, at) => {
            let head = Box::new(alloc, copy_term(alloc, head)?)?;
            Ok(RawTerm::Spine(head, copy_terms(alloc, args)?, *at))
        }
    }
}

/// Equal terms in the same order.
#[cycle(copy_term)]
#[tactic(auto, using(crate::proofs::Copies::terms_join, crate::proofs::Copies::terms_end))]
fn copy_terms(alloc: Global, terms: &RawTerms) -> Result<RawTerms, AllocError>
    ensures { IfOk result (λ copies. map rtm copies ≡ map rtm terms.now) }
{
    let mut copies = RawTerms::new(alloc);
    for term in terms.as_slice() {
        copies.push(copy_term(alloc, term)?)?;
    }
    Ok(copies)
}

/// An equal inference.
#[cycle(copy_inference)]
#[tactic(auto, using(crate::proofs::SameParts::inference_copied))]
pub fn copy_inference(alloc: Global, item: &Inference) -> Result<Inference, AllocError>
    ensures { IfOk result (λ copy. inference copy ≡ inference item.now) }
{
    let parts = copy_inferences(alloc, &item.parts)?;
    Ok(Inference {
        letter: item.letter,
        place: item.place,
        parts,
    })
}

/// Equal inferences in the same order.
#[cycle(copy_inference)]
#[tactic(auto, using(crate::proofs::Copies::inferences_join, crate::proofs::Copies::inferences_end))]
pub fn copy_inferences(alloc: Global, items: &Inferences) -> Result<Inferences, AllocError>
    ensures { IfOk result (λ copies. map inference copies ≡ map inference items.now) }
{
    let mut copies = Inferences::new(alloc);
    for item in items.as_slice() {
        copies.push(copy_inference(alloc, item)?)?;
    }
    Ok(copies)
}
