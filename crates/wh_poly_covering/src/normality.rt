//! Whether interpretations are normal: the polynomials of symbols and of marked symbols, each in the scope of its own
//! arguments.

ghost use Rattle.std.specs.Prelude.{◌≡◌, ◌≤◌, ◌^◌, IfOk, MatchOption, length};
ghost use Rattle.wh_types.specs.Erase.{ty, tys};
ghost use Rattle.wh_types.specs.Ty.{arguments};
ghost use Rattle.wh_system.specs.SystemView.{system_data};
ghost use Rattle.wh_hopoly.specs.Erase.{interpretations};
ghost use Rattle.wh_hopoly.specs.Evaluation.{NormalInterpretations};
ghost use Rattle.wh_polycheck.specs.Marks.{AreNormalMarks};
ghost use Rattle.wh_polycheck.specs.SideResults.{marks_of};
ghost use Rattle.wh_poly_covering.specs.CoveringFaults.{IsFirstNotNormal, IsFirstNotNormalMark};

use std::alloc::{AllocError, Global};
use wh_hopoly::{Symbol, is_normal};
use wh_polycheck::{MarkedSymbol, kind_of_mark};
use wh_system::System;
use wh_types::SimpleType;

/// The number of the first symbol whose polynomial is not normal in the scope of its type's arguments.
pub fn first_not_normal(alloc: Global, symbols: &[Symbol]) -> Result<Option<u32>, AllocError>
    requires { length symbols.now ≤ 2 ^ 32 }
    ensures { IfOk result (λ found. MatchOption found (NormalInterpretations (interpretations symbols.now))
        (IsFirstNotNormal (interpretations symbols.now))) }
{
    for (i, symbol) in symbols.iter().enumerate() {
        let scope = arguments_of(alloc, &symbol.kind)?;
        if !is_normal(&symbol.poly, scope.as_slice()) {
            return Ok(Some(i as u32));
        }
    }
    Ok(None)
}

/// The first symbol whose mark has a polynomial that is not normal in the scope of the arguments which the symbol's
/// rules need.
pub fn first_not_normal_mark(
    alloc: Global,
    system: &System,
    marks: &[MarkedSymbol],
) -> Result<Option<u32>, AllocError>
    ensures { IfOk result (λ found. MatchOption found (AreNormalMarks (system_data system.now).symbols (system_data system.now).rules
        (marks_of marks.now)) (IsFirstNotNormalMark (system_data system.now).symbols (system_data system.now).rules
        (marks_of marks.now))) }
{
    for mark in marks {
        let kind = kind_of_mark(alloc, system, mark.symbol)?;
        let scope = arguments_of(alloc, &kind)?;
        if !is_normal(&mark.poly, scope.as_slice()) {
            return Ok(Some(mark.symbol));
        }
    }
    Ok(None)
}

// The types of the arguments of a type.
fn arguments_of(alloc: Global, kind: &SimpleType) -> Result<Vec<SimpleType>, AllocError>
    ensures { IfOk result (λ kinds. tys kinds.items ≡ arguments (ty kind.now)) }
{
    let mut kinds = Vec::new(alloc);
    let mut here = kind;
    while let SimpleType::Arrow(first, rest) = here {
        kinds.push(first.copy(alloc)?)?;
        here = rest;
    }
    Ok(kinds)
}
