//! Interpretations of the symbols of a system, from tables.

ghost use Rattle.std.specs.Prelude.{◌≡◌, IfOk, OnOk, map};
ghost use Rattle.wh_types.specs.Erase.{ty, tys};
ghost use Rattle.wh_types.specs.Ty.{arguments};
ghost use Rattle.wh_system.specs.SystemView.{system_data};
ghost use Rattle.wh_hopoly.specs.Erase.{interpretations};
ghost use Rattle.wh_hopoly.specs.Evaluation.{NormalInterpretations};

use crate::polynomials::{Product, poly_of};
use std::alloc::{AllocError, Global};
use wh_hopoly::{Symbol, is_normal};
use wh_poly::Poly;
use wh_system::System;
use wh_types::SimpleType;

// The polynomial at that place of the table.
fn poly_at(alloc: Global, table: &[&'static [Product]], place: usize) -> Result<Poly, AllocError> {
    match table.get(place) {
        Some(products) => poly_of(alloc, products),
        None => Err(AllocError),
    }
}

/// The symbols of the system, each read as the polynomial at its place of the table. Want of memory stands for one that
/// has none.
pub fn symbols_of(
    alloc: Global,
    system: &System,
    table: &[&'static [Product]],
) -> Result<Vec<Symbol>, AllocError>
    ensures { IfOk result (λ made. map (λ s. s.kind) (interpretations made.items) ≡ (system_data system.now).symbols.funs) }
{
    let kinds = system.signature().funs.as_slice();
    let mut symbols = Vec::new(alloc);
    for i in 0..kinds.len() {
        let poly = poly_at(alloc, table, i)?;
        let kind = kinds[i].copy(alloc)?;
        symbols.push(Symbol { kind, poly })?;
    }
    Ok(symbols)
}

// The types of the arguments of a type.
fn arguments_of(alloc: Global, kind: &SimpleType) -> Result<Vec<SimpleType>, AllocError>
    ensures { IfOk result (λ kinds. tys kinds.items ≡ arguments (ty kind.now)) }
{
    let mut kinds = Vec::new(alloc);
    let mut here = kind;
    while let SimpleType::Arrow(first, rest) = here {
        kinds.push(first.copy(alloc)?)?;
        here = rest;
    }
    Ok(kinds)
}

/// Demands that the polynomials are normal. Want of memory stands for one that is not.
pub fn demand_normal(alloc: Global, symbols: &[Symbol]) -> Result<(), AllocError>
    ensures { OnOk result (NormalInterpretations (interpretations symbols.now)) }
{
    for symbol in symbols {
        let scope = arguments_of(alloc, &symbol.kind)?;
        if !is_normal(&symbol.poly, scope.as_slice()) {
            return Err(AllocError);
        }
    }
    Ok(())
}
