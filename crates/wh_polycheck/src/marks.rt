//! Marked symbols: their interpretations, and the types of these.

ghost use Rattle.std.specs.Prelude.{◌≡◌, Some, IfOk, length, slice_get, take};
ghost use Rattle.wh_types.specs.Erase.{ty};
ghost use Rattle.wh_types.specs.Ty.{arguments, sort};
ghost use Rattle.wh_system.specs.SystemView.{system_data};
ghost use Rattle.wh_polycheck.specs.Marks.{HasMark, marked_kind, place_of};
ghost use Rattle.wh_polycheck.specs.SideResults.{mark, marks_of};
ghost use Rattle.wh_polycheck.specs.Sides.{arrows};

use crate::scopes::arrow;
use std::alloc::{AllocError, Global};
use wh_hopoly::Symbol;
use wh_poly::Poly;
use wh_system::System;
use wh_types::SimpleType;

/// The interpretation of the marked symbol of a symbol with rules.
#[derive(Drop)]
pub struct MarkedSymbol {
    /// The number of the symbol.
    pub symbol: u32,
    /// The polynomial, in the scope of the arguments that the rules of the symbol need.
    pub poly: Poly,
}

/// The interpretations of the symbols of a system, and of the marked symbols of a set of its pairs (Fuhs and Kop 2012).
#[derive(Clone, Copy)]
pub struct Readings<'a> {
    /// The interpretation of each symbol, by its number.
    pub symbols: &'a [Symbol],
    /// The interpretation of each marked symbol of the set, in order.
    pub marks: &'a [MarkedSymbol],
}

/// The first mark of the symbol.
pub fn mark_of(marks: &[MarkedSymbol], symbol: u32) -> &MarkedSymbol
    requires { HasMark (marks_of marks.now) symbol }
    ensures { slice_get (marks_of marks.now) (place_of (marks_of marks.now) symbol) ≡ Some (mark result.now) }
{
    for item in marks {
        if item.symbol == symbol {
            return item;
        }
    }
    unreachable!()
}

/// The type of the marked symbol of a symbol: functions of the arguments that its rules need, to a sort.
pub fn kind_of_mark(alloc: Global, system: &System, symbol: u32) -> Result<SimpleType, AllocError>
    ensures { IfOk result (λ kind. ty kind ≡ marked_kind (system_data system.now).symbols (system_data system.now).rules symbol) }
{
    let need = system.need(symbol).unwrap_or(0);
    let kinds = system.signature().funs.as_slice();
    if (symbol as usize) < kinds.len() {
        of_first_arguments(alloc, &kinds[symbol as usize], need)
    } else {
        Ok(SimpleType::Sort(0))
    }
}

// The type of functions of the first arguments of the type to a sort.
fn of_first_arguments(alloc: Global, kind: &SimpleType, need: u32) -> Result<SimpleType, AllocError>
    ensures { IfOk result (λ r. ty r ≡ arrows (take need (arguments (ty kind.now))) (sort 0)) }
{
    if need == 0 {
        return Ok(SimpleType::Sort(0));
    }
    match kind {
        SimpleType::Sort(_) => Ok(SimpleType::Sort(0)),
        SimpleType::Arrow(first, rest) => {
            let first = first.copy(alloc)?;
            arrow(alloc, first, of_first_arguments(alloc, rest, need - 1)?)
        }
    }
}
