//! What the lines `fun` and `mark` of a node say: interpretations of all symbols, and of the marked symbols of a set.
//! The names in them are compared in order, and the polynomials copied.

ghost use Rattle.std.specs.Prelude.{◌≡◌, ◌<◌, All, IfOk, List, MatchOption, length, map};
ghost use Rattle.wh_types.specs.Erase.{ty, tys};
ghost use Rattle.wh_pairs.specs.Views.{pairs_data};
ghost use Rattle.wh_system.specs.SystemView.{system_data};
ghost use Rattle.wh_pairs.specs.Marked.{AreMarked};
ghost use Rattle.wh_cert.specs.Said.{said_interp};
ghost use Rattle.wh_hopoly.specs.Erase.{interpretations};
ghost use Rattle.wh_poly.specs.Erase.{poly};
ghost use Rattle.wh_hopoly.specs.Evaluation.{Interpretation};
ghost use Rattle.wh_polycheck.specs.Marks.{Mark};
ghost use Rattle.wh_polycheck.specs.SideResults.{marks_of};
ghost use Rattle.wh_proof.specs.Looked.{SayInterpretations, SayMarks};

use crate::named::{name_all, name_these};
use std::alloc::{AllocError, Global};
use wh_cert::Interp;
use wh_hopoly::Symbol;
use wh_pairs::{PairList, PairSet, marked_symbols};
use wh_poly::copy;
use wh_polycheck::MarkedSymbol;
use wh_system::System;
use wh_types::SimpleType;

/// The interpretations of all symbols that the lines say, each of its symbol's type; `None` where they say none.
pub fn symbols_of(
    alloc: Global,
    system: &System,
    lines: &[Interp],
) -> Result<Option<Vec<Symbol>>, AllocError>
    ensures { IfOk result (λ found. MatchOption found
        ((symbols : List Interpretation) → SayInterpretations (system_data system.now).fun_names (system_data system.now).symbols.funs
        (map said_interp lines.now) symbols → ⊥)
        (λ made. SayInterpretations (system_data system.now).fun_names (system_data system.now).symbols.funs (map said_interp lines.now)
        (interpretations made.items))) }
{
    system.is_well_made();
    if !name_all(system.fun_names(), lines) {
        return Ok(None);
    }
    let kinds = system.signature().funs.as_slice();
    Ok(Some(read_symbols(alloc, kinds, lines)?))
}

/// The interpretations of the marked symbols of the set that the lines say; `None` where they say none.
pub fn marks_of_set(
    alloc: Global,
    system: &System,
    pairs: &PairList,
    set: &PairSet,
    lines: &[Interp],
) -> Result<Option<Vec<MarkedSymbol>>, AllocError>
    requires { All (λ n. n < length pairs.now) set.now }
    ensures { IfOk result (λ found. MatchOption found
        ((marks : List Mark) → SayMarks (system_data system.now) (map said_interp lines.now) marks
        → AreMarked (pairs_data pairs.now) set.now (map (λ m. m.symbol) marks) → ⊥)
        (λ made. SayMarks (system_data system.now) (map said_interp lines.now) (marks_of made.items)
        × AreMarked (pairs_data pairs.now) set.now (map (λ m. m.symbol) (marks_of made.items)))) }
{
    let numbers = marked_symbols(alloc, pairs, set)?;
    if !name_these(system.fun_names(), &numbers, lines) {
        return Ok(None);
    }
    Ok(Some(read_marks(alloc, &numbers, lines)?))
}

// Symbols of these types, read as the lines say.
fn read_symbols(
    alloc: Global,
    kinds: &[SimpleType],
    lines: &[Interp],
) -> Result<Vec<Symbol>, AllocError>
    requires { length lines.now ≡ length kinds.now }
    ensures kinds { IfOk result (λ made. map (λ s. ty s.kind) made.items ≡ tys kinds.now) }
    ensures polynomials { IfOk result (λ made. map (λ s. poly s.poly) made.items ≡ map (λ line. poly line.poly) lines.now) }
{
    let mut symbols = Vec::new(alloc);
    for i in 0..lines.len() {
        symbols.push(read_symbol(alloc, &kinds[i], &lines[i])?)?;
    }
    Ok(symbols)
}

// A symbol of the type, read as the line says.
fn read_symbol(alloc: Global, kind: &SimpleType, line: &Interp) -> Result<Symbol, AllocError>
    ensures kind { IfOk result (λ s. ty s.kind ≡ ty kind.now) }
    ensures polynomial { IfOk result (λ s. poly s.poly ≡ poly line.now.poly) }
{
    let kind = kind.copy(alloc)?;
    Ok(Symbol {
        kind,
        poly: copy(alloc, &line.poly)?,
    })
}

// Marked symbols with these numbers, read as the lines say.
fn read_marks(
    alloc: Global,
    numbers: &[u32],
    lines: &[Interp],
) -> Result<Vec<MarkedSymbol>, AllocError>
    requires { length lines.now ≡ length numbers.now }
    ensures symbols { IfOk result (λ made. map (λ m. m.symbol) made.items ≡ numbers.now) }
    ensures polynomials { IfOk result (λ made. map (λ m. poly m.poly) made.items ≡ map (λ line. poly line.poly) lines.now) }
{
    let mut marks = Vec::new(alloc);
    for i in 0..lines.len() {
        marks.push(MarkedSymbol {
            symbol: numbers[i],
            poly: copy(alloc, &lines[i].poly)?,
        })?;
    }
    Ok(marks)
}
