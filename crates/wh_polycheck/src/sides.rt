//! Sides of rules and of pairs as polynomials: each side as an expression, and the normal form of that.

ghost use Rattle.std.specs.Prelude.{◌≡◌, ◌<◌, ◌++◌, ◌∷◌, [], IfOk, Some, length, map, slice_get};
ghost use Rattle.wh_types.specs.Erase.{ty};
ghost use Rattle.wh_types.specs.Outcome.{IfBecause};
ghost use Rattle.wh_terms.specs.Erase.{declared_metas, tm};
ghost use Rattle.wh_terms.specs.Rules.{RewriteRule};
ghost use Rattle.wh_terms.specs.Sight.{AllNoFree};
ghost use Rattle.wh_terms.specs.Tree.{tms_of};
ghost use Rattle.wh_terms.specs.Typing.{AllTyped};
ghost use Rattle.wh_system.specs.CanonicalView.{side_of};
ghost use Rattle.wh_pairs.specs.PairData.{pair_data};
ghost use Rattle.wh_system.specs.SystemView.{system_data};
ghost use Rattle.wh_hopoly.specs.Erase.{interpretations};
ghost use Rattle.wh_poly.specs.Erase.{poly};
ghost use Rattle.wh_hopoly.specs.Evaluation.{NormalInterpretations, TypedExpression, evaluate};
ghost use Rattle.wh_hopoly.specs.Outcomes.{ComesTo, IsFaultOf};
ghost use Rattle.wh_polycheck.specs.Marks.{HasMark, HasMarkedSides, mark_number, marked_types, with_marks};
ghost use Rattle.wh_polycheck.specs.Readings.{AreProper};
ghost use Rattle.wh_polycheck.specs.ReadingsView.{readings_data};
ghost use Rattle.wh_polycheck.specs.SideResults.{IsFaultOfPairSide, IsFaultOfSide, PairSideComesTo, SideComesTo};
ghost use Rattle.wh_polycheck.specs.Sides.{marked_expression, side_expression, types_of_metas};

use crate::expressions::{expression_of, expressions_of};
use crate::marks::{Readings, kind_of_mark, mark_of};
use crate::scopes::scope_of;
use std::alloc::Global;
use wh_hopoly::{PolyFault, Symbol, normal, normal_call};
use wh_pairs::Pair;
use wh_poly::Poly;
use wh_system::System;
use wh_terms::{Metas, Term, Terms};
use wh_types::{Or, counted};

/// The normal form of the right side of a rule, or of its left side, in the scope of the rule's meta-variables and of
/// the arguments of its type, where symbols are read as `readings` say (Fuhs and Kop 2012).
///
/// `Err` comes only where some value in the evaluation exceeds the limit that it names, and `Ok` only where none
/// exceeds one. The part that it names is one of the side as an expression, counted in preorder from 0.
pub fn side_of_rule<'a>(
    alloc: Global,
    system: &System,
    readings: &Readings<'a>,
    rule: u32,
    right: bool,
) -> Result<Poly, Or<PolyFault>>
    requires proper { AreProper (system_data system.now).symbols (system_data system.now).rules (readings_data readings.now) }
    requires rule { rule < length (system_data system.now).rules }
    ensures ok { (r : RewriteRule) → slice_get (system_data system.now).rules rule ≡ Some r
        → IfOk result (λ p. SideComesTo (readings_data readings.now).symbols r.metas (side_of right r) (poly p)) }
    ensures fault { (r : RewriteRule) → slice_get (system_data system.now).rules rule ≡ Some r
        → IfBecause result (λ e. IsFaultOfSide (readings_data readings.now).symbols r.metas (side_of right r) e) }
{
    let item = &system.rules()[rule as usize];
    if right {
        normal_of_side(alloc, &item.metas, &item.right, readings.symbols)
    } else {
        normal_of_side(alloc, &item.metas, &item.left, readings.symbols)
    }
}

// The normal form of a side over the meta-variables.
fn normal_of_side(
    alloc: Global,
    metas: &Metas,
    side: &Term,
    symbols: &[Symbol],
) -> Result<Poly, Or<PolyFault>>
    requires typed { TypedExpression (interpretations symbols.now) (types_of_metas (declared_metas metas.now))
        (side_expression (declared_metas metas.now) (tm side.now)) }
    requires normal { NormalInterpretations (interpretations symbols.now) }
    ensures ok { IfOk result (λ p. ComesTo (evaluate (interpretations symbols.now) (types_of_metas (declared_metas metas.now))
        (side_expression (declared_metas metas.now) (tm side.now))) (poly p)) }
    ensures fault { IfBecause result (λ e. IsFaultOf (interpretations symbols.now) (types_of_metas (declared_metas metas.now))
        (side_expression (declared_metas metas.now) (tm side.now)) e) }
{
    let scope = scope_of(alloc, metas)?;
    let expression = expression_of(alloc, side, counted(scope.len())?)?;
    normal(alloc, &expression, scope.as_slice(), symbols)
}

/// The normal form of the right side of a pair, or of its left side, in the scope of the pair's meta-variables, where
/// symbols and marked symbols are read as `readings` say (Fuhs and Kop 2012).
///
/// `Err` comes only where some value in the evaluation exceeds the limit that it names, and `Ok` only where none does.
pub fn side_of_pair<'a>(
    alloc: Global,
    system: &System,
    readings: &Readings<'a>,
    pair: &Pair,
    right: bool,
) -> Result<Poly, Or<PolyFault>>
    requires proper { AreProper (system_data system.now).symbols (system_data system.now).rules (readings_data readings.now) }
    requires sides { HasMarkedSides (system_data system.now).symbols (system_data system.now).rules (readings_data readings.now).marks
        (pair_data pair.now) }
    ensures ok { IfOk result (λ p. PairSideComesTo (system_data system.now).symbols (system_data system.now).rules
        (readings_data readings.now).symbols (readings_data readings.now).marks (pair_data pair.now) right (poly p)) }
    ensures fault { IfBecause result (λ e. IsFaultOfPairSide (system_data system.now).symbols (system_data system.now).rules
        (readings_data readings.now).symbols (readings_data readings.now).marks (pair_data pair.now) right e) }
{
    if right {
        normal_of_marked(
            alloc,
            system,
            readings,
            &pair.metas,
            pair.right_fun,
            &pair.right,
        )
    } else {
        normal_of_marked(
            alloc,
            system,
            readings,
            &pair.metas,
            pair.left_fun,
            &pair.left,
        )
    }
}

// The normal form of a marked symbol with arguments over the meta-variables. Its polynomial is not copied: it stands
// alone behind the symbols.
fn normal_of_marked<'a>(
    alloc: Global,
    system: &System,
    readings: &Readings<'a>,
    metas: &Metas,
    fun: u32,
    terms: &Terms,
) -> Result<Poly, Or<PolyFault>>
    requires proper { AreProper (system_data system.now).symbols (system_data system.now).rules (readings_data readings.now) }
    requires marked { HasMark (readings_data readings.now).marks fun }
    requires typed { AllTyped (system_data system.now).symbols (declared_metas metas.now) [] (tms_of (map tm terms.now))
        (marked_types (system_data system.now).symbols (system_data system.now).rules fun) }
    requires closed { AllNoFree (tms_of (map tm terms.now)) }
    ensures ok { IfOk result (λ p. let R = readings_data readings.now in
        let all = with_marks (system_data system.now).symbols (system_data system.now).rules R.symbols R.marks in ComesTo
        (evaluate all (types_of_metas (declared_metas metas.now))
        (marked_expression (declared_metas metas.now) (mark_number R.symbols R.marks fun) (tms_of (map tm terms.now)))) (poly p)) }
    ensures fault { IfBecause result (λ e. let R = readings_data readings.now in
        let all = with_marks (system_data system.now).symbols (system_data system.now).rules R.symbols R.marks in IsFaultOf all
        (types_of_metas (declared_metas metas.now))
        (marked_expression (declared_metas metas.now) (mark_number R.symbols R.marks fun) (tms_of (map tm terms.now))) e) }
{
    let mark = mark_of(readings.marks, fun);
    let kind = kind_of_mark(alloc, system, mark.symbol)?;
    let scope = scope_of(alloc, metas)?;
    let args = expressions_of(alloc, terms, counted(scope.len())?)?;
    normal_call(
        alloc,
        &kind,
        &mark.poly,
        args.as_slice(),
        scope.as_slice(),
        readings.symbols,
    )
}
