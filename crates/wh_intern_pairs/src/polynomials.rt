//! Numbered sides of rules and of pairs as polynomials: each side as an expression, and the normal form of that.

ghost use Rattle.std.specs.Prelude.{◌<◌, All, IfOk, List, length, map};
ghost use Rattle.wh_types.specs.Erase.{ty};
ghost use Rattle.wh_types.specs.Outcome.{IfBecause};
ghost use Rattle.wh_terms.specs.Typing.{Declared};
ghost use Rattle.wh_system.specs.SystemView.{system_data};
ghost use Rattle.wh_pairs.specs.PairData.{PairData};
ghost use Rattle.wh_poly.specs.Erase.{poly};
ghost use Rattle.wh_hopoly.specs.Evaluation.{evaluate};
ghost use Rattle.wh_hopoly.specs.Outcomes.{ComesTo, IsFaultOf};
ghost use Rattle.wh_polycheck.specs.Marks.{HasMark, mark_number, marked_types, with_marks};
ghost use Rattle.wh_polycheck.specs.Readings.{AreProper};
ghost use Rattle.wh_polycheck.specs.ReadingsView.{readings_data};
ghost use Rattle.wh_polycheck.specs.SideResults.{IsFaultOfPairSide, IsFaultOfSide, PairSideComesTo, SideComesTo};
ghost use Rattle.wh_intern.specs.TableTrees.{trees};
ghost use Rattle.wh_intern.specs.Trees.{tree_at};
ghost use Rattle.wh_intern_pairs.specs.NumberedSides.{AreSidesOf};
ghost use Rattle.wh_intern_pairs.specs.SidesInScope.{AreInScope, AreMarkedSidesIn, AreTypedIn, IsTypedIn, call_in};

use crate::expressions::{expression_of, expressions_of};
use crate::marks::mark_of;
use std::alloc::Global;
use wh_hopoly::{PolyFault, normal, normal_call};
use wh_intern::{Sides, Table};
use wh_poly::Poly;
use wh_polycheck::{Readings, kind_of_mark};
use wh_system::System;
use wh_types::{Numbers, Or, SimpleType, counted};

/// The normal form of the tree of that number, a side of a rule, in the scope of the rule's meta-variables and of the
/// arguments of its type, where symbols are read as `readings` say (Fuhs and Kop 2012).
///
/// `scope` has the types of the meta-variables, as `scope_of` gives them; over them the tree must have a type. `Err`
/// comes only where some value in the evaluation exceeds the limit that it names, and `Ok` only where none exceeds one.
/// The part that it names is one of the side as an expression, counted in preorder from 0.
pub fn side_by_number<'a>(
    alloc: Global,
    system: &System,
    readings: &Readings<'a>,
    table: &Table,
    number: u32,
    scope: &[SimpleType],
) -> Result<Poly, Or<PolyFault>>
    requires proper { AreProper (system_data system.now).symbols (system_data system.now).rules (readings_data readings.now) }
    requires number { number < length (trees table.now) }
    requires typed { IsTypedIn (system_data system.now).symbols (map ty scope.now) (tree_at (trees table.now) number) }
    ensures ok { (M : List Declared) → AreInScope M (map ty scope.now)
        → IfOk result (λ p. SideComesTo (readings_data readings.now).symbols M (tree_at (trees table.now) number) (poly p)) }
    ensures fault { (M : List Declared) → AreInScope M (map ty scope.now)
        → IfBecause result (IsFaultOfSide (readings_data readings.now).symbols M (tree_at (trees table.now) number)) }
{
    let expression = expression_of(alloc, table, number, counted(scope.len())?)?;
    normal(alloc, &expression, scope, readings.symbols)
}

/// The normal form of the right side of a pair by numbers, or of its left side, in the scope of the pair's
/// meta-variables, where symbols and marked symbols are read as `readings` say (Fuhs and Kop 2012).
///
/// `Err` comes only where some value in the evaluation exceeds the limit that it names, and `Ok` only where none does.
pub fn pair_side_by_number<'a>(
    alloc: Global,
    system: &System,
    readings: &Readings<'a>,
    table: &Table,
    sides: &Sides,
    right: bool,
    scope: &[SimpleType],
) -> Result<Poly, Or<PolyFault>>
    requires proper { AreProper (system_data system.now).symbols (system_data system.now).rules (readings_data readings.now) }
    requires sides { AreMarkedSidesIn (system_data system.now).symbols (system_data system.now).rules
        (readings_data readings.now).marks (trees table.now) (map ty scope.now) sides.now }
    ensures ok { (p : PairData) → AreSidesOf (trees table.now) sides.now p → AreInScope p.metas (map ty scope.now)
        → IfOk result (λ q. PairSideComesTo (system_data system.now).symbols (system_data system.now).rules
        (readings_data readings.now).symbols (readings_data readings.now).marks p right (poly q)) }
    ensures fault { (p : PairData) → AreSidesOf (trees table.now) sides.now p → AreInScope p.metas (map ty scope.now)
        → IfBecause result (IsFaultOfPairSide (system_data system.now).symbols (system_data system.now).rules
        (readings_data readings.now).symbols (readings_data readings.now).marks p right) }
{
    if right {
        normal_of_marked(
            alloc,
            system,
            readings,
            table,
            sides.right_fun,
            &sides.right,
            scope,
        )
    } else {
        normal_of_marked(
            alloc,
            system,
            readings,
            table,
            sides.left_fun,
            &sides.left,
            scope,
        )
    }
}

// The normal form of a marked symbol applied to the trees of these numbers. Its polynomial is not copied: it stands
// alone behind the symbols.
fn normal_of_marked<'a>(
    alloc: Global,
    system: &System,
    readings: &Readings<'a>,
    table: &Table,
    fun: u32,
    numbers: &Numbers,
    scope: &[SimpleType],
) -> Result<Poly, Or<PolyFault>>
    requires proper { AreProper (system_data system.now).symbols (system_data system.now).rules (readings_data readings.now) }
    requires numbers { All (λ n. n < length (trees table.now)) numbers.now }
    requires marked { HasMark (readings_data readings.now).marks fun }
    requires typed { AreTypedIn (system_data system.now).symbols (map ty scope.now) (map (tree_at (trees table.now)) numbers.now)
        (marked_types (system_data system.now).symbols (system_data system.now).rules fun) }
    ensures ok { IfOk result (λ p. let R = readings_data readings.now in
        let all = with_marks (system_data system.now).symbols (system_data system.now).rules R.symbols R.marks in ComesTo
        (evaluate all (map ty scope.now)
        (call_in (map ty scope.now) (mark_number R.symbols R.marks fun) (map (tree_at (trees table.now)) numbers.now))) (poly p)) }
    ensures fault { IfBecause result (λ e. let R = readings_data readings.now in
        let all = with_marks (system_data system.now).symbols (system_data system.now).rules R.symbols R.marks in IsFaultOf all
        (map ty scope.now)
        (call_in (map ty scope.now) (mark_number R.symbols R.marks fun) (map (tree_at (trees table.now)) numbers.now)) e) }
{
    let mark = mark_of(readings.marks, fun);
    let kind = kind_of_mark(alloc, system, mark.symbol)?;
    let args = expressions_of(alloc, table, numbers, counted(scope.len())?)?;
    normal_call(
        alloc,
        &kind,
        &mark.poly,
        args.as_slice(),
        scope,
        readings.symbols,
    )
}
