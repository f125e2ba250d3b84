//! Replacing a variable in a polynomial by a value, by the rules of evaluation: each value on the way is tested, and
//! the first that exceeds a limit ends it.
//!
//! The main function is `apply_one`, of one value applied to another. The variables that it replaces are the first ones
//! that a type adds to a scope, so the scope without the variable is a chain of frames too.

ghost use Rattle.std.specs.Prelude.{◌≡◌, ◌≢◌, ◌≤◌, ◌++◌, length, IfOk, OnOk};
ghost use Rattle.wh_types.specs.Erase.{ty};
ghost use Rattle.wh_types.specs.Ty.{arguments};
ghost use Rattle.wh_types.specs.Outcome.{IfBecause};
ghost use Rattle.wh_poly.specs.Erase.{poly, atoms, polys};
ghost use Rattle.wh_hopoly.specs.Scopes.{scope_of};
ghost use Rattle.wh_poly.specs.Polynomials.{zero_poly, Ordered, Normal, NormalFactors, NormalArguments, HasNormalArguments};
ghost use Rattle.wh_poly.specs.Arithmetic.{constant};
ghost use Rattle.wh_hopoly.specs.Evaluation.{one, down, applied as applied_run, replace as replace_run, replace_factors as factors_run, replace_arguments as arguments_run};
ghost use Rattle.wh_hopoly.specs.Replacements.{head_of, replace_factor as factor_run, product_with, apply_at, NormalFor, Fits, value_at, Keeps};
ghost use Rattle.wh_poly_arithmetic.specs.Growing.{grown, HasRoom};
ghost use Rattle.wh_poly.specs.Limits.{Exceeds};
ghost use Rattle.wh_poly.specs.Excesses.{ExceedsAs};
ghost use Rattle.wh_hopoly.specs.Outcomes.{ComesTo, ComesToArguments, PassesLimit};
ghost use Rattle.wh_poly.specs.declared.polynomial.Atom.{out-Atom};

use crate::renumbering::raise;
use crate::scope::{Scope, find};
use std::alloc::Global;
use wh_poly::{Atom, Atoms, Excess, Poly, Polys, one_factor, with_arguments};
use wh_poly_arithmetic::{Growing, Total, finish, multiply_by, multiply_by_variable, start};
use wh_poly_limits::tested;
use wh_types::{Or, SimpleType};

/// The value that takes the place of a variable.
#[derive(Clone, Copy)]
pub struct Replacement<'a> {
    /// The variable's type.
    pub kind: &'a SimpleType,
    /// The value, in a scope that goes on with the arguments of the type.
    pub value: &'a Poly,
    /// The variable's number, and the length of the scope before the value's added variables.
    pub variable: u32,
}

/// Where a variable is replaced.
#[derive(Clone, Copy)]
pub struct Place<'a> {
    /// The scope with the variable.
    pub inner: Scope<'a>,
    /// The scope without the variable.
    pub outer: Scope<'a>,
    /// How many variables the scope with the variable has.
    pub count: u32,
}

/// A value of a functional type, in a scope that goes on with the arguments of the type, applied to a value of its
/// first argument's type. `count` is the length of the scope. A fault only where a value on the way exceeds a limit.
#[cycle(replace)]
pub fn apply_one<'a>(
    alloc: Global,
    kind: &'a SimpleType,
    scope: &'a Scope<'a>,
    count: u32,
    function: &Poly,
    argument: &'a Poly,
) -> Result<Poly, Or<Excess>>
    requires counted { count ≡ length (scope_of scope.now) }
    requires function { Normal (scope_of scope.now ++ arguments (ty kind.now)) (poly function.now) }
    requires argument { NormalFor (scope_of scope.now) (ty kind.now) (poly argument.now) }
    ensures ok { IfOk result (λ r. ComesTo (apply_at (ty kind.now) (scope_of scope.now) (poly function.now) (poly argument.now)) (poly r)) }
    ensures fault { IfBecause result (λ e. PassesLimit
        (apply_at (ty kind.now) (scope_of scope.now) (poly function.now) (poly argument.now)) e) }
{
    let SimpleType::Arrow(first, rest) = kind else {
        unreachable!();
    };
    let replacement = Replacement {
        kind: first,
        value: argument,
        variable: count,
    };
    let place = Place {
        inner: Scope::Wider(scope, kind),
        outer: Scope::Wider(scope, rest),
        count: with_arguments(count, kind)?,
    };
    replace(alloc, &replacement, &place, function)
}

// The sum over the monomials, each replaced.
#[cycle(replace)]
fn replace<'a>(
    alloc: Global,
    replacement: &'a Replacement<'a>,
    place: &'a Place<'a>,
    p: &Poly,
) -> Result<Poly, Or<Excess>>
    requires fits { Fits replacement.now place.now }
    requires normal { Normal (scope_of place.now.inner) (poly p.now) }
    ensures ok { IfOk result (λ r. ComesTo (replace_run (head_of replacement.now) replacement.now.variable (scope_of place.now.inner)
        zero_poly (poly p.now)) (poly r)) }
    ensures fault { IfBecause result (λ e. PassesLimit
        (replace_run (head_of replacement.now) replacement.now.variable (scope_of place.now.inner) zero_poly (poly p.now)) e) }
{
    let mut total = Total::new(alloc);
    let mut raised = None;
    for item in p.as_slice() {
        let value = replace_factors(
            alloc,
            replacement,
            place,
            &mut raised,
            item.coefficient,
            &item.atoms,
        )?;
        total.add(alloc, value)?;
    }
    total.finish(alloc)
}

// The product of the coefficient and the factors, each replaced. The value of a variable of a sort is raised once, and
// kept.
#[cycle(replace)]
fn replace_factors<'a>(
    alloc: Global,
    replacement: &'a Replacement<'a>,
    place: &'a Place<'a>,
    raised: &mut Option<Poly>,
    coefficient: u128,
    us: &Atoms,
) -> Result<Poly, Or<Excess>>
    requires fits { Fits replacement.now place.now }
    requires kept { Keeps raised.old replacement.now place.now }
    requires positive { 1 ≤ coefficient }
    requires normal { NormalFactors (scope_of place.now.inner) (atoms us.now) }
    ensures ok { IfOk result (λ r. ComesTo (factors_run (head_of replacement.now) replacement.now.variable (scope_of place.now.inner)
        (constant coefficient) (atoms us.now)) (poly r)) }
    ensures fault { IfBecause result (λ e. PassesLimit
        (factors_run (head_of replacement.now) replacement.now.variable (scope_of place.now.inner) (constant coefficient) (atoms us.now))
        e) }
    ensures kept { OnOk result (Keeps raised.new replacement.now place.now) }
{
    let mut so_far = start(alloc, coefficient, us.as_slice().len())?;
    for item in us.as_slice() {
        multiply_by_factor(alloc, replacement, place, raised, &mut so_far, item)?;
    }
    Ok(finish(alloc, so_far)?)
}

// The product takes in one more factor, which is replaced.
#[cycle(replace)]
fn multiply_by_factor<'a>(
    alloc: Global,
    replacement: &'a Replacement<'a>,
    place: &'a Place<'a>,
    raised: &mut Option<Poly>,
    so_far: &mut Growing,
    item: &Atom,
) -> Result<(), Or<Excess>>
    requires fits { Fits replacement.now place.now }
    requires kept { Keeps raised.old replacement.now place.now }
    requires room { HasRoom so_far.old }
    requires left { Ordered (grown so_far.old) }
    requires normal { HasNormalArguments (scope_of place.now.inner) (out-Atom item.now).head (polys (out-Atom item.now).args) }
    ensures ok { OnOk result (ComesTo (product_with (grown so_far.old) (factor_run (head_of replacement.now) replacement.now.variable
        (scope_of place.now.inner) (out-Atom item.now).head (polys (out-Atom item.now).args))) (grown so_far.new) × HasRoom so_far.new) }
    ensures kept { OnOk result (Keeps raised.new replacement.now place.now) }
    ensures fault { IfBecause result (λ e. PassesLimit (product_with (grown so_far.old) (factor_run (head_of replacement.now)
        replacement.now.variable (scope_of place.now.inner) (out-Atom item.now).head (polys (out-Atom item.now).args))) e) }
{
    if !item.args.as_slice().is_empty() {
        let factor = replace_factor(alloc, replacement, place, item)?;
        return multiply_by(alloc, so_far, &factor);
    }
    if item.head != replacement.variable {
        return multiply_by_variable(alloc, so_far, lowered(item.head, replacement.variable));
    }
    multiply_by_raised(alloc, replacement, place, raised, so_far)
}

// The product takes in the value of the variable, which has no arguments here: nothing is replaced in it. It is raised
// once, and kept.
fn multiply_by_raised<'a>(
    alloc: Global,
    replacement: &'a Replacement<'a>,
    place: &'a Place<'a>,
    raised: &mut Option<Poly>,
    so_far: &mut Growing,
) -> Result<(), Or<Excess>>
    requires fits { Fits replacement.now place.now }
    requires kept { Keeps raised.old replacement.now place.now }
    requires room { HasRoom so_far.old }
    requires left { Ordered (grown so_far.old) }
    requires right { Ordered (value_at replacement.now place.now) }
    ensures ok { OnOk result (ComesTo (product_with (grown so_far.old) (one (value_at replacement.now place.now))) (grown so_far.new)
        × HasRoom so_far.new) }
    ensures kept { OnOk result (Keeps raised.new replacement.now place.now) }
    ensures fault { IfBecause result (λ e. PassesLimit (product_with (grown so_far.old) (one (value_at replacement.now place.now))) e) }
{
    if let Some(value) = &*raised {
        return multiply_by(alloc, so_far, value);
    }
    let value = raised_value(alloc, replacement, place)?;
    multiply_by(alloc, so_far, &value)?;
    *raised = Some(value);
    Ok(())
}

// The value in the scope without the variable.
fn raised_value<'a>(
    alloc: Global,
    replacement: &'a Replacement<'a>,
    place: &'a Place<'a>,
) -> Result<Poly, Or<Excess>>
    requires fits { Fits replacement.now place.now }
    ensures ok { IfOk result (λ r. (poly r ≡ value_at replacement.now place.now) × (Exceeds (poly r) → ⊥)) }
    ensures fault { IfBecause result (λ e. ExceedsAs e (value_at replacement.now place.now)) }
{
    // The scope without the variable has one less.
    let count = place.count - 1;
    tested(raise(
        alloc,
        replacement.value,
        replacement.variable,
        count - replacement.variable,
    )?)
}

// A factor with its arguments replaced, which is applied to them if it is the variable.
#[cycle(replace)]
fn replace_factor<'a>(
    alloc: Global,
    replacement: &'a Replacement<'a>,
    place: &'a Place<'a>,
    item: &Atom,
) -> Result<Poly, Or<Excess>>
    requires fits { Fits replacement.now place.now }
    requires normal { HasNormalArguments (scope_of place.now.inner) (out-Atom item.now).head (polys (out-Atom item.now).args) }
    ensures ok { IfOk result (λ r. ComesTo (factor_run (head_of replacement.now) replacement.now.variable (scope_of place.now.inner)
        (out-Atom item.now).head (polys (out-Atom item.now).args)) (poly r)) }
    ensures fault { IfBecause result (λ e. PassesLimit
        (factor_run (head_of replacement.now) replacement.now.variable (scope_of place.now.inner) (out-Atom item.now).head
        (polys (out-Atom item.now).args)) e) }
{
    let Ok(kind) = find(&place.inner, item.head as usize) else {
        unreachable!();
    };
    let args = replace_arguments(alloc, replacement, place, kind, &item.args)?;
    if item.head == replacement.variable {
        // The scope without the variable has one less.
        let count = place.count - 1;
        let value = raise(
            alloc,
            replacement.value,
            replacement.variable,
            count - replacement.variable,
        )?;
        return applied(alloc, replacement.kind, &place.outer, count, value, &args);
    }
    let head = lowered(item.head, replacement.variable);
    tested(one_factor(alloc, head, args)?)
}

// The arguments, each replaced in the scope that goes on with the arguments of its type.
#[cycle(replace)]
fn replace_arguments<'a>(
    alloc: Global,
    replacement: &'a Replacement<'a>,
    place: &'a Place<'a>,
    kind: &'a SimpleType,
    ps: &Polys,
) -> Result<Polys, Or<Excess>>
    requires fits { Fits replacement.now place.now }
    requires normal { NormalArguments (scope_of place.now.inner) (ty kind.now) (polys ps.now) }
    ensures ok { IfOk result (λ r. ComesToArguments (arguments_run (head_of replacement.now) replacement.now.variable
        (scope_of place.now.inner) (ty kind.now) (polys ps.now)) (polys r)) }
    ensures fault { IfBecause result (λ e. PassesLimit
        (arguments_run (head_of replacement.now) replacement.now.variable (scope_of place.now.inner) (ty kind.now) (polys ps.now)) e) }
{
    let mut out = Polys::new(alloc);
    let mut here = kind;
    for item in ps.as_slice() {
        let SimpleType::Arrow(first, rest) = here else {
            unreachable!();
        };
        let wider = Place {
            inner: Scope::Wider(&place.inner, first),
            outer: Scope::Wider(&place.outer, first),
            count: with_arguments(place.count, first)?,
        };
        out.push(replace(alloc, replacement, &wider, item)?)?;
        here = rest;
    }
    Ok(out)
}

// A value applied to arguments, one after another.
#[cycle(replace)]
fn applied<'a>(
    alloc: Global,
    kind: &'a SimpleType,
    scope: &'a Scope<'a>,
    count: u32,
    value: Poly,
    args: &Polys,
) -> Result<Poly, Or<Excess>>
    requires counted { count ≡ length (scope_of scope.now) }
    requires normal { Normal (scope_of scope.now ++ arguments (ty kind.now)) (poly value) }
    requires arguments { NormalArguments (scope_of scope.now) (ty kind.now) (polys args.now) }
    ensures ok { IfOk result (λ r. ComesTo (applied_run (ty kind.now) (scope_of scope.now) (poly value) (polys args.now)) (poly r)) }
    ensures fault { IfBecause result (λ e. PassesLimit (applied_run (ty kind.now) (scope_of scope.now) (poly value) (polys args.now)) e) }
{
    let mut here = kind;
    let mut applied_value = value;
    for item in args.as_slice() {
        let SimpleType::Arrow(_, rest) = here else {
            unreachable!();
        };
        applied_value = apply_one(alloc, here, &*scope, count, &applied_value, item)?;
        here = rest;
    }
    tested(applied_value)
}

// The number of the variable once the other one is gone.
fn lowered(x: u32, gone: u32) -> u32
    requires { x ≢ gone }
    ensures { result ≡ down gone x }
{
    if x < gone { x } else { x - 1 }
}
