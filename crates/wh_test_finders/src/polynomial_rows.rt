//! Rows of the values of sides by numbers.

ghost use Rattle.wh_system.specs.SystemView.{system_data};
ghost use Rattle.wh_polycheck.specs.Readings.{AreProper};
ghost use Rattle.wh_polycheck.specs.ReadingsView.{readings_data};

use crate::polynomials::{Plain, Product, poly_of};
use crate::problem::system_of;
use crate::readings::{demand_normal, symbols_of};
use std::alloc::{AllocError, Global};
use std::cmp::Ordering;
use std::test::Fail;
use wh_hopoly::PolyFault;
use wh_intern::Table;
use wh_intern_pairs::{scope_of, side_by_number};
use wh_poly::{Poly, order};
use wh_polycheck::{Readings, interpretations_in_order_interpret};
use wh_system::System;
use wh_test_samples::MAP;
use wh_types::Or;

/// What `MAP_VALUES_CERTIFICATE` reads the symbols of `MAP` as, in the order of the symbols.
const READ: &[&[Product]] = &[
    // zero: 0
    &[],
    // s: 1*y0
    &[(None, &[0])],
    // nil: 0
    &[],
    // cons: 1+1*y0+1*y1
    &[(None, &[]), (None, &[0]), (None, &[1])],
    // map: 1*y0(1*y1)*y1+1*y1
    &[(Some(&[&[1]]), &[1]), (None, &[1])],
];

/// 1+1*y1+1*y2
const LENGTH: &[Plain] = &[&[], &[1], &[2]];

/// What the left side of the second rule is worth then:
/// 1+1*y0(1+1*y1+1*y2)+1*y0(1+1*y1+1*y2)*y1+1*y0(1+1*y1+1*y2)*y2+1*y1+1*y2
const WORTH: &[Product] = &[
    (None, &[]),
    (Some(LENGTH), &[]),
    (Some(LENGTH), &[1]),
    (Some(LENGTH), &[2]),
    (None, &[1]),
    (None, &[2]),
];

// Whether the value is that polynomial. Want of memory stands for a fault.
fn is_that(value: Result<Poly, Or<PolyFault>>, expected: &Poly) -> Result<bool, AllocError> {
    match value {
        Ok(value) => Ok(order(&value, expected) == Ordering::Equal),
        Err(_) => Err(AllocError),
    }
}

// Whether the left side of the rule, numbered, is worth that polynomial. Want of memory stands for a rule that there is
// not, and for a side without a value.
fn is_worth<'a>(
    alloc: Global,
    system: &System,
    readings: &Readings<'a>,
    rule: usize,
    expected: &Poly,
) -> Result<bool, AllocError>
    requires { AreProper (system_data system.now).symbols (system_data system.now).rules (readings_data readings.now) }
{
    system.is_well_made();
    let Some(item) = system.rules().get(rule) else {
        return Err(AllocError);
    };
    let mut table = Table::new(alloc);
    let number = table.add(&item.left)?;
    let scope = scope_of(alloc, &item.metas)?;
    let worth = side_by_number(alloc, system, readings, &table, number, scope.as_slice());
    is_that(worth, expected)
}

// Whether a side is worth that where the symbols are read as the table says.
fn is_worth_under(
    alloc: Global,
    system: &System,
    table: &[&'static [Product]],
    rule: usize,
    expected: &Poly,
) -> Result<bool, AllocError> {
    interpretations_in_order_interpret();
    let symbols = symbols_of(alloc, system, table)?;
    demand_normal(alloc, symbols.as_slice())?;
    let readings = Readings {
        symbols: symbols.as_slice(),
        marks: &[],
    };
    is_worth(alloc, system, &readings, rule, expected)
}

// Whether the left side of the second rule of `map` is worth what it is to be.
fn evaluates_map(alloc: Global) -> Result<bool, AllocError> {
    let system = system_of(alloc, MAP)?;
    let expected = poly_of(alloc, WORTH)?;
    is_worth_under(alloc, &system, READ, 1, &expected)
}

#[test]
fn evaluates_a_left_side_by_number(rt: HostRuntime) -> Result<(), Fail> {
    assert!(rt; evaluates_map(rt.alloc())?);
    Ok(())
}
