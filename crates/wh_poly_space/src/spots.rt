//! The spots of a scope, in the order of the space and in that of normal forms.

ghost use Rattle.std.specs.Prelude.{◌≡◌, ◌<◌, ◌++◌, suc, All, IfOk, OnOk, length, map};
ghost use Rattle.wh_types.specs.Erase.{ty, tys};
ghost use Rattle.wh_poly_space.specs.Space.{functional_variables, sort_variables, space_of};
ghost use Rattle.wh_poly_space.specs.Spots.{AreAllSpots, AreSpotsTo, IsSpot, factors_at, rows_of, spot_of_two};
ghost use Rattle.wh_poly_space.specs.declared.space.Spot.TheVariants.{One};

use crate::space::{Spot, is_sort};
use std::alloc::{AllocError, Global};
use wh_types::SimpleType;

/// The variables of a scope, in order.
#[derive(Drop)]
pub struct Variables {
    pub sorts: Vec<usize>,
    pub functional: Vec<usize>,
}

/// The spots of the monomials that are tried in a scope, in the order of the space: the constant, the variables of a
/// sort, the functional ones, and each of these with each of those.
pub fn spots_of(alloc: Global, scope: &[SimpleType]) -> Result<Vec<Spot>, AllocError>
    ensures spots { IfOk result (λ spots. All (IsSpot (tys scope.now)) spots.items) }
    ensures space { IfOk result (λ spots. map (factors_at (tys scope.now)) spots.items ≡ space_of (tys scope.now)) }
{
    let variables = variables_of(alloc, scope)?;
    let mut spots = Vec::new(alloc);
    spots.push(Spot::Constant)?;
    add_alone(&variables.sorts, &mut spots)?;
    add_alone(&variables.functional, &mut spots)?;
    add_rows(&variables.functional, &variables.sorts, &mut spots)?;
    Ok(spots)
}

/// The variables of a sort, and the functional ones.
pub fn variables_of(alloc: Global, scope: &[SimpleType]) -> Result<Variables, AllocError>
    ensures sorts { IfOk result (λ found. found.sorts.items ≡ sort_variables (tys scope.now)) }
    ensures functional { IfOk result (λ found. found.functional.items ≡ functional_variables (tys scope.now)) }
{
    let mut sorts = Vec::new(alloc);
    let mut functional = Vec::new(alloc);
    for (x, kind) in scope.iter().enumerate() {
        if is_sort(kind) {
            sorts.push(x)?;
        } else {
            functional.push(x)?;
        }
    }
    Ok(Variables { sorts, functional })
}

// Each variable alone joins.
fn add_alone(variables: &[usize], spots: &mut Vec<Spot>) -> Result<(), AllocError>
    ensures { OnOk result (spots.new.items ≡ spots.old.items ++ map One variables.now) }
{
    for x in variables {
        spots.push(Spot::One(*x))?;
    }
    Ok(())
}

// The rows of products join, one for each of the first variables.
fn add_rows(firsts: &[usize], seconds: &[usize], spots: &mut Vec<Spot>) -> Result<(), AllocError>
    ensures { OnOk result (spots.new.items ≡ spots.old.items ++ rows_of firsts.now seconds.now) }
{
    for x in firsts {
        add_row(*x, seconds, spots)?;
    }
    Ok(())
}

// The products of the variable with each of the others join.
fn add_row(x: usize, others: &[usize], spots: &mut Vec<Spot>) -> Result<(), AllocError>
    ensures { OnOk result (spots.new.items ≡ spots.old.items ++ map (spot_of_two x) others.now) }
{
    for y in others {
        spots.push(spot_of_two(x, *y))?;
    }
    Ok(())
}

// The spot of two variables.
fn spot_of_two(x: usize, y: usize) -> Spot
    ensures { result ≡ spot_of_two x y }
{
    if x < y {
        Spot::Two(x, y)
    } else {
        Spot::Two(y, x)
    }
}

/// The spots of the scope in the order of normal forms.
pub fn spots_in_order(alloc: Global, scope: &[SimpleType]) -> Result<Vec<Spot>, AllocError>
    ensures { IfOk result (λ spots. AreAllSpots (tys scope.now) spots.items) }
{
    let mut spots = Vec::new(alloc);
    spots.push(Spot::Constant)?;
    for x in 0..scope.len() {
        spots.push(Spot::One(x))?;
        add_products(scope, x, &mut spots)?;
    }
    Ok(spots)
}

// The products of the variable with those of the other kind behind it join.
fn add_products(scope: &[SimpleType], x: usize, spots: &mut Vec<Spot>) -> Result<(), AllocError>
    requires within { x < length scope.now }
    requires spots { AreSpotsTo (tys scope.now) (suc x) 1 spots.old.items }
    ensures { OnOk result (AreSpotsTo (tys scope.now) (suc (suc x)) 0 spots.new.items) }
{
    for y in x + 1..scope.len() {
        if is_sort(&scope[x]) != is_sort(&scope[y]) {
            spots.push(Spot::Two(x, y))?;
        }
    }
    Ok(())
}
