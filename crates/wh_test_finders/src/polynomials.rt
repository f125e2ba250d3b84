//! Polynomials of the rows, from tables of their products. All coefficients are 1.

use std::alloc::{AllocError, Global};
use wh_poly::{Atom, Atoms, Monomial, Poly, Polys};

/// A product of variables without arguments, by their numbers.
pub type Plain = &'static [u32];

/// Variable 0 applied to a sum of plain products, if there is one, times a plain product.
pub type Product = (Option<&'static [Plain]>, Plain);

// The variables join the factors.
fn add_variables(alloc: Global, atoms: &mut Atoms, variables: &[u32]) -> Result<(), AllocError> {
    for head in variables {
        let args = Polys::new(alloc);
        atoms.push(Atom { head: *head, args })?;
    }
    Ok(())
}

// The factors join the sum as one product.
fn add_product(sum: &mut Poly, atoms: Atoms) -> Result<(), AllocError> {
    sum.push(Monomial {
        coefficient: 1,
        atoms,
    })
}

// The sum of plain products.
fn plain_sum(alloc: Global, products: &[Plain]) -> Result<Poly, AllocError> {
    let mut sum = Poly::new(alloc);
    for variables in products {
        let mut atoms = Atoms::new(alloc);
        add_variables(alloc, &mut atoms, variables)?;
        add_product(&mut sum, atoms)?;
    }
    Ok(sum)
}

// Variable 0 applied to the sum of the plain products joins the factors.
fn add_applied(alloc: Global, atoms: &mut Atoms, products: &[Plain]) -> Result<(), AllocError> {
    let argument = plain_sum(alloc, products)?;
    let mut args = Polys::new(alloc);
    args.push(argument)?;
    atoms.push(Atom { head: 0, args })
}

// The factors of a product.
fn factors_of(alloc: Global, product: Product) -> Result<Atoms, AllocError> {
    let (argument, variables) = product;
    let mut atoms = Atoms::new(alloc);
    if let Some(products) = argument {
        add_applied(alloc, &mut atoms, products)?;
    }
    add_variables(alloc, &mut atoms, variables)?;
    Ok(atoms)
}

/// The sum of the products, in this order.
pub fn poly_of(alloc: Global, products: &[Product]) -> Result<Poly, AllocError> {
    let mut sum = Poly::new(alloc);
    for product in products {
        let atoms = factors_of(alloc, *product)?;
        add_product(&mut sum, atoms)?;
    }
    Ok(sum)
}
