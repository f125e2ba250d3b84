//! Higher-order polynomials as data: their order, copies of them, lists of factors that are joined, rows of products,
//! and the variables that a type adds. No walk here is ended by a limit on values.
#![tactic(auto)]

mod comparing;
mod copying;
mod excess;
mod joining;
mod laws;
mod polynomial;
mod rows;
mod standing;
mod variables;

pub use comparing::{is_same_variable, order, order_arguments, order_factor, order_factors};
pub use copying::{copy, copy_arguments, copy_factors, push_copies, push_copy};
pub use excess::Excess;
pub use joining::{in_order, join, merged};
pub use laws::{
    comparing_is_reversed, comparing_is_transitive, equal_polynomials_compare_as_equal,
    partial_sums_exceed_in_the_next, parts_of_sums_exceed_in_them, products_are_normal,
    rows_of_products_exceed_in_them, sums_are_normal, sums_associate, sums_commute,
};
pub use polynomial::{Atom, Atoms, Monomial, Poly, Polys};
pub use rows::{arranged, multiple, single_product};
pub use standing::{is_ascending, stands_before, stands_not_after};
pub use variables::{added, one_factor, with_arguments};
