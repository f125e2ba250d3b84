//! The checks of covers: sides of rules and of pairs as polynomials, and whether moves between the monomials of two
//! polynomials show that one is at least the other.
#![tactic(auto)]

mod amounts;
mod check;
mod expressions;
mod fault;
mod good;
mod laws;
mod marks;
mod scopes;
mod sides;

pub use check::{check_strict, check_weak};
pub use fault::CoverFault;
pub use good::are_factors_at_least;
pub use laws::{interpretations_in_order_interpret, symbols_of_marks_have_marks};
pub use marks::{MarkedSymbol, Readings, kind_of_mark};
pub use sides::{side_of_pair, side_of_rule};
