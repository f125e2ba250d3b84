//! Pairs and their conditions over trees that are numbered once: the arguments of all pairs join one table of nodes,
//! and projections and polynomials are then checked by numbers. Many crates stand on pairs, projections and
//! polynomials, and would be proved anew with each change here: so this is a crate of its own.
#![tactic(auto)]

mod asked;
mod check;
mod decrease;
mod expressions;
mod marked;
mod marks;
mod numbered;
mod numbering;
mod parts;
mod polynomials;
mod relation;
mod scopes;

pub use check::check_numbered;
pub use decrease::is_below_by_number;
pub use numbered::{Numbered, number_if_shared};
pub use numbering::number_pairs;
pub use polynomials::{pair_side_by_number, side_by_number};
pub use relation::relation_by_number;
pub use scopes::scope_of;
