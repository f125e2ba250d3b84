//! Terms and meta-terms under binders, as trees with nameless bound variables: their types, measures and positions,
//! substitution, opening and closing of abstractions, and values of meta-terms.
#![tactic(auto)]

mod apply;
mod bodies;
mod closing;
mod copy;
mod equality;
mod laws;
mod limits;
mod lists;
mod measures;
mod opened;
mod opening;
mod path;
mod places;
mod raise;
mod rule;
mod subst;
mod substitution;
mod term;
mod typing;
mod walk;

pub use apply::apply_meta;
pub use bodies::body_for;
pub use closing::close;
pub use copy::copy_term;
pub use equality::same;
pub use laws::{
    one_type, one_value, opening_can_be_undone, substitution_keeps_types, values_keep_types,
};
pub use limits::{MOST_ARGUMENTS, MOST_HEIGHT, MOST_SIZE, fits};
pub use lists::Types;
pub use measures::{height, size};
pub use opened::opened_at;
pub use opening::open_with;
pub use path::{Path, Step};
pub use places::subterm_at;
pub use rule::{MetaDecl, Metas, Rule, Signature};
pub use subst::{MetaBody, MetaSubst, Subst, SubstEntry};
pub use substitution::substitute;
pub use term::{Term, Terms};
pub use typing::type_of;
