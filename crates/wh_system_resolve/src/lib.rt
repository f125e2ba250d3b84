//! The passes over the sides of a rule: names and types, free variables, heads, and the forms of patterns.
#![tactic(auto)]

mod around;
mod form;
mod head;
mod kind;
mod lookup;
mod new_metas;
mod open;
mod parts;
mod resolve;
mod resolve_parts;
mod scope;

pub use around::{Around, Resolved, ResolvedList};
pub use form::check_pattern;
pub use head::{arguments_of, head_of};
pub use kind::Kind;
pub use new_metas::check_new_metas;
pub use open::check_open;
pub use resolve::resolve_side;
pub use scope::Scope;
