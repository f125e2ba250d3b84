//! The parts of a system text before their names are looked up, the tests that they must pass in their order, and
//! the passes over declarations and over the limits of sides.
#![tactic(auto)]

mod declarations;
mod fault;
mod heights;
mod limits;
mod metas;
mod names;
mod offsets;
mod parts;
mod sizes;
mod types;
mod widths;

pub use declarations::{Funs, check_rule_count, declare_funs, declare_sorts};
pub use fault::SystemFault;
pub use limits::check_side;
pub use metas::{RuleMetas, declare_metas};
pub use names::NameTable;
pub use offsets::offset;
pub use parts::{Parts, RawFun, RawFuns, RawMeta, RawMetas, RawName, RawNames, RawRule, RawRules};
pub use types::resolve_type;
