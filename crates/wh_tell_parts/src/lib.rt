//! Projections, interpretations, path orders and loops in words: what becomes of the sides of pairs and rules, and each
//! term of a reduction. The text is pinned by no clause.
#![tactic(auto)]

mod closest;
mod compared;
mod filtered;
mod inferred;
mod loops;
mod projected;
mod stepping;
mod valued;
mod within;

pub use closest::put_closest_projection;
pub use inferred::{Comparison, put_filters, put_inferred};
pub use loops::{put_attempt, put_loop};
pub use projected::{Projected, put_dropped, put_projection};
pub use stepping::term_after;
pub use valued::{Valued, put_pair_values, put_readings, put_rule_values};
pub use within::is_within;
