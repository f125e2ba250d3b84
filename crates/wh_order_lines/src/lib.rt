//! Lines of inferences for rules and pairs under a given order: for each rule that is to be covered and each pair of a
//! set, or the first that has none.
#![tactic(auto)]

mod laws;
mod lines;
mod walks;

pub use laws::{pair_line_fits, rule_line_fits};
pub use lines::{PairLine, pair_line, rule_line};
pub use walks::{PairLines, lacks_pair_line, lacks_rule_line, pair_lines, rule_lines};
