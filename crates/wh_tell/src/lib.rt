//! Systems, pairs and terms in words: sentences of pieces, a term with a place marked, what ranks are for, what
//! is likely not meant in a system, and the graph of its pairs. The text is pinned by no clause.
#![tactic(auto)]

mod demands;
mod expanded;
mod graph;
mod lints;
mod marked;
mod names;
mod pairs;
mod polys;
mod sentence;
mod spines;
mod terms;
mod text;
mod types;
mod wanted;

pub use demands::{put_demands, put_ranks};
pub use graph::{all_of, put_graph};
pub use lints::put_lints;
pub use marked::put_marked;
pub use names::{Names, names_of_rule, names_of_system, number_of, put_meta, put_name};
pub use pairs::{put_call, put_numbers, put_pair, put_pair_line, put_pairs, put_rule_line};
pub use polys::{put_factors, put_poly};
pub use sentence::{Piece, tell, tell_line};
pub use terms::{put_bound, put_term};
pub use text::Text;
pub use types::put_type;
