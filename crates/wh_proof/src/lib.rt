//! What a termination proof is: its nodes with their names looked up, what each asks of the set of pairs that it works
//! on, and the sets that it leaves. Here the lines of a certificate are looked up to a node, and a node's lines are
//! made; the search and the check share both.
#![tactic(auto)]

mod blocks;
mod choices;
mod filters;
mod interpretations;
mod laws;
mod named;
mod usable;
mod written;

pub use blocks::open_blocks;
pub use choices::choices_of;
pub use filters::{filters_of_lines, lines_of_filters, lines_of_mark_filters};
pub use interpretations::{marks_of_set, symbols_of};
pub use laws::lines_say_one_node;
pub use usable::rules_to_cover;
pub use written::{lines_of_choices, lines_of_marks, lines_of_symbols};
