//! Answers: the one line in which a run says its result, as data and as text.
#![tactic(auto)]

mod laws;
mod names;
mod number;
mod print;
mod report;

pub use laws::one_answer;
pub use names::Names;
pub use number::long_number;
pub use print::{bad_words_line, out_of_memory_line, print_answer};
pub use report::{NamedCause, NamedFinder, NamedRejection, ReasonWord, Report, Role};
