//! Reading answers back from their lines: the inverse of printing them. No command reads an answer, so the program does
//! not wait for this proof.
#![tactic(auto)]

mod causes;
mod laws;
mod read;
mod rows;
mod standing;
mod words;

pub use laws::read_back;
pub use read::read_answer;
pub use standing::report_stands;
