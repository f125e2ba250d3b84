//! Names and numbers of a certificate's lines, read byte by byte. The readers of its larger parts stand on them. The
//! crate is small, so that its edits that must fail, each of which costs a proof of it, are cheap.
#![tactic(auto)]

mod letters;

pub use letters::{Letters, begins_name, first_big, first_number, next_big, next_number};
