//! Rows of the words of the program, beside what the port of `clap` makes of them.
//!
//! This crate has tests alone: a library with tests of its own would be proved a second time with them.
#![tactic(auto)]

#[cfg(test)]
mod word_rows;
