//! Rows of lists and types, of tokens and printed texts, of answers, of certificates that are fed or upgraded, and of
//! files and sinks. What texts of certificates are read stands in the sheet `certificates.rows` of the program's rows.
//!
//! Like wh_test_method, this crate has tests alone: a library with tests of its own would be proved a second time with
//! them. The rows stand in tables, and where it is shorter as texts that the libraries read. What the calls answer is
//! proved; that they answer at all, and that the definitions say what is meant, is what these runs show.
#![tactic(auto)]

#[cfg(test)]
mod answer_rows;
#[cfg(test)]
mod certificates;
#[cfg(test)]
mod comparing;
#[cfg(test)]
mod feeding_rows;
#[cfg(test)]
mod list_rows;
#[cfg(test)]
mod outside_rows;
#[cfg(test)]
mod text_rows;
#[cfg(test)]
mod upgrade_rows;
