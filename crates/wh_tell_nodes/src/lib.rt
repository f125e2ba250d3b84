//! The nodes of a certificate in words: what each does with its pairs, what the sides of rules and pairs are worth
//! under its interpretations, and how a path order compares them. The text is pinned by no clause. A certificate that
//! is not accepted is explained like one that is, since who writes one by hand needs the values of sides before there
//! are moves. Values are there where polynomials are normal, and trees where filters are proper, whatever else is
//! wrong.
#![tactic(auto)]

mod ordered;
mod tree;
mod values;

pub use tree::put_tree;
