//! The words of the program `wanda_explain`, and the requests that they make. The crate stands on nothing, so that its
//! clause is proved without the search below the explanations.
#![tactic(auto)]

mod request;

pub use request::{Request, read_request};
