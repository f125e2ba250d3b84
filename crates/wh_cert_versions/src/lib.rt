//! The version that the certificate of a tree of nodes has, and that certificate. The crate is small, so that its edits
//! that must fail, each of which costs a proof of it, are cheap.
#![tactic(auto)]

mod certifying;

pub use certifying::certificate_of;
