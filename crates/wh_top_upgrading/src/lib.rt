//! Certificates written in the second version of their format: those in files, where a check accepts them.
#![tactic(auto)]

mod output;
mod upgrading;

pub use output::certificate_text;
pub use upgrading::upgrade_files;
