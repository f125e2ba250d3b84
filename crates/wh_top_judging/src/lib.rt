//! Commands that read a system and a certificate: files become a system with its pairs or a report, a certificate is
//! judged, and a system is shown. Nothing of the search is named here, so that this is proved while the search is.
#![tactic(auto)]

mod files;
mod judging;
mod streamed;

pub use files::{CERTIFICATE_LIMIT, Problem, certificate_in, pairs_of, problem_in, system_in};
pub use judging::{check_files, show_file, weigh};
