//! What a check and a reader say, in the words of reports: names in place of numbers, the word for a reason, and the
//! status that a report ends a run with.
#![tactic(auto)]

mod reason;
mod rejection;
mod status;

pub use reason::word_of;
pub use rejection::{meta_name, named_rejection};
pub use status::{Status, status_of};
