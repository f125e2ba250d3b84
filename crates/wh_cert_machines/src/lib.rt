//! The machines that go along the lines of a certificate, one for YES and one for NO, byte by byte.
#![tactic(auto)]

mod line_reader;
mod progress;
mod yes_line;

pub use line_reader::{Behind, Item, LinePlace, LineStep, NoLine};
pub use progress::{Progress, YesItems};
pub use yes_line::{Counted, Listed, YesBehind, YesItem, YesLine, YesPlace, YesStep};
