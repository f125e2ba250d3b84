//! The answers of the search for loops.

use wh_cert::NoCertificate;
use wh_loop_reached::Visits;

/// The answer of the search for loops.
#[derive(Drop)]
pub enum LoopSearch {
    /// A loop: its term has reductions of every length.
    Found(NoCertificate),
    /// There is no loop of at most the given number of steps through terms that fit and are small, and fewer such
    /// terms are reached than may be kept.
    Nothing,
    /// As many terms were reached as may be kept. Each is a start itself, or holds no instance of its start.
    Full(Visits),
}
