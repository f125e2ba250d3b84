//! Marks: how large a circuit was, so that it can go back to that size.

/// How much a circuit held.
#[derive(Clone, Copy)]
pub struct Mark {
    /// How many variables the circuit had.
    pub variables: u32,
    /// How many clauses it had.
    pub clauses: usize,
    /// The variable that is known to be true.
    pub truth: Option<u32>,
}
