//! What a climb remembers: what its conditions were under coefficients that it has seen.

use std::alloc::{AllocError, Global};
use std::collections::HashMap;
use wh_poly_guesses::Outcome;

/// A condition, and the coefficients of all symbols on its sides. They alone decide its outcome.
#[derive(PartialEq, Eq, Hash, Drop)]
pub struct Case {
    pub condition: usize,
    pub coefficients: Vec<u8>,
}

/// How many outcomes are kept at most.
const MOST: usize = 65_536;

/// The outcomes of cases that were seen. Where they get too many, all are forgotten.
#[derive(Drop)]
pub struct Known {
    outcomes: HashMap<Case, Outcome>,
}

impl Known {
    /// Nothing is known.
    pub fn new(alloc: Global) -> Known {
        Known {
            outcomes: HashMap::new(alloc),
        }
    }

    /// The outcome of the case, if it was seen.
    pub fn get(&self, case: &Case) -> Option<Outcome> {
        self.outcomes.get(case).copied()
    }

    /// The case has this outcome.
    pub fn learn(&mut self, case: Case, outcome: Outcome) -> Result<(), AllocError> {
        if self.outcomes.len() >= MOST {
            self.outcomes.clear();
        }
        self.outcomes.insert(case, outcome)?;
        Ok(())
    }
}
