//! Truth values for all variables: the next decision, and the model at the end.

ghost use Rattle.std.specs.Prelude.{◌≡◌, ◌<◌, IfOk, MatchOption, None, ℕ, false, get_or, length, unwrap_or};
ghost use Rattle.wh_sat.specs.State.{variables_of};
ghost use Rattle.wh_sat_trail.specs.Assignment.{value_in};
ghost use Rattle.wh_sat_trail.specs.State.{assigned, formula_of};

use crate::learner::Learner;
use std::alloc::AllocError;
use wh_sat_trail::Literal;

impl Learner {
    /// The values that are assigned, and false where there is none.
    pub(crate) fn values(&self) -> Result<Vec<bool>, AllocError>
        ensures { IfOk result (λ made. (length made.items ≡ variables_of self.now)
            × ((v : ℕ) → v < variables_of self.now → get_or made.items v false ≡ unwrap_or (value_in (assigned self.now.trail) v)
            false)) }
    {
        let variables = self.trail.formula().variables;
        let mut values = Vec::with_capacity(self.alloc, variables as usize)?;
        for variable in 0..variables {
            values.push(self.trail.value(variable).unwrap_or(false))?;
        }
        Ok(values)
    }

    /// A literal whose variable has no value: the guide's, or else the first one's where there is one.
    pub(crate) fn choose(&mut self) -> Option<Literal>
        ensures same { self.new ≡ record self.old { guide = self.new.guide } }
        ensures answer { MatchOption result ((v : ℕ) → v < variables_of self.old → value_in (assigned self.old.trail) v ≡ None → ⊥)
            (λ l. (l.variable < variables_of self.old) × (value_in (assigned self.old.trail) l.variable ≡ None)) }
    {
        match self.guide.advise(&self.trail) {
            Some(literal) => Some(literal),
            None => match self.first_open() {
                Some(variable) => Some(self.guide.literal_of(variable)),
                None => None,
            },
        }
    }

    /// The first variable without a value.
    fn first_open(&self) -> Option<u32>
        ensures { MatchOption result ((v : ℕ) → v < variables_of self.now → value_in (assigned self.now.trail) v ≡ None → ⊥)
            (λ v. (v < variables_of self.now) × (value_in (assigned self.now.trail) v ≡ None)) }
    {
        for variable in 0..self.trail.formula().variables {
            match self.trail.value(variable) {
                None => return Some(variable),
                Some(_) => {}
            }
        }
        None
    }
}
