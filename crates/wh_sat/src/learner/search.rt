//! The search of the learner: propagation, decisions, and a clause from each conflict. `next` is the main function.

ghost use Rattle.std.specs.Bool.{OnTrue};
ghost use Rattle.std.specs.Prelude.{◌≡◌, ◌+◌, ◌<◌, ◌++◌, [], ◌∷◌, IfOk, OnOk, false, length, replicate};
ghost use Rattle.wh_sat.specs.Answers.{Answers, IsRefutedInTheEnd};
ghost use Rattle.wh_sat.specs.State.{Extends, Sound, clauses_of, variables_of};
ghost use Rattle.wh_sat_trail.specs.Assignment.{AllBelow};
ghost use Rattle.wh_sat_trail.specs.Propagation.{Within};
ghost use Rattle.wh_sat_trail.specs.State.{assigned, formula_of, marks_of};

use crate::guide::Guide;
use crate::learner::{Learner, Next};
use std::alloc::{AllocError, Global};
use wh_sat_trail::{Clause, Formula, Trail};

impl Learner {
    /// All clauses of the formula are given.
    pub fn new(alloc: Global, formula: Formula, budget: u64) -> Result<Learner, AllocError>
        requires { Within formula.variables formula.clauses }
        ensures sound { IfOk result Sound }
        ensures variables { IfOk result (λ made. variables_of made ≡ formula.variables) }
        ensures clauses { IfOk result (λ made. clauses_of made ≡ formula.clauses) }
        ensures given { IfOk result (λ made. made.learnt.items ≡ replicate (length formula.clauses) false) }
        ensures left { IfOk result (λ made. made.left ≡ budget) }
    {
        let learnt = Vec::from_elem(alloc, false, formula.clauses.as_slice().len())?;
        let guide = Guide::new(alloc, formula.variables)?;
        let trail = Trail::new(alloc, formula)?;
        Ok(Learner {
            alloc,
            trail,
            learnt,
            left: budget,
            guide,
        })
    }

    /// The clauses that were given and learnt, over the formula's variables.
    pub fn formula(&self) -> &Formula
        ensures { result.now ≡ formula_of self.now.trail }
    {
        self.trail.formula()
    }

    /// A clause joins those that were given.
    pub fn give(&mut self, clause: Clause) -> Result<(), AllocError>
        requires sound { Sound self.old }
        requires below { AllBelow (variables_of self.old) clause }
        requires room { 0 < self.old.left }
        ensures sound { OnOk result (Sound self.new) }
        ensures variables { OnOk result (variables_of self.new ≡ variables_of self.old) }
        ensures clauses { OnOk result (clauses_of self.new ≡ clauses_of self.old ++ clause ∷ []) }
        ensures given { OnOk result (self.new.learnt.items ≡ self.old.learnt.items ++ false ∷ []) }
        ensures left { OnOk result (self.new.left + 1 ≡ self.old.left) }
    {
        self.join(clause, false)?;
        Ok(())
    }

    /// Searches on until all variables have values, there is no way to give them, or no clause may be learnt any more.
    pub fn next(&mut self) -> Result<Next, AllocError>
        requires sound { Sound self.old }
        ensures sound { OnOk result (Sound self.new) }
        ensures extends { OnOk result (Extends self.old self.new) }
        ensures answer { IfOk result (Answers self.new) }
        ensures refuted { IfOk result (IsRefutedInTheEnd self.new) }
    {
        // Whether the decisions were planned at the last conflict: the next one is learnt from.
        let mut is_planned = false;
        loop {
            if self.left == 0 {
                self.trail.undo(0);
                return Ok(Next::Spent);
            }
            match self.trail.propagate()? {
                Some(clause) => {
                    if self.trail.levels() == 0 {
                        return Ok(Next::Exhausted);
                    }
                    is_planned = self.plan(clause as usize, is_planned)?;
                    if is_planned {
                        self.trail.undo(0);
                    } else {
                        self.learn()?;
                    }
                }
                None => match self.choose() {
                    None => {
                        let values = self.values()?;
                        self.guide.note(&self.trail)?;
                        self.trail.undo(0);
                        return Ok(Next::Model(values));
                    }
                    Some(literal) => self.trail.decide(literal)?,
                },
            }
        }
    }

    // whether other decisions were planned for a conflict at a clause; those that were planned are not planned again
    fn plan(&mut self, clause: usize, is_planned: bool) -> Result<bool, AllocError>
        ensures same { self.new ≡ record self.old { guide = self.new.guide } }
        ensures once { IfOk result (λ again. OnTrue again (is_planned ≡ false)) }
    {
        self.guide.note(&self.trail)?;
        if is_planned {
            return Ok(false);
        }
        self.guide.study(&self.trail, clause)
    }
}
