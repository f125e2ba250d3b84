//! What is learnt from a conflict. A clause that is false is resolved with the clauses that forced its literals, latest
//! first, until one literal of the last level is left (the first unique implication point of GRASP and MiniSat).
//! Literals that bring nothing new are resolved away, too, and so are those that are false before the first decision:
//! where nothing is decided, the empty clause is left.

ghost use Rattle.std.specs.Prelude.{◌<◌, IfOk, IfSome};
ghost use Rattle.wh_sat_trail.specs.Assignment.{AllBelow};
ghost use Rattle.wh_sat_trail.specs.State.{formula_of};

use crate::notes::Notes;
use std::alloc::{AllocError, Global};
use wh_sat_trail::{Clause, Literal, Trail};

/// The state of an analysis: a clause that is false, on the way back through the trail. For each variable it says
/// whether it stands in the clause; it counts those that have their values since the last decision, and lists the
/// clauses that were resolved.
#[derive(Drop)]
pub struct Cut {
    marks: Vec<bool>,
    last: u32,
    resolved: Vec<usize>,
}

impl Cut {
    /// The empty clause.
    pub fn new(alloc: Global, variables: u32) -> Result<Cut, AllocError> {
        Ok(Cut {
            marks: Vec::from_elem(alloc, false, variables as usize)?,
            last: 0,
            resolved: Vec::new(alloc),
        })
    }

    /// The numbers of the clauses that the latest clause was resolved from, in the order in which they were resolved.
    pub fn resolved(&self) -> &[usize] {
        &self.resolved
    }

    /// What is learnt from the clause with this number, which is false; its variables are noted.
    pub fn learn(
        &mut self,
        alloc: Global,
        trail: &Trail,
        notes: &mut Notes,
        number: usize,
    ) -> Result<Clause, AllocError>
        ensures { IfOk result (AllBelow (formula_of trail.now).variables) }
    {
        notes.grow_step();
        self.last = 0;
        self.resolved.truncate(0);
        self.join(trail, notes, number, None)?;
        let mut clause = Clause::new(alloc);
        for place in (0..trail.len()).rev() {
            if let Some(literal) = self.pass(trail, notes, trail.literal(place))? {
                clause.push(literal)?;
            }
        }
        Ok(clause)
    }

    // Passes a literal that is true. Its negation, which may stand in the clause, is resolved away, or stays and is
    // handed back.
    fn pass(
        &mut self,
        trail: &Trail,
        notes: &mut Notes,
        literal: Literal,
    ) -> Result<Option<Literal>, AllocError>
        ensures { IfOk result (λ o. IfSome o (λ l. l.variable < (formula_of trail.now).variables)) }
    {
        let Literal { variable, positive } = literal;
        if variable >= trail.formula().variables || !self.leave(trail, notes, variable) {
            return Ok(None);
        }
        match self.wanted(trail, notes, variable) {
            Some(number) => {
                self.join(trail, notes, number, Some(variable))?;
                Ok(None)
            }
            None => Ok(Some(Literal {
                variable,
                positive: !positive,
            })),
        }
    }

    // The variables of the clause with this number join, but for one that may be passed.
    fn join(
        &mut self,
        trail: &Trail,
        notes: &mut Notes,
        number: usize,
        but: Option<u32>,
    ) -> Result<(), AllocError> {
        self.resolved.push(number)?;
        if let Some(clause) = trail.formula().clauses.as_slice().get(number) {
            for literal in clause.as_slice() {
                if Some(literal.variable) != but {
                    self.enter(trail, notes, literal.variable);
                }
            }
        }
        Ok(())
    }

    // The variable joins, if it is not there yet.
    fn enter(&mut self, trail: &Trail, notes: &mut Notes, variable: u32) {
        if let Some(mark) = self.marks.get_mut(variable as usize) {
            if !*mark {
                *mark = true;
                notes.raise(variable);
                if notes.level(variable) == trail.levels() {
                    self.last = self.last.saturating_add(1);
                }
            }
        }
    }

    // The variable leaves; whether it was there.
    fn leave(&mut self, trail: &Trail, notes: &Notes, variable: u32) -> bool {
        if !self.has(variable) {
            return false;
        }
        if let Some(mark) = self.marks.get_mut(variable as usize) {
            *mark = false;
        }
        if notes.level(variable) == trail.levels() {
            self.last = self.last.saturating_sub(1);
        }
        true
    }

    // Whether the variable stands in the clause.
    fn has(&self, variable: u32) -> bool {
        self.marks.get(variable as usize).copied().unwrap_or(false)
    }

    // The clause that forced a variable which has left, where it is to be resolved.
    fn wanted(&self, trail: &Trail, notes: &Notes, variable: u32) -> Option<usize>
        requires { variable < (formula_of trail.now).variables }
    {
        let number = trail.reason(variable)?;
        let level = notes.level(variable);
        let is_wanted = if level == 0 {
            true
        } else if level == trail.levels() {
            self.last > 0
        } else {
            self.brings_nothing(trail, notes, number, variable)
        };
        if is_wanted { Some(number) } else { None }
    }

    // Whether the clause with this number has no variables but this one, those that are there, and those with values
    // before the first decision.
    fn brings_nothing(&self, trail: &Trail, notes: &Notes, number: usize, variable: u32) -> bool {
        if let Some(clause) = trail.formula().clauses.as_slice().get(number) {
            for literal in clause.as_slice() {
                let other = literal.variable;
                if other != variable && !self.has(other) && notes.level(other) > 0 {
                    return false;
                }
            }
        }
        true
    }
}
