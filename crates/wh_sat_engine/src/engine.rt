//! The engine: decisions, propagation, and clauses that are learnt from conflicts and dropped again.

ghost use Rattle.std.specs.Prelude.{IfOk};
ghost use Rattle.wh_sat_trail.specs.Assignment.{AllBelow};
ghost use Rattle.wh_sat_trail.specs.Propagation.{Within};
ghost use Rattle.wh_sat_trail.specs.State.{formula_of};

use crate::attempt::Attempt;
use crate::cut::Cut;
use crate::models::values_of;
use crate::notes::Notes;
use crate::shelf::Shelf;
use std::alloc::{AllocError, Global};
use wh_sat::copy_clause;
use wh_sat_trail::{Clause, Clauses, Formula, Trail};

/// After how many conflicts learnt clauses are dropped for the first time, and by how many that number grows each time.
const FIRST_DROP: u64 = 2000;

const NEXT_DROP: u64 = 300;

/// A formula with the clauses that were learnt from it, and what is assigned.
#[derive(Drop)]
pub struct Engine {
    alloc: Global,
    trail: Trail,
    notes: Notes,
    cut: Cut,
    shelf: Shelf,
    wait: u64,
    pause: u64,
}

/// The outcome of one step.
#[derive(Clone, Copy)]
enum Step {
    /// A clause was learnt.
    Learnt,
    /// The empty clause was learnt.
    Refuted,
    /// All variables have values.
    Solved,
    /// The search does not go on.
    Stuck,
}

impl Engine {
    /// Nothing is learnt yet.
    pub fn new(alloc: Global, formula: Formula) -> Result<Engine, AllocError>
        requires { Within formula.variables formula.clauses }
    {
        let variables = formula.variables;
        let given = formula.clauses.as_slice().len();
        Ok(Engine {
            alloc,
            trail: Trail::new(alloc, formula)?,
            notes: Notes::new(alloc, variables)?,
            cut: Cut::new(alloc, variables)?,
            shelf: Shelf::new(alloc, given)?,
            wait: FIRST_DROP,
            pause: FIRST_DROP,
        })
    }

    /// Searches until the formula is decided, or as many clauses are learnt as may be.
    pub fn search(&mut self, budget: u64) -> Result<Attempt, AllocError> {
        for _ in 0..budget {
            match self.step()? {
                Step::Learnt => {}
                Step::Refuted => return Ok(Attempt::List(self.shelf.take_list(self.alloc)?)),
                Step::Solved => return Ok(Attempt::Values(values_of(self.alloc, &self.trail)?)),
                Step::Stuck => return Ok(Attempt::Nothing),
            }
        }
        Ok(Attempt::Nothing)
    }

    // Decides and propagates until a clause is false, and learns from it, or all variables have values.
    fn step(&mut self) -> Result<Step, AllocError> {
        for _ in 0..=u64::from(self.trail.formula().variables) {
            if let Some(number) = self.trail.propagate()? {
                return self.learn(number as usize);
            }
            match self.notes.advise(&self.trail) {
                Some(literal) => self.trail.decide(literal)?,
                None => return Ok(Step::Solved),
            }
        }
        Ok(Step::Stuck)
    }

    // Learns from the clause with this number, which is false, and goes back.
    fn learn(&mut self, number: usize) -> Result<Step, AllocError> {
        self.notes.note(&self.trail);
        let clause = self
            .cut
            .learn(self.alloc, &self.trail, &mut self.notes, number)?;
        self.shelf
            .put(self.alloc, clause.as_slice(), self.cut.resolved())?;
        if clause.as_slice().is_empty() {
            return Ok(Step::Refuted);
        }
        self.go_back(clause)?;
        self.drop_some()?;
        Ok(Step::Learnt)
    }

    // Goes back to where two literals of the clause have no value, and the clause joins. The decision behind that is
    // made again, so that the clause forces a literal.
    fn go_back(&mut self, clause: Clause) -> Result<(), AllocError>
        requires { AllBelow (formula_of self.old.trail).variables clause }
    {
        let levels = self.trail.levels();
        let (back, glue) = self.notes.levels_of(clause.as_slice(), levels);
        let keep = back.saturating_sub(1);
        self.notes.plan(None);
        if back > 0 && keep < levels {
            self.notes.plan(Some(self.trail.decision(keep)));
        }
        if keep < levels {
            self.notes.release(&self.trail, keep)?;
            self.trail.undo(keep);
        }
        self.notes.forget(&self.trail);
        self.shelf.join(glue)?;
        self.trail.add(clause)
    }

    // Drops learnt clauses where it is time to.
    fn drop_some(&mut self) -> Result<(), AllocError> {
        self.wait = self.wait.saturating_sub(1);
        if self.wait > 0 {
            return Ok(());
        }
        self.pause = self.pause.saturating_add(NEXT_DROP);
        self.wait = self.pause;
        let most = self.shelf.middle(self.alloc)?;
        let clauses = self.kept_clauses(most)?;
        self.shelf.drop_others(self.alloc, most)?;
        self.notes.plan(None);
        self.notes.release(&self.trail, 0)?;
        let variables = self.trail.formula().variables;
        self.trail = Trail::new(self.alloc, Formula { variables, clauses })?;
        self.notes.forget(&self.trail);
        Ok(())
    }

    // Copies of the clauses that stay, where half of the learnt ones have no more levels than `most`.
    fn kept_clauses(&self, most: u64) -> Result<Clauses, AllocError>
        ensures { IfOk result (Within (formula_of self.now.trail).variables) }
    {
        let mut clauses = Clauses::new(self.alloc);
        for (number, clause) in self.trail.formula().clauses.as_slice().iter().enumerate() {
            if self.shelf.is_kept(number, most) {
                clauses.push(copy_clause(self.alloc, clause.as_slice())?)?;
            }
        }
        Ok(clauses)
    }
}
