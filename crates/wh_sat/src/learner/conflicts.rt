//! Learning from a conflict: the clause of the negated decisions that it needs joins the formula.

ghost use Rattle.std.specs.Prelude.{◌≡◌, ◌+◌, ◌<◌, ◌++◌, [], ◌∷◌, IfOk, OnOk, length, map};
ghost use Rattle.wh_sat.specs.Learning.{Refutes};
ghost use Rattle.wh_sat.specs.Solving.{Known, Levels, decisions};
ghost use Rattle.wh_sat.specs.State.{Learns, clauses_of, variables_of};
ghost use Rattle.wh_sat_trail.specs.Assignment.{AllBelow, negated};
ghost use Rattle.wh_sat_trail.specs.State.{assigned, formula_of, marks_of};

use crate::halving::halve;
use crate::learner::Learner;
use std::alloc::{AllocError, Global};
use wh_sat_trail::{Clause, Literal};

impl Learner {
    /// Goes back to the ground level, and learns the negations of the decisions that the conflict needs.
    pub(crate) fn learn(&mut self) -> Result<(), AllocError>
        requires known { Known (variables_of self.old) (clauses_of self.old) self.old.learnt.items }
        requires levels { Levels (clauses_of self.old) (assigned self.old.trail) (marks_of self.old.trail) }
        requires conflict { Refutes (clauses_of self.old) (decisions (assigned self.old.trail) (marks_of self.old.trail)) }
        requires some { 0 < length (marks_of self.old.trail) }
        requires room { 0 < self.old.left }
        ensures { OnOk result (Learns self.old self.new) }
    {
        let literals = self.decisions()?;
        self.trail.undo(0);
        let kept = halve(self.alloc, &mut self.trail, &literals)?;
        let clause = negations(self.alloc, &kept)?;
        self.join(clause, true)?;
        Ok(())
    }

    /// The decisions in order.
    fn decisions(&self) -> Result<Vec<Literal>, AllocError>
        ensures { IfOk result (λ made. made.items ≡ decisions (assigned self.now.trail) (marks_of self.now.trail)) }
    {
        let levels = self.trail.levels();
        let mut literals = Vec::with_capacity(self.alloc, levels as usize)?;
        for level in 0..levels {
            literals.push(self.trail.decision(level))?;
        }
        Ok(literals)
    }

    /// A clause joins the others.
    pub(crate) fn join(&mut self, clause: Clause, learnt: bool) -> Result<(), AllocError>
        requires below { AllBelow (variables_of self.old) clause }
        requires room { 0 < self.old.left }
        ensures variables { OnOk result (variables_of self.new ≡ variables_of self.old) }
        ensures clauses { OnOk result (clauses_of self.new ≡ clauses_of self.old ++ clause ∷ []) }
        ensures learnt { OnOk result (self.new.learnt.items ≡ self.old.learnt.items ++ learnt ∷ []) }
        ensures left { OnOk result (self.new.left + 1 ≡ self.old.left) }
        ensures marks { OnOk result (marks_of self.new.trail ≡ marks_of self.old.trail) }
        ensures assigned { OnOk result (assigned self.new.trail ≡ assigned self.old.trail) }
    {
        self.learnt.push(learnt)?;
        self.trail.add(clause)?;
        self.left -= 1;
        Ok(())
    }
}

/// The clause of the negations of literals.
fn negations(alloc: Global, literals: &[Literal]) -> Result<Clause, AllocError>
    ensures { IfOk result (λ clause. clause ≡ map negated literals.now) }
{
    let mut clause = Clause::new(alloc);
    for literal in literals {
        clause.push(Literal {
            variable: literal.variable,
            positive: !literal.positive,
        })?;
    }
    Ok(clause)
}
