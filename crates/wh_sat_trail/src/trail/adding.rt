//! Making a trail over a formula, and adding clauses to it.

ghost use Rattle.std.specs.Prelude.{◌≡◌, ◌<◌, ◌*◌, ◌++◌, [], ◌∷◌, IfOk, OnErr, OnOk, false, length, true, vec_capacity, vec_len, ℕ};
ghost use Rattle.wh_sat_trail.specs.Assignment.{AllBelow};
ghost use Rattle.wh_sat_trail.specs.Propagation.{Within};
ghost use Rattle.wh_sat_trail.specs.State.{assigned, formula_of, marks_of};
ghost use Rattle.wh_sat_trail.specs.Watch.{Guard, Listed, count_of};
ghost use Rattle.wh_sat_trail.specs.declared.literal.Literal.{Literal};

use crate::assignment::Assignment;
use crate::clause::{Clause, Clauses};
use crate::formula::Formula;
use crate::literal::Literal;
use crate::trail::Trail;
use crate::watch::{Pair, Places, Watchers, code};
use std::alloc::{AllocError, Global};

impl Trail {
    /// The formula with nothing assigned, and no level.
    pub fn new(alloc: Global, formula: Formula) -> Result<Trail, AllocError>
        requires { Within formula.variables formula.clauses }
        ensures { IfOk result (λ made. (formula_of made ≡ formula) × (assigned made ≡ []) × (marks_of made ≡ [])) }
    {
        let Formula { variables, clauses } = formula;
        let Clauses { items } = clauses;
        let mut trail = Trail::empty(alloc, variables)?;
        for clause in items {
            trail.add(clause)?;
        }
        Ok(trail)
    }

    /// No clause, nothing assigned, and no level.
    fn empty(alloc: Global, variables: u32) -> Result<Trail, AllocError>
        ensures { IfOk result (λ made. ((formula_of made).variables ≡ variables) × ((formula_of made).clauses ≡ [])
            × (assigned made ≡ []) × (marks_of made ≡ [])) }
    {
        let assignment = Assignment::new(alloc, variables)?;
        let lists = empty_lists(alloc, 2 * variables as usize)?;
        let clauses = Clauses::new(alloc);
        Ok(Trail {
            formula: Formula { variables, clauses },
            assignment,
            stops: Vec::new(alloc),
            head: 0,
            lists,
            pairs: Vec::new(alloc),
            places: Places::new(alloc),
            short: Vec::new(alloc),
            settled: 0,
        })
    }

    /// A clause joins the formula. After want of memory the trail is as it was.
    pub fn add(&mut self, clause: Clause) -> Result<(), AllocError>
        requires { AllBelow (formula_of self.old).variables clause }
        ensures variables { (formula_of self.new).variables ≡ (formula_of self.old).variables }
        ensures clauses { OnOk result ((formula_of self.new).clauses ≡ (formula_of self.old).clauses ++ clause ∷ []) }
        ensures err { OnErr result ((formula_of self.new).clauses ≡ (formula_of self.old).clauses) }
        ensures marks { marks_of self.new ≡ marks_of self.old }
        ensures assigned { assigned self.new ≡ assigned self.old }
    {
        let number = self.pairs.len();
        self.pairs.reserve(1)?;
        self.places.open()?;
        match self.assignment.watches(clause.as_slice()) {
            Some((first, second)) => {
                self.enlist(first, number)?;
                self.enlist(second, number)?;
                self.join(
                    clause,
                    Pair {
                        first,
                        second,
                        watched: true,
                    },
                )
            }
            None => {
                self.short.push(number)?;
                let nothing = Literal {
                    variable: 0,
                    positive: false,
                };
                self.join(
                    clause,
                    Pair {
                        first: nothing,
                        second: nothing,
                        watched: false,
                    },
                )
            }
        }
    }

    /// The number joins the list of a literal, which may hold numbers of clauses to come.
    fn enlist(&mut self, literal: Literal, number: usize) -> Result<(), AllocError>
        requires { literal.variable < self.old.formula.variables }
        ensures same { self.new.formula ≡ self.old.formula }
        ensures stops { self.new.stops ≡ self.old.stops }
        ensures head { self.new.head ≡ self.old.head }
        ensures assignment { self.new.assignment ≡ self.old.assignment }
        ensures pairs { self.new.pairs ≡ self.old.pairs }
        ensures listed { OnOk result (Listed self.new.lists.items literal number) }
        ensures kept { (l : Literal) (k : ℕ) → Listed self.old.lists.items l k → Listed self.new.lists.items l k }
    {
        self.lists[code(literal)].items.push(number)?;
        Ok(())
    }

    /// A clause joins the formula with its two watches, or as one of the short ones.
    fn join(&mut self, clause: Clause, pair: Pair) -> Result<(), AllocError>
        requires below { AllBelow self.old.formula.variables clause }
        requires room { vec_len self.old.pairs < vec_capacity self.old.pairs }
        requires guard { pair.watched ≡ true → Guard self.old.assignment.literals.items self.old.stops.items self.old.head
            self.old.lists.items clause (length self.old.formula.clauses) pair }
        requires short { pair.watched ≡ false → 0 < count_of (length self.old.formula.clauses) self.old.short.items }
        ensures variables { self.new.formula.variables ≡ self.old.formula.variables }
        ensures clauses { OnOk result (self.new.formula.clauses ≡ self.old.formula.clauses ++ clause ∷ []) }
        ensures err { OnErr result (self.new.formula.clauses ≡ self.old.formula.clauses) }
        ensures stops { self.new.stops.items ≡ self.old.stops.items }
        ensures assignment { self.new.assignment.literals.items ≡ self.old.assignment.literals.items }
    {
        self.formula.clauses.push(clause)?;
        let _ = self.pairs.push(pair);
        Ok(())
    }
}

/// A number of empty lists.
fn empty_lists(alloc: Global, count: usize) -> Result<Vec<Watchers>, AllocError>
    ensures { IfOk result (λ lists. vec_len lists ≡ count) }
{
    let mut lists = Vec::with_capacity(alloc, count)?;
    for _ in 0..count {
        lists.push(Watchers {
            items: Vec::new(alloc),
        })?;
    }
    Ok(lists)
}
