//! Decision levels of a trail: `decide` opens one, and `undo` goes back.

ghost use Rattle.std.specs.Prelude.{◌≡◌, ◌+◌, ◌<◌, ◌≤◌, ◌++◌, [], ◌∷◌, OnErr, OnOk, get_or, length, take, ℕ};
ghost use Rattle.wh_sat_trail.specs.Assignment.{Open, value_in};
ghost use Rattle.wh_sat_trail.specs.Settled.{Settled, ground_of};
ghost use Rattle.wh_sat_trail.specs.State.{assigned, formula_of, marks_of};
ghost use Rattle.wh_sat_trail.specs.Watch.{AllSafe, no_stop};

use crate::formula::Formula;
use crate::literal::Literal;
use crate::trail::Trail;
use crate::watch::Stop;
use std::alloc::AllocError;

impl Trail {
    /// The formula, with the clauses that were added.
    pub fn formula(&self) -> &Formula
        ensures { result.now ≡ formula_of self.now }
    {
        &self.formula
    }

    /// The value of a variable.
    pub fn value(&self, variable: u32) -> Option<bool>
        requires { variable < (formula_of self.now).variables }
        ensures { result ≡ value_in (assigned self.now) variable }
    {
        self.assignment.value(variable)
    }

    /// How many literals are true.
    pub fn len(&self) -> usize
        ensures { result ≡ length (assigned self.now) }
    {
        self.assignment.len()
    }

    /// The literal at a place, in the order in which they became true.
    pub fn literal(&self, place: usize) -> Literal
        requires { place < length (assigned self.now) }
        ensures { result ≡ get_or (assigned self.now) place result }
    {
        self.assignment.at(place)
    }

    /// The number of the clause that forced the variable's last value, if one did. Nothing is claimed of it: it is a
    /// hint for the choice of what to learn.
    pub fn reason(&self, variable: u32) -> Option<usize>
        requires { variable < (formula_of self.now).variables }
    {
        self.assignment.reason(variable)
    }

    /// The number of levels.
    pub fn levels(&self) -> u32
        ensures { result ≡ length (marks_of self.now) }
    {
        let _variables = self.formula.variables;
        self.stops.len() as u32
    }

    /// The literal that was decided at the beginning of a level, the first level being 0.
    pub fn decision(&self, level: u32) -> Literal
        requires { level < length (marks_of self.now) }
        ensures { result ≡ get_or (assigned self.now) (get_or (marks_of self.now) level 0) result }
    {
        self.assignment.at(self.stops[level as usize].mark)
    }

    /// Opens a level with a literal that has no value. After want of memory the trail is as it was.
    pub fn decide(&mut self, literal: Literal) -> Result<(), AllocError>
        requires below { literal.variable < (formula_of self.old).variables }
        requires free { Open (assigned self.old) literal }
        ensures same { formula_of self.new ≡ formula_of self.old }
        ensures marks { OnOk result (marks_of self.new ≡ marks_of self.old ++ length (assigned self.old) ∷ []) }
        ensures assigned { OnOk result (assigned self.new ≡ assigned self.old ++ literal ∷ []) }
        ensures err_marks { OnErr result (marks_of self.new ≡ marks_of self.old) }
        ensures err_assigned { OnErr result (assigned self.new ≡ assigned self.old) }
    {
        self.stops.push(Stop {
            done: self.head,
            mark: self.assignment.len(),
        })?;
        self.assignment.assign(literal, None);
        Ok(())
    }

    /// Goes back to the end of a level; what was assigned later has no value any more.
    pub fn undo(&mut self, level: u32)
        requires { level ≤ length (marks_of self.old) }
        ensures same { formula_of self.new ≡ formula_of self.old }
        ensures marks { marks_of self.new ≡ take level (marks_of self.old) }
        ensures assigned { assigned self.new ≡ take (get_or (marks_of self.old) level (length (assigned self.old))) (assigned self.old) }
    {
        let level = level as usize;
        if level < self.stops.len() {
            let stop = self.stops[level];
            self.stops.truncate(level);
            self.cut(stop);
        }
    }

    /// Keeps the first literals alone, of which some have been propagated.
    pub(crate) fn cut(&mut self, to: Stop)
        requires order { to.done ≤ to.mark }
        requires within { to.mark ≤ length self.old.assignment.literals.items }
        requires dones { (j : ℕ) → j < length self.old.stops.items → (get_or self.old.stops.items j no_stop).done ≤ to.done }
        requires marks { (j : ℕ) → j < length self.old.stops.items → (get_or self.old.stops.items j no_stop).mark < to.mark }
        requires safe { AllSafe self.old.formula.clauses self.old.assignment.literals.items self.old.pairs.items to.done to.mark }
        requires settling { Settled self.old.formula.clauses
            (ground_of self.old.stops.items (take to.mark self.old.assignment.literals.items)) self.old.short.items self.old.settled }
        ensures same { self.new.formula ≡ self.old.formula }
        ensures stops { self.new.stops.items ≡ self.old.stops.items }
        ensures literals { self.new.assignment.literals.items ≡ take to.mark self.old.assignment.literals.items }
    {
        self.assignment.truncate(to.mark);
        self.head = to.done;
    }
}
