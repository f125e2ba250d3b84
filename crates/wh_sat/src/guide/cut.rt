//! What a conflict rests on. A false clause and the clauses that forced its literals, back to the last decision, have a
//! first cut through one literal of the last level (the first unique implication point of GRASP and MiniSat). Where the
//! literals of the cut are at most a quarter more than the decisions, they are decided in their place, and the conflict
//! comes again. Of the bounds that were tried this was the best for random formulas and pigeonholes together.

use crate::guide::Guide;
use std::alloc::AllocError;
use wh_sat_trail::Trail;

/// Where the first level begins in a trail, and where the last one does.
#[derive(Clone, Copy)]
struct Part {
    ground: usize,
    begin: usize,
}

impl Guide {
    /// Looks at a conflict of a noted trail, which is at a clause: raises the variables that the conflict rests on, and
    /// plans its cut. Whether there is a plan.
    pub fn study(&mut self, trail: &Trail, clause: usize) -> Result<bool, AllocError> {
        let levels = trail.levels();
        if levels == 0 {
            return Ok(false);
        }
        let part = Part {
            ground: self.place_of(trail.decision(0).variable),
            begin: self.place_of(trail.decision(levels - 1).variable),
        };
        let cut = self.walk(trail, part, clause)?;
        self.set_plan(trail, part, cut)?;
        self.spread(trail, part, cut)?;
        self.raise();
        let most = levels as usize + levels as usize / 4;
        if self.plan.len() <= most {
            return Ok(true);
        }
        self.plan.truncate(0);
        Ok(false)
    }

    // goes back through the last level, from what is marked to what forced it, until one literal is left; its place
    fn walk(&mut self, trail: &Trail, part: Part, clause: usize) -> Result<usize, AllocError> {
        let mut left = self.mark(trail, part, clause)?;
        for place in (part.begin..trail.len()).rev() {
            let variable = trail.literal(place).variable;
            if self.is_marked(variable) {
                if left <= 1 {
                    return Ok(place);
                }
                left = (left - 1).saturating_add(self.mark_reason(trail, part, variable)?);
            }
        }
        Ok(part.begin)
    }

    // the plan is what is marked before the last level, and the literal at the cut
    fn set_plan(&mut self, trail: &Trail, part: Part, cut: usize) -> Result<(), AllocError> {
        for place in part.ground..trail.len() {
            let literal = trail.literal(place);
            if place == cut || (place < part.begin && self.is_marked(literal.variable)) {
                self.plan.push(literal)?;
            }
        }
        Ok(())
    }

    // goes on from the cut to the first decision, and marks all that the conflict rests on
    fn spread(&mut self, trail: &Trail, part: Part, cut: usize) -> Result<(), AllocError> {
        for place in (part.ground..trail.len()).rev() {
            let variable = trail.literal(place).variable;
            if place <= cut && self.is_marked(variable) {
                self.mark_reason(trail, part, variable)?;
            }
        }
        Ok(())
    }

    // what is marked gets a greater score, and is not marked any more
    fn raise(&mut self) {
        self.order.grow_step();
        while let Some(variable) = self.touched.pop() {
            self.set_mark(variable, false);
            self.order.raise(variable);
        }
    }

    // marks the variables of a clause; how many of them are new in the last level
    fn mark(&mut self, trail: &Trail, part: Part, clause: usize) -> Result<usize, AllocError> {
        let mut count: usize = 0;
        if let Some(literals) = trail.formula().clauses.as_slice().get(clause) {
            for literal in literals.as_slice() {
                if self.mark_variable(part, literal.variable)? {
                    count = count.saturating_add(1);
                }
            }
        }
        Ok(count)
    }

    // marks what forced a variable's value
    fn mark_reason(
        &mut self,
        trail: &Trail,
        part: Part,
        variable: u32,
    ) -> Result<usize, AllocError> {
        if variable < trail.formula().variables {
            if let Some(clause) = trail.reason(variable) {
                return self.mark(trail, part, clause);
            }
        }
        Ok(0)
    }

    // marks a variable, but for one that has its value without a decision; whether it is new and in the last level
    fn mark_variable(&mut self, part: Part, variable: u32) -> Result<bool, AllocError> {
        let place = self.place_of(variable);
        if place < part.ground || self.is_marked(variable) {
            return Ok(false);
        }
        self.touched.push(variable)?;
        self.set_mark(variable, true);
        Ok(place >= part.begin)
    }
}
