//! What guides the search: for each variable its last value and its level, and the order in which variables are
//! decided.

ghost use Rattle.std.specs.Bool.{OnTrue};
ghost use Rattle.std.specs.Prelude.{◌≡◌, ◌<◌, IfSome, None};
ghost use Rattle.wh_sat_trail.specs.Assignment.{value_in};
ghost use Rattle.wh_sat_trail.specs.State.{assigned, formula_of};

use crate::order::Order;
use std::alloc::{AllocError, Global};
use wh_sat_trail::{Literal, Trail};

/// What is remembered of each variable, the literal to decide next, if one is planned, and how much of the trail is
/// noted.
#[derive(Drop)]
pub struct Notes {
    order: Order,
    notes: Vec<Note>,
    planned: Option<Literal>,
    noted: usize,
    level: u32,
    stamps: Vec<u64>,
    stamp: u64,
}

/// The note on a variable: its last value, and the level where it got it; level 0 is before the first decision.
#[derive(Clone, Copy)]
struct Note {
    positive: bool,
    level: u32,
}

impl Notes {
    /// Nothing is remembered.
    pub fn new(alloc: Global, variables: u32) -> Result<Notes, AllocError> {
        let nothing = Note {
            positive: false,
            level: 0,
        };
        Ok(Notes {
            order: Order::new(alloc, variables)?,
            notes: Vec::from_elem(alloc, nothing, variables as usize)?,
            planned: None,
            noted: 0,
            level: 0,
            stamps: Vec::from_elem(alloc, 0, variables as usize + 1)?,
            stamp: 0,
        })
    }

    /// Remembers the values and levels of what has become true since the last time.
    pub fn note(&mut self, trail: &Trail) {
        let levels = trail.levels();
        for place in self.noted..trail.len() {
            let literal = trail.literal(place);
            if self.level < levels && trail.decision(self.level) == literal {
                self.level = self.level.saturating_add(1);
            }
            if let Some(note) = self.notes.get_mut(literal.variable as usize) {
                note.positive = literal.positive;
                note.level = self.level;
            }
        }
        self.forget(trail);
    }

    /// Takes the literals that are true now for noted; what was true beyond them is forgotten.
    pub fn forget(&mut self, trail: &Trail) {
        self.noted = trail.len();
        self.level = trail.levels();
    }

    /// The level of a variable that was noted.
    pub fn level(&self, variable: u32) -> u32 {
        match self.notes.get(variable as usize) {
            Some(note) => note.level,
            None => 0,
        }
    }

    /// The variable was in a conflict.
    pub fn raise(&mut self, variable: u32) {
        self.order.raise(variable);
    }

    /// The next conflict counts more than those before it.
    pub fn grow_step(&mut self) {
        self.order.grow_step();
    }

    /// The variables above these levels may be decided again.
    pub fn release(&mut self, trail: &Trail, levels: u32) -> Result<(), AllocError> {
        for place in (0..trail.len()).rev() {
            let variable = trail.literal(place).variable;
            if self.level(variable) <= levels {
                return Ok(());
            }
            self.order.put_back(variable)?;
        }
        Ok(())
    }

    /// The literal is decided next, if it has no value.
    pub fn plan(&mut self, literal: Option<Literal>) {
        self.planned = literal;
    }

    /// The greatest of the clause's levels below the last one, and how many different levels it has.
    pub fn levels_of(&mut self, clause: &[Literal], last: u32) -> (u32, u64) {
        self.stamp = self.stamp.saturating_add(1);
        let mut back = 0;
        let mut count: u64 = 0;
        for literal in clause {
            let level = self.level(literal.variable);
            if level < last && level > back {
                back = level;
            }
            if self.is_new(level) {
                count = count.saturating_add(1);
            }
        }
        (back, count)
    }

    // Whether the level has no stamp yet; it gets one.
    fn is_new(&mut self, level: u32) -> bool {
        let present = self.stamp;
        match self.stamps.get_mut(level as usize) {
            Some(stamp) => {
                let is_new = *stamp != present;
                *stamp = present;
                is_new
            }
            None => false,
        }
    }

    /// A literal without a value: the planned one, or else of the variable that comes first.
    pub fn advise(&mut self, trail: &Trail) -> Option<Literal>
        ensures { IfSome result (λ l. (l.variable < (formula_of trail.now).variables) × (value_in (assigned trail.now) l.variable ≡ None)) }
    {
        if let Some(literal) = self.planned {
            self.planned = None;
            if is_open(trail, literal.variable) {
                return Some(literal);
            }
        }
        for _ in 0..trail.formula().variables {
            let variable = self.order.take()?;
            if is_open(trail, variable) {
                return Some(self.literal_of(variable));
            }
        }
        None
    }

    // The variable with the value that it had last.
    fn literal_of(&self, variable: u32) -> Literal
        ensures { result.variable ≡ variable }
    {
        let positive = match self.notes.get(variable as usize) {
            Some(note) => note.positive,
            None => false,
        };
        Literal { variable, positive }
    }
}

// Whether a variable of the formula has no value.
fn is_open(trail: &Trail, variable: u32) -> bool
    ensures { OnTrue result ((variable < (formula_of trail.now).variables) × (value_in (assigned trail.now) variable ≡ None)) }
{
    if variable < trail.formula().variables {
        return match trail.value(variable) {
            None => true,
            Some(_) => false,
        };
    }
    false
}
