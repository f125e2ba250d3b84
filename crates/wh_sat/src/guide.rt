//! What guides the search. It decides the variable that was in most of the latest conflicts, with the value that it had
//! last. After a conflict it may first plan other decisions, from which the same conflict follows: see `cut`. No answer
//! rests on any of this.

mod cut;
mod order;

ghost use Rattle.std.specs.Bool.{OnTrue};
ghost use Rattle.std.specs.Prelude.{◌≡◌, ◌<◌, IfSome, None};
ghost use Rattle.wh_sat_trail.specs.Assignment.{value_in};
ghost use Rattle.wh_sat_trail.specs.State.{assigned, formula_of};

use crate::guide::order::Order;
use std::alloc::{AllocError, Global};
use wh_sat_trail::{Literal, Trail};

/// What is remembered of each variable, and the literals to decide next.
#[derive(Drop)]
pub struct Guide {
    order: Order,
    notes: Vec<Note>,
    plan: Vec<Literal>,
    planned: usize,
    touched: Vec<u32>,
}

/// The note on a variable: its last value, where that stood in the trail, and whether it is in the conflict that is
/// looked at.
#[derive(Clone, Copy)]
struct Note {
    positive: bool,
    place: usize,
    is_marked: bool,
}

impl Guide {
    /// Nothing is planned or remembered.
    pub fn new(alloc: Global, variables: u32) -> Result<Guide, AllocError> {
        let nothing = Note {
            positive: false,
            place: 0,
            is_marked: false,
        };
        let notes = Vec::from_elem(alloc, nothing, variables as usize)?;
        let order = Order::new(alloc, variables)?;
        Ok(Guide {
            order,
            notes,
            plan: Vec::new(alloc),
            planned: 0,
            touched: Vec::new(alloc),
        })
    }

    /// A literal without a value: of the plan, or else of the variable that comes first.
    pub fn advise(&mut self, trail: &Trail) -> Option<Literal>
        ensures { IfSome result (λ l. (l.variable < (formula_of trail.now).variables) × (value_in (assigned trail.now) l.variable ≡ None)) }
    {
        match self.next_planned(trail) {
            Some(literal) => Some(literal),
            None => self.next_ordered(trail),
        }
    }

    /// The next literal of the plan without a value.
    fn next_planned(&mut self, trail: &Trail) -> Option<Literal>
        ensures { IfSome result (λ l. (l.variable < (formula_of trail.now).variables) × (value_in (assigned trail.now) l.variable ≡ None)) }
    {
        while self.planned < self.plan.len() {
            let literal = self.plan[self.planned];
            self.planned += 1;
            if is_open(trail, literal.variable) {
                return Some(literal);
            }
        }
        None
    }

    /// The first variable without a value. Those before it leave the order until they are noted again.
    fn next_ordered(&mut self, trail: &Trail) -> Option<Literal>
        ensures { IfSome result (λ l. (l.variable < (formula_of trail.now).variables) × (value_in (assigned trail.now) l.variable ≡ None)) }
    {
        while let Some(variable) = self.order.take() {
            if is_open(trail, variable) {
                return Some(self.literal_of(variable));
            }
        }
        None
    }

    /// The variable with the value that it had last.
    pub fn literal_of(&self, variable: u32) -> Literal
        ensures { result.variable ≡ variable }
    {
        let positive = match self.notes.get(variable as usize) {
            Some(note) => note.positive,
            None => false,
        };
        Literal { variable, positive }
    }

    /// Remembers the values and places of all that is true, before it goes. Nothing is planned any more.
    pub fn note(&mut self, trail: &Trail) -> Result<(), AllocError> {
        self.plan.truncate(0);
        self.planned = 0;
        for place in 0..trail.len() {
            let literal = trail.literal(place);
            if let Some(note) = self.notes.get_mut(literal.variable as usize) {
                note.positive = literal.positive;
                note.place = place;
            }
            self.order.put_back(literal.variable)?;
        }
        Ok(())
    }

    // where the variable stood in the trail
    fn place_of(&self, variable: u32) -> usize {
        match self.notes.get(variable as usize) {
            Some(note) => note.place,
            None => 0,
        }
    }

    // whether the variable is in the conflict that is looked at
    fn is_marked(&self, variable: u32) -> bool {
        match self.notes.get(variable as usize) {
            Some(note) => note.is_marked,
            None => false,
        }
    }

    // the variable is in the conflict that is looked at, or not
    fn set_mark(&mut self, variable: u32, is_marked: bool)
        ensures { self.new.touched ≡ self.old.touched }
    {
        if let Some(note) = self.notes.get_mut(variable as usize) {
            note.is_marked = is_marked;
        }
    }
}

// whether a variable of the formula has no value
fn is_open(trail: &Trail, variable: u32) -> bool
    ensures { OnTrue result ((variable < (formula_of trail.now).variables) × (value_in (assigned trail.now) variable ≡ None)) }
{
    if variable < trail.formula().variables {
        return match trail.value(variable) {
            None => true,
            Some(_) => false,
        };
    }
    false
}
