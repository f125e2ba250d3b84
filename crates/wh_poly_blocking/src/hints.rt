//! What guides the search: which conditions are looked at, and which first. Answers rest on none of this, but on that a
//! condition that is told to fail does fail.

ghost use Rattle.std.specs.Prelude.{◌≤◌, IfOk, IfSome, length};
ghost use Rattle.wh_types.specs.Limits.{most_pairs};
ghost use Rattle.wh_reduction_pairs.specs.TaskView.{task_data};
ghost use Rattle.wh_poly_guesses.specs.Conditions.{Fails};
ghost use Rattle.wh_poly_guesses.specs.Tasks.{IsGuessOf, IsTaskOf, guess_data};
ghost use Rattle.wh_poly_guesses.specs.Weighing.{Weighs};

use crate::held::{Bits, Held};
use std::alloc::{AllocError, Global};
use wh_poly_guesses::{Guess, Weighing, fails, node_of_guess};
use wh_reduction_pairs::Task;

/// The conditions, those with the fewest bits first, and what is known to have held.
#[derive(Drop)]
pub struct Hints {
    order: Vec<usize>,
    held: Held,
}

impl Hints {
    /// The hints for conditions: `numbers` has, for each condition, the numbers of the interpretations that it uses,
    /// and `sizes` how many monomials each interpretation may have.
    pub fn new(
        alloc: Global,
        numbers: &[Vec<usize>],
        sizes: &[usize],
    ) -> Result<Hints, AllocError> {
        let order = order_of(alloc, numbers, sizes)?;
        let held = Held::new(alloc)?;
        Ok(Hints { order, held })
    }

    /// The outcome of the guess that these bits write. Conditions that are known to hold are passed over; where no
    /// other one fails, all conditions are evaluated.
    pub fn weigh<'a>(
        &mut self,
        alloc: Global,
        task: &Task<'a>,
        guess: &Guess,
        bits: Bits<'_>,
    ) -> Result<Weighing, AllocError>
        requires few { length task.now.pairs.now ≤ most_pairs }
        requires task { IsTaskOf task.now }
        requires guess { IsGuessOf task.now guess.now }
        ensures { IfOk result (Weighs task.now (guess_data guess.now)) }
    {
        match self.first_failing(alloc, task, guess, bits)? {
            Some(number) => Ok(Weighing::Failing(number)),
            None => node_of_guess(alloc, task, guess),
        }
    }

    // The first condition in order that is told to fail.
    fn first_failing<'a>(
        &mut self,
        alloc: Global,
        task: &Task<'a>,
        guess: &Guess,
        bits: Bits<'_>,
    ) -> Result<Option<usize>, AllocError>
        requires task { IsTaskOf task.now }
        requires guess { IsGuessOf task.now guess.now }
        ensures { IfOk result (λ found. IfSome found (Fails (task_data task.now) (guess_data guess.now))) }
    {
        for place in 0..self.order.len() {
            let number = self.order[place];
            let key = bits.key_of(number);
            if self.held.has(key) {
                continue;
            }
            if fails(alloc, task, guess, number)? {
                return Ok(Some(number));
            }
            self.held.keep(key);
        }
        Ok(None)
    }
}

// The conditions, those with the fewest bits first.
fn order_of(
    alloc: Global,
    numbers: &[Vec<usize>],
    sizes: &[usize],
) -> Result<Vec<usize>, AllocError> {
    let mut weighed = Vec::new(alloc);
    for (condition, used) in numbers.iter().enumerate() {
        weighed.push((monomials_of(used, sizes), condition))?;
    }
    weighed.sort_unstable();
    let mut order = Vec::new(alloc);
    for (_, condition) in &weighed {
        order.push(*condition)?;
    }
    Ok(order)
}

// How many monomials there are for what has these numbers.
fn monomials_of(numbers: &[usize], sizes: &[usize]) -> usize {
    let mut sum: usize = 0;
    for number in numbers {
        sum = sum.saturating_add(sizes.get(*number).copied().unwrap_or(0));
    }
    sum
}
