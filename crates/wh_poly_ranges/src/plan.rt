//! What guides the search in ranges: which symbols stand in which conditions, and which conditions wait to be looked
//! at. Answers rest on none of this.

ghost use Rattle.wh_pairs.specs.Marked.{AreMarked};
ghost use Rattle.wh_reduction_pairs.specs.TaskView.{task_data};
ghost use Rattle.wh_poly_guesses.specs.Tasks.{IsTaskOf};

use crate::bounds::{Cut, End};
use std::alloc::{AllocError, Global};
use std::collections::VecDeque;
use wh_poly_guesses::{Uses, uses_of};
use wh_reduction_pairs::Task;

/// The plan of a search: the symbols on the two sides of each condition, the conditions on whose left and on whose
/// right side each symbol stands, and the greatest number of looks at one condition.
#[derive(Drop)]
pub struct Plan {
    pub uses: Vec<Uses>,
    on_left: Vec<Vec<usize>>,
    on_right: Vec<Vec<usize>>,
    pub limit: u64,
}

/// The conditions that wait, each once, and how much work is left: a look at a condition, or more where its sides are
/// large.
#[derive(Drop)]
pub struct Work {
    waiting: VecDeque<usize>,
    is_waiting: Vec<bool>,
    left: u64,
}

impl Plan {
    /// Plans the search for the task with these marked symbols: which rules and pairs each interpretation occurs in.
    /// `count` is how many symbols and marked symbols have an interpretation.
    pub fn new<'a>(
        alloc: Global,
        task: &Task<'a>,
        marked: &[u32],
        count: usize,
        limit: u64,
    ) -> Result<Plan, AllocError>
        requires task { IsTaskOf task.now }
        requires marked { AreMarked (task_data task.now).pairs (task_data task.now).set marked.now }
    {
        let uses = uses_of(alloc, task, marked)?;
        let on_left = holders_of(alloc, &uses, count, End::Low)?;
        let on_right = holders_of(alloc, &uses, count, End::High)?;
        Ok(Plan {
            uses,
            on_left,
            on_right,
            limit,
        })
    }

    /// The symbols on the side of the condition at which this end is cut off: the left side for lower ends, the right
    /// side for upper ones.
    pub fn read_at(&self, condition: usize, end: End) -> &[usize] {
        match self.uses.get(condition) {
            Some(uses) => side_of(uses, end),
            None => &[],
        }
    }

    /// The conditions that are to be looked at again once an end of the symbol with the number was cut off: for a lower
    /// end those with the symbol on the right side, for an upper end those with it on the left side.
    pub fn touched_by(&self, number: usize, end: End) -> &[usize] {
        let holders = match end {
            End::Low => &self.on_right,
            End::High => &self.on_left,
        };
        match holders.get(number) {
            Some(conditions) => conditions,
            None => &[],
        }
    }

    /// In how many conditions the symbol with the number stands.
    pub fn weight_of(&self, number: usize) -> usize {
        let left = self.touched_by(number, End::High).len();
        left.saturating_add(self.touched_by(number, End::Low).len())
    }
}

// The symbols on the side at which this end is cut off.
fn side_of(uses: &Uses, end: End) -> &[usize] {
    match end {
        End::Low => &uses.left,
        End::High => &uses.right,
    }
}

impl Work {
    /// All conditions wait.
    pub fn new(alloc: Global, conditions: usize, left: u64) -> Result<Work, AllocError> {
        let mut work = Work {
            waiting: VecDeque::new(alloc),
            is_waiting: Vec::from_elem(alloc, false, conditions)?,
            left,
        };
        work.wake_all(conditions)?;
        Ok(work)
    }

    // All of the conditions with numbers below `conditions` wait.
    fn wake_all(&mut self, conditions: usize) -> Result<(), AllocError> {
        for condition in 0..conditions {
            self.add(condition)?;
        }
        Ok(())
    }

    /// Only this condition waits.
    pub fn start(&mut self, condition: usize) -> Result<(), AllocError> {
        self.clear();
        self.add(condition)
    }

    /// Where ranges were cut in the list with a number, only the conditions for which that matters wait.
    pub fn go_on(&mut self, plan: &Plan, cut: Option<Cut>) -> Result<(), AllocError> {
        if let Some(cut) = cut {
            self.clear();
            self.wake(plan.touched_by(cut.number, cut.end))?;
        }
        Ok(())
    }

    // No condition waits any more.
    fn clear(&mut self) {
        self.waiting.clear();
        self.is_waiting.fill(false);
    }

    /// These conditions wait again.
    pub fn wake(&mut self, conditions: &[usize]) -> Result<(), AllocError> {
        for condition in conditions {
            self.add(*condition)?;
        }
        Ok(())
    }

    // The condition waits.
    fn add(&mut self, condition: usize) -> Result<(), AllocError> {
        if let Some(waits) = self.is_waiting.get_mut(condition) {
            if !*waits {
                *waits = true;
                self.waiting.push_back(condition)?;
            }
        }
        Ok(())
    }

    /// The condition that waits longest, which is looked at now; none where the work is done or spent.
    pub fn next(&mut self) -> Option<usize> {
        if self.left == 0 {
            return None;
        }
        let condition = self.waiting.pop_front()?;
        if let Some(waits) = self.is_waiting.get_mut(condition) {
            *waits = false;
        }
        Some(condition)
    }

    /// Work of this amount is done.
    pub fn spend(&mut self, amount: u64) {
        self.left = self.left.saturating_sub(amount);
    }

    /// Whether no work is left.
    pub fn is_spent(&self) -> bool {
        self.left == 0
    }
}

// For each of `count` numbers the conditions with that symbol on the side at which this end is cut off.
fn holders_of(
    alloc: Global,
    all: &[Uses],
    count: usize,
    end: End,
) -> Result<Vec<Vec<usize>>, AllocError> {
    let mut holders = Vec::new(alloc);
    for _ in 0..count {
        holders.push(Vec::new(alloc))?;
    }
    for (condition, uses) in all.iter().enumerate() {
        add_holder(&mut holders, side_of(uses, end), condition)?;
    }
    Ok(holders)
}

// The condition joins the lists of these numbers.
fn add_holder(
    holders: &mut Vec<Vec<usize>>,
    numbers: &[usize],
    condition: usize,
) -> Result<(), AllocError> {
    for number in numbers {
        if *number < holders.len() {
            holders[*number].push(condition)?;
        }
    }
    Ok(())
}
