//! Where a climb stands: the coefficients of the guess, what the conditions are under it, and which changes wait.
//!
//! Nothing is proved of what a climb finds: the guess that it ends with is evaluated as any other.

ghost use Rattle.std.specs.Prelude.{◌<◌};

use crate::known::{Case, Known};
use std::alloc::{AllocError, Global};
use std::collections::VecDeque;
use wh_poly_guesses::{Outcome, Uses};
use wh_poly_space::{MAX_COEFFICIENT, Random};

/// A change: a coefficient, told by the number of its symbol and by its place, and a value for it.
#[derive(Clone, Copy)]
pub struct Change {
    pub number: usize,
    pub place: usize,
    pub value: u8,
}

/// The conditions that a step is to better, and whether all conditions are met already.
#[derive(Drop)]
pub struct Aim {
    pub goals: Vec<usize>,
    pub met: bool,
}

/// A change that waits until a step.
#[derive(Clone, Copy)]
pub struct Waiting {
    pub change: Change,
    pub until: u64,
}

/// How much a condition counts at most.
const MOST: u64 = 5;
/// How many changes wait at most.
const WAITING: usize = 8;

/// Where a climb stands.
#[derive(Drop)]
pub struct State {
    /// The symbols that stand in each condition, the conditions of the rules first.
    pub uses: Vec<Uses>,
    /// How many conditions are of rules.
    pub rules: usize,
    /// For each number the conditions that have it on a side.
    pub holders: Vec<Vec<usize>>,
    /// The coefficients of each symbol and each marked symbol, by number.
    pub coefficients: Vec<Vec<u8>>,
    /// For each number whether its coefficients may have changed since it was read.
    pub changed: Vec<bool>,
    /// What the conditions are under the guess.
    pub outcomes: Vec<Outcome>,
    /// The outcomes of conditions that were seen before.
    pub known: Known,
    /// The changes that wait, the oldest first.
    pub waiting: VecDeque<Waiting>,
    /// The generator of the climb's random choices.
    pub random: Random,
    /// For each condition, as how many further looks its evaluation counts.
    pub burdens: Vec<u64>,
    /// How many looks at a condition are left.
    pub left: u64,
    /// The coefficients of the best guess so far.
    pub best: Vec<Vec<u8>>,
    /// The score of that guess.
    pub least: u64,
}

impl State {
    /// How far the guess is from being one under which all conditions are met and some pair is covered strictly.
    pub fn score(&self) -> u64 {
        let mut score: u64 = 0;
        let mut strict = false;
        for outcome in &self.outcomes {
            score = score.saturating_add(outcome.wanting.min(MOST));
            strict = strict || outcome.strict;
        }
        if strict {
            score
        } else {
            score.saturating_add(1)
        }
    }

    /// The conditions that are not met.
    pub fn failing(&self, alloc: Global) -> Result<Vec<usize>, AllocError> {
        let mut failing = Vec::new(alloc);
        for (k, outcome) in self.outcomes.iter().enumerate() {
            if outcome.wanting > 0 {
                failing.push(k)?;
            }
        }
        Ok(failing)
    }

    /// The outcome of the condition under the guess.
    pub fn outcome(&self, condition: usize) -> Outcome {
        match self.outcomes.get(condition) {
            Some(outcome) => *outcome,
            None => Outcome {
                wanting: 0,
                strict: false,
            },
        }
    }

    /// A number below the bound, by chance; 0 where there is none.
    pub fn choose(&mut self, bound: usize) -> usize {
        if bound == 0 {
            return 0;
        }
        let mut random = self.random;
        let chosen = random.below(bound as u64);
        self.random = random;
        chosen as usize
    }

    /// What the next step is to better: a condition that is not met, or, where all are met, up to three pairs.
    pub fn aim(&mut self, alloc: Global) -> Result<Aim, AllocError> {
        let failing = self.failing(alloc)?;
        let mut goals = Vec::new(alloc);
        let met = failing.is_empty();
        if met {
            let pairs = self.uses.len().saturating_sub(self.rules);
            for _ in 0..3 {
                let chosen = self.choose(pairs);
                goals.push(self.rules.saturating_add(chosen))?;
            }
        } else {
            let chosen = self.choose(failing.len());
            if let Some(goal) = failing.get(chosen) {
                goals.push(*goal)?;
            }
        }
        Ok(Aim { goals, met })
    }

    // The coefficient that the change is of.
    fn value_of(&self, change: Change) -> u8 {
        match self.coefficients.get(change.number) {
            Some(list) => match list.get(change.place) {
                Some(value) => *value,
                None => 0,
            },
            None => 0,
        }
    }

    /// The change that gives the coefficient back the value that it has now.
    pub fn reverse(&self, change: Change) -> Change {
        Change {
            number: change.number,
            place: change.place,
            value: self.value_of(change),
        }
    }

    /// The coefficient gets the value of the change.
    pub fn set(&mut self, change: Change) {
        if let Some(list) = self.coefficients.get_mut(change.number) {
            if change.place < list.len() {
                list[change.place] = change.value;
            }
        }
        self.note(change.number, true);
    }

    // The coefficients of what has the number may have changed since it was read, or not.
    fn note(&mut self, number: usize, changed: bool) {
        if let Some(noted) = self.changed.get_mut(number) {
            *noted = changed;
        }
    }

    /// Whether the symbol with the number is to be read anew. From then on it counts as read.
    pub fn is_due(&mut self, number: usize) -> bool {
        let due = self.changed.get(number) == Some(&true);
        self.note(number, false);
        due
    }

    /// The symbols that stand on the sides of the condition.
    pub fn numbers_in(&self, alloc: Global, condition: usize) -> Result<Vec<usize>, AllocError> {
        let mut numbers = Vec::new(alloc);
        if let Some(uses) = self.uses.get(condition) {
            numbers.extend_from_slice(&uses.left)?;
            numbers.extend_from_slice(&uses.right)?;
        }
        Ok(numbers)
    }

    /// The conditions that have the number on a side.
    pub fn holders_of(&self, alloc: Global, number: usize) -> Result<Vec<usize>, AllocError> {
        match self.holders.get(number) {
            Some(list) => Vec::from_slice(alloc, list),
            None => Ok(Vec::new(alloc)),
        }
    }

    /// The outcomes of these conditions under the guess.
    pub fn outcomes_of(
        &self,
        alloc: Global,
        conditions: &[usize],
    ) -> Result<Vec<Outcome>, AllocError> {
        let mut outcomes = Vec::new(alloc);
        for condition in conditions {
            outcomes.push(self.outcome(*condition))?;
        }
        Ok(outcomes)
    }

    /// The condition has this outcome now.
    pub fn put(&mut self, condition: usize, outcome: Outcome) {
        if condition < self.outcomes.len() {
            self.outcomes[condition] = outcome;
        }
    }

    /// The conditions have these outcomes again.
    pub fn restore(&mut self, conditions: &[usize], outcomes: &[Outcome]) {
        for (i, outcome) in outcomes.iter().enumerate() {
            if i < conditions.len() {
                self.put(conditions[i], *outcome);
            }
        }
    }

    /// How many coefficients there are.
    pub fn count(&self) -> u64 {
        let mut count: u64 = 0;
        for list in &self.coefficients {
            count = count.saturating_add(list.len() as u64);
        }
        count
    }

    /// Some of the coefficients become others, by chance, and no change waits.
    pub fn stir(&mut self) {
        let mut random = self.random;
        for number in 0..self.coefficients.len() {
            stir(&mut self.coefficients[number], &mut random);
        }
        self.random = random;
        self.changed.fill(true);
        self.waiting.clear();
    }

    /// Whether the change waits at this step.
    pub fn waits(&self, change: Change, step: u64) -> bool {
        let mut found = false;
        for waiting in &self.waiting {
            found = found || (same_change(waiting.change, change) && waiting.until >= step);
        }
        found
    }

    /// The change has to wait for some steps.
    pub fn delay(&mut self, change: Change, step: u64) -> Result<(), AllocError> {
        let more = self.choose(4) as u64;
        let until = step.saturating_add(3).saturating_add(more);
        self.waiting.push_back(Waiting { change, until })?;
        if self.waiting.len() > WAITING {
            self.waiting.pop_front();
        }
        Ok(())
    }

    /// The guess is kept where no better one was seen.
    pub fn keep_best(&mut self, alloc: Global) -> Result<(), AllocError> {
        let score = self.score();
        if score < self.least {
            self.best = copy_lists(alloc, &self.coefficients)?;
            self.least = score;
        }
        Ok(())
    }

    /// The coefficients of the best guess.
    pub fn into_best(self) -> Vec<Vec<u8>> {
        self.best
    }

    /// The condition with the coefficients that its sides are read by.
    pub fn case_of(&self, alloc: Global, condition: usize) -> Result<Case, AllocError> {
        let mut coefficients = Vec::new(alloc);
        for number in &self.numbers_in(alloc, condition)? {
            if let Some(list) = self.coefficients.get(*number) {
                coefficients.extend_from_slice(list)?;
            }
        }
        Ok(Case {
            condition,
            coefficients,
        })
    }

    /// One look is spent.
    pub fn spend(&mut self) {
        self.left = self.left.saturating_sub(1);
    }

    /// Further looks are spent for a condition whose evaluation takes long.
    pub fn spend_more(&mut self, condition: usize) {
        let more = self.burdens.get(condition).copied().unwrap_or(0);
        self.left = self.left.saturating_sub(more);
    }
}

/// A copy of the lists.
pub fn copy_lists(alloc: Global, lists: &[Vec<u8>]) -> Result<Vec<Vec<u8>>, AllocError> {
    let mut copies = Vec::new(alloc);
    for list in lists {
        copies.push(Vec::from_slice(alloc, list)?)?;
    }
    Ok(copies)
}

// Whether two changes are equal.
fn same_change(a: Change, b: Change) -> bool {
    a.number == b.number && a.place == b.place && a.value == b.value
}

/// The changes of one coefficient each in the conditions, in random order. Where the conditions are not met, a symbol
/// that stands on left sides alone only grows, and one that stands on right sides alone only falls.
pub fn changes_for(alloc: Global, state: &mut State, aim: &Aim) -> Result<Vec<Change>, AllocError> {
    let mut changes = Vec::new(alloc);
    for goal in &aim.goals {
        if let Some(uses) = state.uses.get(*goal) {
            add_changes(state, uses, aim.met, &mut changes)?;
        }
    }
    let mut random = state.random;
    shuffle(&mut changes, &mut random);
    state.random = random;
    Ok(changes)
}

// The changes for the condition join.
fn add_changes(
    state: &State,
    uses: &Uses,
    met: bool,
    changes: &mut Vec<Change>,
) -> Result<(), AllocError> {
    for number in &uses.left {
        let falls = met || uses.right.contains(number);
        add_changes_of(state, *number, true, falls, changes)?;
    }
    for number in &uses.right {
        if !uses.left.contains(number) {
            add_changes_of(state, *number, met, true, changes)?;
        }
    }
    Ok(())
}

// The changes of the coefficients of what has the number, upwards, downwards or both.
fn add_changes_of(
    state: &State,
    number: usize,
    grows: bool,
    falls: bool,
    changes: &mut Vec<Change>,
) -> Result<(), AllocError> {
    if number >= state.coefficients.len() {
        return Ok(());
    }
    for (place, value) in state.coefficients[number].iter().enumerate() {
        if grows && *value < MAX_COEFFICIENT {
            changes.push(Change {
                number,
                place,
                value: *value + 1,
            })?;
        }
        if falls && *value > 0 {
            changes.push(Change {
                number,
                place,
                value: *value - 1,
            })?;
        }
    }
    Ok(())
}

// Puts the changes in an order of chance.
fn shuffle(changes: &mut [Change], random: &mut Random) {
    for i in 1..changes.len() {
        let other = random.below(i as u64 + 1) as usize;
        changes.swap(i, other);
    }
}

// Some of the coefficients of a list become others.
fn stir(list: &mut [u8], random: &mut Random) {
    for i in 0..list.len() {
        if random.below(100) < 15 {
            list[i] = match random.below(5) {
                0 | 1 => 0,
                2 | 3 => 1,
                _ => 2,
            };
        }
    }
}
