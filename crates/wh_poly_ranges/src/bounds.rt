//! Ranges of coefficients, told by their ends, and how ends are cut off.

ghost use Rattle.std.specs.Prelude.{◌≡◌, IfOk, OnOk, [], get_or, map, replicate, set};
ghost use Rattle.wh_pairs.specs.Marked.{AreMarked};
ghost use Rattle.wh_reduction_pairs.specs.TaskView.{task_data};
ghost use Rattle.wh_poly_ranges.specs.Bounds.{AreRanges, IsBound, IsSetTo, lists_in, lists_of};
ghost use Rattle.wh_poly_ranges.specs.Excluded.{coefficient_in};

use std::alloc::{AllocError, Global};
use wh_poly_guesses::{Guess, change_at, guess_by};
use wh_reduction_pairs::Task;

/// A coefficient: the number of the symbol, or behind all symbols of the marked symbol, that it belongs to, and the
/// place of its monomial in the space.
#[derive(Clone, Copy)]
pub struct Coefficient {
    pub number: usize,
    pub place: usize,
}

/// Coefficients, a list for each symbol and then for each marked symbol of the set, and the guess that has them.
#[derive(Drop)]
pub struct Bound {
    pub lists: Vec<Vec<u8>>,
    pub guess: Guess,
}

/// Ranges of coefficients, each from the one in `low` to the one in `high`.
#[derive(Drop)]
pub struct Ranges {
    pub low: Bound,
    pub high: Bound,
}

/// Which end of a range is cut off.
#[derive(Clone, Copy)]
pub enum End {
    Low,
    High,
}

/// An end of some coefficient of the list with this number was cut off.
#[derive(Clone, Copy)]
pub struct Cut {
    pub number: usize,
    pub end: End,
}

/// The ends of ranges alone, and how they were cut last.
#[derive(Drop)]
pub struct Span {
    pub low: Vec<Vec<u8>>,
    pub high: Vec<Vec<u8>>,
    pub cut: Option<Cut>,
}

impl Span {
    /// A copy of the ends of the ranges.
    pub fn of(alloc: Global, ranges: &Ranges) -> Result<Span, AllocError>
        ensures low { IfOk result (λ span. lists_in span.low.items ≡ lists_of ranges.now.low) }
        ensures high { IfOk result (λ span. lists_in span.high.items ≡ lists_of ranges.now.high) }
    {
        Ok(Span {
            low: copy_lists(alloc, &ranges.low.lists)?,
            high: copy_lists(alloc, &ranges.high.lists)?,
            cut: None,
        })
    }
}

impl Ranges {
    /// The ranges with these ends.
    pub fn by<'a>(
        alloc: Global,
        task: &Task<'a>,
        marked: &[u32],
        span: Span,
    ) -> Result<Ranges, AllocError>
        requires marked { AreMarked (task_data task.now).pairs (task_data task.now).set marked.now }
        ensures ranges { IfOk result (AreRanges task.now) }
        ensures low { IfOk result (λ made. lists_of made.low ≡ lists_in span.low.items) }
        ensures high { IfOk result (λ made. lists_of made.high ≡ lists_in span.high.items) }
    {
        let Span { low, high, .. } = span;
        Ok(Ranges {
            low: Bound::by(alloc, task, marked, low)?,
            high: Bound::by(alloc, task, marked, high)?,
        })
    }
}

impl Bound {
    /// The bound with these coefficients.
    pub fn by<'a>(
        alloc: Global,
        task: &Task<'a>,
        marked: &[u32],
        lists: Vec<Vec<u8>>,
    ) -> Result<Bound, AllocError>
        requires marked { AreMarked (task_data task.now).pairs (task_data task.now).set marked.now }
        ensures bound { IfOk result (IsBound task.now) }
        ensures lists { IfOk result (λ b. lists_of b ≡ lists_in lists.items) }
    {
        let guess = guess_by(alloc, task, marked, &lists)?;
        Ok(Bound { lists, guess })
    }

    /// The coefficient; one that is missing is 0.
    pub fn at(&self, at: Coefficient) -> u8
        ensures { result ≡ coefficient_in (lists_of self.now) at.number at.place }
    {
        match self.lists.get(at.number) {
            Some(list) => list.get(at.place).copied().unwrap_or(0),
            None => 0,
        }
    }

    /// The coefficient gets another value, and the guess is read anew; nothing changes where there is no such
    /// coefficient.
    pub fn set<'a>(
        &mut self,
        alloc: Global,
        task: &Task<'a>,
        at: Coefficient,
        value: u8,
    ) -> Result<(), AllocError>
        requires bound { IsBound task.now self.old }
        ensures bound { OnOk result (IsBound task.now self.new) }
        ensures value { OnOk result (IsSetTo at.number at.place value (lists_of self.old) (lists_of self.new)) }
    {
        write(&mut self.lists, at, value);
        match self.lists.get(at.number) {
            Some(list) => change_at(alloc, task, &mut self.guess, at.number, list),
            None => Ok(()),
        }
    }

    /// How many coefficients the list with the number has.
    pub fn count(&self, number: usize) -> usize {
        match self.lists.get(number) {
            Some(list) => list.len(),
            None => 0,
        }
    }
}

/// The coefficient gets the value, where there is one.
pub fn write(lists: &mut Vec<Vec<u8>>, at: Coefficient, value: u8)
    ensures { lists_in lists.new.items
        ≡ set (lists_in lists.old.items) at.number (set (get_or (lists_in lists.old.items) at.number []) at.place value) }
{
    if let Some(list) = lists.get_mut(at.number) {
        write_at(list, at.place, value);
    }
}

// The coefficient at the place of one list gets the value, where there is one.
fn write_at(list: &mut Vec<u8>, place: usize, value: u8)
    ensures { list.new.items ≡ set list.old.items place value }
{
    if let Some(coefficient) = list.get_mut(place) {
        *coefficient = value;
    }
}

/// For each size a list of that length, in which each coefficient is `value`.
pub fn all_equal(alloc: Global, sizes: &[usize], value: u8) -> Result<Vec<Vec<u8>>, AllocError>
    ensures { IfOk result (λ lists. lists_in lists.items ≡ map (λ size. replicate size value) sizes.now) }
{
    let mut lists = Vec::new(alloc);
    for size in sizes {
        lists.push(Vec::from_elem(alloc, value, *size)?)?;
    }
    Ok(lists)
}

/// A copy of the lists.
pub fn copy_lists(alloc: Global, lists: &[Vec<u8>]) -> Result<Vec<Vec<u8>>, AllocError>
    ensures { IfOk result (λ made. lists_in made.items ≡ lists_in lists.now) }
{
    let mut made = Vec::new(alloc);
    for list in lists {
        made.push(Vec::from_slice(alloc, list)?)?;
    }
    Ok(made)
}
