//! The learnt clauses: the list of all of them, and which of them the trail still has.

use std::alloc::{AllocError, Global};
use std::mem;
use wh_sat::copy_clause;
use wh_sat_trail::{Entry, Literal, Refutation};
use wh_types::{Numbers, counted};

/// Learnt clauses of at most this number of levels are kept.
const FEW_LEVELS: u64 = 2;

/// A list of learnt clauses with hints. For each clause of the trail it has the clause's number in that list, where the
/// given clauses are counted first, and for each learnt clause of the trail the number of levels that it came from.
#[derive(Drop)]
pub struct Shelf {
    given: usize,
    list: Refutation,
    names: Vec<u32>,
    glues: Vec<u64>,
}

impl Shelf {
    /// Nothing is learnt, and `given` clauses were given.
    pub fn new(alloc: Global, given: usize) -> Result<Shelf, AllocError> {
        let mut names = Vec::with_capacity(alloc, given)?;
        for number in 0..given {
            names.push(counted(number)?)?;
        }
        Ok(Shelf {
            given,
            list: Refutation::new(alloc),
            names,
            glues: Vec::new(alloc),
        })
    }

    /// The list, which is empty after that.
    pub fn take_list(&mut self, alloc: Global) -> Result<Refutation, AllocError> {
        let empty = Refutation::new(alloc);
        Ok(mem::replace(&mut self.list, empty))
    }

    /// A clause joins the list. It was resolved from the clauses of the trail with these numbers; propagation comes to
    /// them in the opposite order.
    pub fn put(
        &mut self,
        alloc: Global,
        literals: &[Literal],
        resolved: &[usize],
    ) -> Result<(), AllocError> {
        let clause = copy_clause(alloc, literals)?;
        let mut hints = Numbers::new(alloc);
        for number in resolved.iter().rev() {
            hints.push(self.name(*number))?;
        }
        self.list.push(Entry { clause, hints })
    }

    // The number in the list of a clause of the trail.
    fn name(&self, number: usize) -> u32 {
        self.names.get(number).copied().unwrap_or(u32::MAX)
    }

    // The number of levels that a learnt clause of the trail came from.
    fn glue(&self, place: usize) -> u64 {
        self.glues.get(place).copied().unwrap_or(0)
    }

    /// The latest clause of the list joins the trail. It came from `glue` levels.
    pub fn join(&mut self, glue: u64) -> Result<(), AllocError> {
        let learnt = self.list.as_slice().len();
        let number = self.given.saturating_add(learnt).saturating_sub(1);
        self.names.push(counted(number)?)?;
        self.glues.push(glue)?;
        Ok(())
    }

    /// A number of levels that at least half of the trail's learnt clauses do not exceed.
    pub fn middle(&self, alloc: Global) -> Result<u64, AllocError> {
        let mut glues = Vec::from_slice(alloc, &self.glues)?;
        glues.sort_unstable();
        Ok(glues.get(glues.len() / 2).copied().unwrap_or(FEW_LEVELS))
    }

    /// Whether a clause of the trail stays: it was given, it has few levels or fewer than `most`, or it has `most` and
    /// is in the later half.
    pub fn is_kept(&self, number: usize, most: u64) -> bool {
        if number < self.given {
            return true;
        }
        let place = number.saturating_sub(self.given);
        let glue = self.glue(place);
        let is_late = place >= self.glues.len() / 2;
        glue <= FEW_LEVELS || glue < most || (glue == most && is_late)
    }

    /// The trail has no other clauses any more than those that stay.
    pub fn drop_others(&mut self, alloc: Global, most: u64) -> Result<(), AllocError> {
        let mut names = Vec::new(alloc);
        let mut glues = Vec::new(alloc);
        for number in 0..self.names.len() {
            if self.is_kept(number, most) {
                names.push(self.name(number))?;
                if number >= self.given {
                    glues.push(self.glue(number.saturating_sub(self.given)))?;
                }
            }
        }
        self.names = names;
        self.glues = glues;
        Ok(())
    }
}
