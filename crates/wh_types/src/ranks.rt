//! Ranks of sorts: the table that a proof gives, with a number for each sort.

ghost use Rattle.std.specs.Prelude.{◌≡◌, List, ℕ, ◌<◌, ◌^◌, length, slice_get, IfOk};

use std::alloc::{AllocError, Global};
use std::marker::Model;

/// A rank for each sort, in order of the sorts' numbers.
#[derive(Drop)]
pub struct Ranks {
    numbers: Vec<u32>,
}

impl Model for Ranks {
    ghost Value = { List ℕ };

    ghost view = { λ ranks. ranks.numbers.items };

    ghost invariant = { λ ranks. length ranks.numbers.items < 2 ^ 32 };
}

impl Ranks {
    /// The ranks of the sorts 0, 1 and so on, as these numbers give them.
    pub fn new(alloc: Global, numbers: &[u32]) -> Result<Self, AllocError>
        requires { length numbers.now < 2 ^ 32 }
        ensures { IfOk result (λ ranks. ranks ≡ numbers.now) }
    {
        Ok(Ranks {
            numbers: Vec::from_slice(alloc, numbers)?,
        })
    }

    /// How many sorts have a rank.
    pub fn count(&self) -> u32
        ensures { result ≡ length self.now }
    {
        self.numbers.len() as u32
    }

    /// The rank of a sort, told by its number.
    pub fn of(&self, sort: u32) -> u32
        requires { sort < length self.now }
        ensures { slice_get self.now sort ≡ Some result }
    {
        self.numbers[sort as usize]
    }
}
