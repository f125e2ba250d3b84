//! Relations between sorts, as tables with a truth value for each two sorts.

ghost use Rattle.std.specs.Prelude.{◌≡◌, ◌*◌, length};
ghost use Rattle.wh_types.specs.Limits.{most_sorts};

use std::alloc::{AllocError, Global};

// The greatest number of sorts of a system.
const SORTS: usize = 256;

/// A relation between sorts.
#[derive(Drop)]
pub struct Relation {
    held: Vec<bool>,
    ghost full: { length held.items ≡ most_sorts * most_sorts },
}

impl Relation {
    ghost use Rattle.std.specs.Prelude.{◌≡◌, ◌↔◌, ◌⊎◌, ◌<◌, ℕ, IfOk, IsTrue};
    ghost use Rattle.wh_access.specs.Tables.{relates};

    /// The relation that relates nothing.
    pub fn new(alloc: Global) -> Result<Self, AllocError>
        ensures { IfOk result (λ relation. (s t : ℕ) → s < most_sorts → t < most_sorts → IsTrue (relates relation s t) → ⊥) }
    {
        Ok(Relation {
            held: vec![in alloc; false; SORTS * SORTS]?,
        })
    }

    /// The sort `from` becomes related to the sort `to`.
    pub fn insert(&mut self, from: u32, to: u32)
        requires from { from < most_sorts }
        requires to { to < most_sorts }
        ensures { (s t : ℕ) → s < most_sorts → t < most_sorts → IsTrue (relates self.new s t) ↔
            (IsTrue (relates self.old s t) ⊎ ((s ≡ from) × (t ≡ to))) }
    {
        self.held[from as usize * SORTS + to as usize] = true;
    }

    /// Whether the sort `from` is related to the sort `to`.
    pub fn holds(&self, from: u32, to: u32) -> bool
        requires from { from < most_sorts }
        requires to { to < most_sorts }
        ensures { result ≡ relates self.now from to }
    {
        self.held[from as usize * SORTS + to as usize]
    }
}
