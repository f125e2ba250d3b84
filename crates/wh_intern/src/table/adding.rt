//! Trees that join a table: `add` puts in what is new of a tree, and answers with the tree's number.

ghost use Rattle.std.specs.Prelude.{◌≡◌, ◌↔◌, ◌⊎◌, Contains, IfOk, OnOk, Some, length, slice_get};
ghost use Rattle.wh_terms.specs.Erase.{tm, tms};
ghost use Rattle.wh_terms.specs.Tree as t;
ghost use Rattle.wh_terms.specs.Tree.{Tm};
ghost use Rattle.wh_intern.specs.Parts.{part_tree};
ghost use Rattle.wh_intern.specs.Trees.{Adds, Below, Grows, IsPart, tree_of};
ghost use Rattle.wh_intern.specs.TableTrees.{trees};

use super::Table;
use crate::part::Part;
use std::alloc::AllocError;
use wh_terms::{Term, Terms};
use wh_types::Numbers;

impl Table {
    // The number of the node, which is added unless it is there. A table whose next number would not fit in 32 bits is
    // full: its room has ended as memory does.
    fn put(&mut self, part: Part) -> Result<u32, AllocError>
        requires { Below (length (trees self.old)) (part_tree part) }
        ensures number { IfOk result (λ n. slice_get (trees self.new) n ≡ Some (tree_of (trees self.old) (part_tree part))) }
        ensures adds { Adds (trees self.old) (trees self.new) (λ s. s ≡ tree_of (trees self.old) (part_tree part)) 1 }
    {
        if self.parts.len() >= u32::MAX as usize {
            return Err(AllocError);
        }
        let (index, _) = self.parts.insert_full(part)?;
        Ok(index as u32)
    }

    /// The number of the tree. Earlier numbers keep their trees, and only the parts of this one join: all of them, or
    /// some where memory or the numbers of 32 bits end.
    pub fn add(&mut self, term: &Term) -> Result<u32, AllocError>
        ensures number { IfOk result (λ n. slice_get (trees self.new) n ≡ Some (tm term.now)) }
        ensures parts { OnOk result ((s : Tm) → Contains (trees self.new) s ↔ (Contains (trees self.old) s ⊎ IsPart s (tm term.now))) }
        ensures grows { Grows (trees self.old) (trees self.new) (tm term.now) }
    {
        let number = self.insert(term)?;
        self.has_parts();
        Ok(number)
    }

    // The number of the tree, after its parts have joined one by one.
    #[cycle(insert)]
    fn insert(&mut self, term: &Term) -> Result<u32, AllocError>
        ensures number { IfOk result (λ n. slice_get (trees self.new) n ≡ Some (tm term.now)) }
        ensures grows { Grows (trees self.old) (trees self.new) (tm term.now) }
    {
        match term {
            Term::Bound(number) => self.put(Part::Bound(*number)),
            Term::Free(number, kind) => {
                let kind = kind.copy(self.alloc)?;
                self.put(Part::Free(*number, kind))
            }
            Term::Fun(symbol) => self.put(Part::Fun(*symbol)),
            Term::Meta(meta, items) => self.insert_meta(*meta, items),
            Term::Lam(kind, body) => {
                let body = self.insert(body)?;
                let kind = kind.copy(self.alloc)?;
                self.put(Part::Lam(kind, body))
            }
            Term::App(function, argument) => {
                let function = self.insert(function)?;
                let argument = self.insert(argument)?;
                self.put(Part::App(function, argument))
            }
        }
    }

    // The number of the meta-variable applied to the trees.
    #[cycle(insert)]
    fn insert_meta(&mut self, meta: u32, items: &Terms) -> Result<u32, AllocError>
        ensures number { IfOk result (λ n. slice_get (trees self.new) n ≡ Some (t.meta meta (tms items.now))) }
        ensures grows { Grows (trees self.old) (trees self.new) (t.meta meta (tms items.now)) }
    {
        let mut numbers = Numbers::new(self.alloc);
        for item in items.as_slice() {
            let number = self.insert(item)?;
            numbers.push(number)?;
        }
        self.put(Part::Meta(meta, numbers))
    }
}
