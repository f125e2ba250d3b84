//! Tables of names: a table numbers names in the order in which they came, and finds the number of a name.

ghost use Rattle.std.specs.Prelude.{◌≡◌, ◌<◌, ◌++◌, [], ◌∷◌, IfOk, OnErr, MatchBool, true, false, length};
ghost use Rattle.wh_system_parts.specs.Naming.{is_declared, number_of};

use indexmap::IndexSet;
use std::alloc::{AllocError, Global};
use std::marker::Model;
use wh_text::Name;

/// Different names, numbered from 0 in the order in which they came: at most 1,024.
#[derive(Drop)]
pub struct NameTable {
    names: IndexSet<Name>,
}

impl Model for NameTable {
    ghost use Rattle.std.specs.Prelude.{◌≤◌, List, ℕ, length};

    ghost Value = { List (List ℕ) };

    ghost view = { λ table. table.names.keys };

    ghost invariant = { λ table. length table.names.keys ≤ 1024 };
}

impl NameTable {
    /// The table without names.
    pub fn new(alloc: Global) -> NameTable
        ensures { result ≡ [] }
    {
        NameTable {
            names: IndexSet::new(alloc),
        }
    }

    /// A copy of the name joins at the end, unless it is there: whether it joined.
    pub fn add(&mut self, alloc: Global, name: &Name) -> Result<bool, AllocError>
        requires { length self.old < 1024 }
        ensures ok { IfOk result (λ joined. MatchBool joined
            ((is_declared self.old name.now ≡ false) × (self.new ≡ self.old ++ name.now ∷ []))
            ((is_declared self.old name.now ≡ true) × (self.new ≡ self.old))) }
        ensures err { OnErr result (self.new ≡ self.old) }
    {
        let joined = self.names.insert(Name::new(alloc, name.bytes())?)?;
        Ok(joined)
    }

    /// The number of a name, if it is there.
    pub fn number(&self, name: &Name) -> Option<u32>
        ensures { result ≡ number_of self.now name.now }
    {
        let number = self.names.get_index_of(name)?;
        Some(number as u32)
    }

    /// The names in order of their numbers.
    pub fn as_slice(&self) -> &[Name]
        ensures { result.now ≡ self.now }
    {
        self.names.as_slice()
    }
}
