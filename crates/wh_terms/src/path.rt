//! Positions in a term, as paths from its root, and single steps of a reduction.

ghost use Rattle.std.specs.Prelude.{◌≡◌, ◌<◌, [], ◌∷◌, ◌++◌, IfOk, OnOk, OnErr};
ghost use Rattle.wh_terms.specs.Places.{IsPath};

use smallvec::SmallVec;
use std::alloc::{AllocError, Global};
use std::marker::Model;

/// A place in a term: 0 leads to the function of an application or the body of an abstraction, 1 to the argument
/// of an application.
#[derive(Drop)]
pub struct Path {
    steps: SmallVec<u8, 16>,
}

impl Model for Path {
    ghost use Rattle.std.specs.Prelude.{List, ℕ};
    ghost use Rattle.wh_terms.specs.Places.{IsPath};

    ghost Value = { List ℕ };

    ghost view = { λ path. path.steps.items };

    ghost invariant = { λ path. IsPath path.steps.items };
}

impl Path {
    /// The empty path, which leads to the term itself.
    pub fn new(alloc: Global) -> Path
        ensures { result ≡ [] }
    {
        Path {
            steps: SmallVec::new(alloc),
        }
    }

    /// The path goes on with `item`, which is 0 or 1; without memory it stays as it was.
    pub fn push(&mut self, item: u8) -> Result<(), AllocError>
        requires { item < 2 }
        ensures ok { OnOk result (self.new ≡ self.old ++ item ∷ []) }
        ensures err { OnErr result (self.new ≡ self.old) }
    {
        self.steps.push(item)?;
        Ok(())
    }

    /// The steps from the whole term downward, each 0 or 1.
    pub fn as_slice(&self) -> &[u8]
        ensures steps { result.now ≡ self.now }
        ensures path { IsPath self.now }
    {
        self.steps.as_slice()
    }
}

/// One step of a reduction: what is applied, and where.
#[derive(Drop)]
pub struct Step {
    /// The number of the rule, or `None` for beta.
    pub rule: Option<u32>,
    /// The place of the redex.
    pub path: Path,
}
