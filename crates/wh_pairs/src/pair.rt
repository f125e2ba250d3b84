//! Dependency pairs as data, and sets of them by their numbers.

ghost use Rattle.std.specs.Prelude.{◌≡◌, ◌<◌, [], ◌∷◌, ◌++◌, IfOk, OnOk, OnErr, All};
ghost use Rattle.wh_pairs.specs.PairData.{IsIncreasing};

use std::alloc::{AllocError, Global};
use std::marker::Model;
use std::rc::Rc;
use wh_terms::{Metas, Terms};
use wh_types::List;

/// A call stands within an argument of a meta-variable on the right side: the meta-variable, and which of its arguments
/// that is, counted from 1.
#[derive(Clone, Copy, PartialEq, Eq)]
pub struct Condition {
    /// The number of the meta-variable.
    pub meta: u32,
    /// The place of the argument, counted from 1.
    pub place: u32,
}

/// A list of conditions.
pub type Conditions = List<Condition>;

/// A dependency pair of a rule (Kop 2012; Fuhs and Kop 2019): a call of a defined symbol in the right side, with the
/// left side that leads to it. The meta-variables are those of the rule, followed by fresh ones: for the binders of the
/// right side around the call, and for the arguments that the call lacks.
#[derive(Drop)]
pub struct Pair {
    /// The number of the rule.
    pub rule: u32,
    /// The meta-variables, by number.
    pub metas: Metas,
    /// The symbol that heads the left side.
    pub left_fun: u32,
    /// The arguments of the left side, which the pairs of a rule share.
    pub left: Rc<Terms>,
    /// The symbol that is called.
    pub right_fun: u32,
    /// The arguments of the call, as many as the rules of the symbol have.
    pub right: Terms,
    /// The arguments of meta-variables that the call stands within, by meta-variable and place.
    pub conditions: Conditions,
}

/// A list of dependency pairs.
pub type PairList = List<Pair>;

/// A set of pairs by their numbers, in increasing order.
#[derive(Drop)]
pub struct PairSet {
    items: Vec<u32>,
}

impl Model for PairSet {
    ghost use Rattle.std.specs.Prelude.{List, ℕ};
    ghost use Rattle.wh_pairs.specs.PairData.{IsIncreasing};

    ghost Value = { List ℕ };

    ghost view = { λ set. set.items.items };

    ghost invariant = { λ set. IsIncreasing set.items.items };
}

impl PairSet {
    /// The empty set.
    pub fn new(alloc: Global) -> PairSet
        ensures { result ≡ [] }
    {
        PairSet {
            items: Vec::new(alloc),
        }
    }

    /// The number joins at the end, above all that are there; without memory the set stays as it was.
    #[tactic(auto, using(crate::proofs::PairLemmas::increasing_push))]
    pub fn push(&mut self, item: u32) -> Result<(), AllocError>
        requires { All (λ n. n < item) self.old }
        ensures ok { OnOk result (self.new ≡ self.old ++ item ∷ []) }
        ensures err { OnErr result (self.new ≡ self.old) }
    {
        self.items.push(item)?;
        Ok(())
    }

    /// The numbers in increasing order.
    pub fn as_slice(&self) -> &[u32]
        ensures numbers { result.now ≡ self.now }
        ensures increasing { IsIncreasing self.now }
    {
        self.items.as_slice()
    }
}
