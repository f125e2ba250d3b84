//! The literals that are taken for true while one entry is checked.

ghost use Rattle.std.specs.Prelude.{◌≡◌, ◌++◌, ◌+◌, ◌<◌, ◌^◌, [], ◌∷◌, ℕ, IfOk, List, length};
ghost use Rattle.wh_sat_trail.specs.Member.{member};
ghost use Rattle.wh_sat_trail.specs.declared.literal.Literal.{Literal};
ghost use Rattle.wh_refute.specs.Told.{Tells};

use std::alloc::{AllocError, Global};
use wh_sat_trail::Literal;

/// Marks for the variables and for their negations: the true ones have the present number, so all become untrue at once
/// when it rises.
#[derive(Drop)]
pub struct Truth {
    round: u64,
    told: Vec<u64>,
    denied: Vec<u64>,
}

impl Truth {
    /// No literal over `variables` variables is true.
    pub fn new(alloc: Global, variables: u32) -> Result<Truth, AllocError>
        ensures { IfOk result (λ truth. Tells variables truth [] × (truth.round ≡ 1)) }
    {
        let count = variables as usize;
        Ok(Truth {
            round: 1,
            told: vec![in alloc; 0; count]?,
            denied: vec![in alloc; 0; count]?,
        })
    }

    /// Nothing is true any more.
    pub fn clear(&mut self)
        requires { self.old.round + 1 < 2 ^ 64 }
        ensures tells { (n : ℕ) (t : List Literal) → Tells n self.old t → Tells n self.new [] }
        ensures round { self.new.round ≡ self.old.round + 1 }
    {
        self.round += 1;
    }

    /// Whether the literal is true.
    pub fn holds(&self, literal: Literal) -> bool
        requires told { literal.variable < length self.now.told.items }
        requires denied { literal.variable < length self.now.denied.items }
        ensures { (n : ℕ) (t : List Literal) → Tells n self.now t → result ≡ member literal t }
    {
        let marks = if literal.positive {
            &self.told
        } else {
            &self.denied
        };
        marks[literal.variable as usize] == self.round
    }

    /// The literal becomes true.
    pub fn assume(&mut self, literal: Literal)
        requires told { literal.variable < length self.old.told.items }
        requires denied { literal.variable < length self.old.denied.items }
        ensures tells { (n : ℕ) (t : List Literal) → Tells n self.old t → Tells n self.new (t ++ literal ∷ []) }
        ensures round { self.new.round ≡ self.old.round }
    {
        let place = literal.variable as usize;
        if literal.positive {
            self.told[place] = self.round;
        } else {
            self.denied[place] = self.round;
        }
    }
}
