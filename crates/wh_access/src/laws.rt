//! Laws of ranks: a strict cycle of demands leaves none, and rules are passing or have a first break.

ghost use Rattle.std.specs.Prelude.{◌⊎◌, List, ℕ};
ghost use Rattle.wh_terms.specs.Rules.{RewriteRule};
ghost use Rattle.wh_terms.specs.Typing.{Symbols};
ghost use Rattle.wh_access.specs.Demands.{IsStrictCycle};
ghost use Rattle.wh_access.specs.Passing.{IsFirstBreak, Passing};

/// Where demands lead round in a cycle with a strict one, rules are passing under no ranks.
pub fn strict_cycles_forbid_ranks()
    ensures { (S : Symbols) (rules : List RewriteRule) (rank : ℕ → ℕ) (sorts : List ℕ) → IsStrictCycle S rules sorts
        → Passing S rank rules → ⊥ }
{}

/// Rules are passing under ranks, or there is a first rule with a least meta-variable that breaks passing.
pub fn rules_pass_or_have_a_first_break()
    ensures { (S : Symbols) (rank : ℕ → ℕ) (rules : List RewriteRule) → Passing S rank rules ⊎ ((i z : ℕ) × IsFirstBreak S rank rules i z) }
{}
