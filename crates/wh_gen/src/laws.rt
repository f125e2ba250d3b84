//! Laws of generated systems, each the contract of a function that does nothing.

ghost use Rattle.std.specs.Prelude.{◌≡◌, ℕ, ◌*◌, ◌≤◌, length};
ghost use Rattle.wh_types.specs.Limits.{most_generated};
ghost use Rattle.wh_system.specs.WellMade.{IsWellMadeSystem};
ghost use Rattle.wh_pairs.specs.SystemPairs.{HasTooManyPairs};
ghost use Rattle.wh_gen.specs.Family.{gen_data};

/// Each generated system is well made.
pub fn generated_systems_are_well_made()
    ensures { (n : ℕ) → 1 ≤ n → n ≤ most_generated → IsWellMadeSystem (gen_data n) }
{}

/// A generated system has two rules for each of its functions.
pub fn generated_systems_have_two_rules_each()
    ensures { (n : ℕ) → length (gen_data n).rules ≡ 2 * n }
{}

/// No generated system has more than 4,096 pairs.
pub fn generated_systems_have_few_pairs()
    ensures { (n : ℕ) → 1 ≤ n → n ≤ most_generated → HasTooManyPairs (gen_data n) → ⊥ }
{}
