//! Laws of dependency pairs, each the contract of a function that does nothing.

ghost use Rattle.std.specs.Prelude.{◌≡◌, ◌⊎◌, ◌↔◌, List, Contains};
ghost use Rattle.wh_terms.specs.Typing.{Symbols};
ghost use Rattle.wh_terms.specs.Rules.{RewriteRule};
ghost use Rattle.wh_pairs.specs.PairData.{PairData, Within};
ghost use Rattle.wh_pairs.specs.Conditions.{AreInOrder, with_condition};
ghost use Rattle.wh_pairs.specs.Candidates.{candidates};
ghost use Rattle.wh_pairs.specs.Subsumption.{ArePairs};

/// Candidates have one list of pairs at most.
pub fn one_list_of_pairs()
    ensures { (candidates p q : List PairData) → ArePairs candidates p → ArePairs candidates q → p ≡ q }
{}

/// Candidates have a list of pairs.
pub fn there_are_pairs()
    ensures { (candidates : List PairData) → (pairs : List PairData) × ArePairs candidates pairs }
{}

/// A list of conditions in increasing order stays so when a condition joins it, and has that condition and those
/// before.
pub fn conditions_join_in_order()
    ensures order { (c : Within) (cs : List Within) → AreInOrder cs → AreInOrder (with_condition c cs) }
    ensures members { (c : Within) (cs : List Within) (d : Within) → Contains (with_condition c cs) d ↔ ((c ≡ d) ⊎ Contains cs d) }
{}

/// The conditions of each candidate stand in increasing order, by meta-variable and then by place, each once.
pub fn conditions_are_in_order()
    ensures { (S : Symbols) (rules : List RewriteRule) (p : PairData) → Contains (candidates S rules) p → AreInOrder p.conditions }
{}
