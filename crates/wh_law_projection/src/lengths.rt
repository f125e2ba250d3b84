//! What an accepted projection says of the longest sequences from projected arguments.

ghost use Rattle.std.specs.Prelude.{ℕ, ◌≡◌, ◌<◌, ◌≤◌, List};
ghost use Rattle.wh_terms.specs.Typing.{Symbols};
ghost use Rattle.wh_terms.specs.Rules.{RewriteRule, AreWellMade};
ghost use Rattle.wh_step.specs.Step.{Step};
ghost use Rattle.wh_pairs.specs.PairData.{PairData};
ghost use Rattle.wh_pairs.specs.Sets.{InSet};
ghost use Rattle.wh_subterm.specs.Projections.{Chosen, Equal, Below};
ghost use Rattle.wh_subterm.specs.SubtermRows.{IsProjection};
ghost use Rattle.wh_proof_calls.specs.MarkedCalls.{MarkedCall, PairLeads, ArgumentsStep};
ghost use Rattle.wh_law_projection.specs.LongestSequences.{IsProjectedLength, IsBoundedCall};

/// Under a projection that `check_projection` accepts a call has at most one projected argument, and so at most one
/// length of a longest sequence of steps and direct subterms from it.
pub fn projected_lengths_are_unique()
    ensures { (rules : List RewriteRule) (pairs : List PairData) (set drop : List ℕ) (args : List Chosen) (c : MarkedCall) (n m : ℕ)
        → IsProjection rules pairs set args drop → IsProjectedLength rules args c n → IsProjectedLength rules args c m → n ≡ m }
{}

/// Under an accepted projection a pair of the set that is below leads from a call with bounded arguments to one whose
/// projected argument has a shorter longest sequence of steps and direct subterms (Kop 2012, the subterm criterion).
pub fn below_lowers_the_longest_sequence()
    ensures { (S : Symbols) (rules : List RewriteRule) (pairs : List PairData) (set drop : List ℕ) (args : List Chosen)
        (p : PairData) (c d : MarkedCall) → AreWellMade S rules → IsProjection rules pairs set args drop → InSet pairs set p
        → Below args p → IsBoundedCall S rules c → PairLeads S p c d
        → (n m : ℕ) × IsProjectedLength rules args c n × IsProjectedLength rules args d m × (m < n) }
{}

/// Under an accepted projection a pair of the set that is equal leads from a call with bounded arguments to one whose
/// projected argument has as long a longest sequence (Kop 2012, the subterm criterion).
pub fn equal_keeps_the_longest_sequence()
    ensures { (S : Symbols) (rules : List RewriteRule) (pairs : List PairData) (set drop : List ℕ) (args : List Chosen)
        (p : PairData) (c d : MarkedCall) → AreWellMade S rules → IsProjection rules pairs set args drop → InSet pairs set p
        → Equal args p → IsBoundedCall S rules c → PairLeads S p c d
        → (n : ℕ) × IsProjectedLength rules args c n × IsProjectedLength rules args d n }
{}

/// A step in an argument of a call leads to a call whose projected argument has no longer longest sequence.
pub fn steps_do_not_raise_the_longest_sequence()
    ensures { (S : Symbols) (rules : List RewriteRule) (pairs : List PairData) (set drop : List ℕ) (args : List Chosen)
        (c d : MarkedCall) (n : ℕ) → AreWellMade S rules → IsProjection rules pairs set args drop → IsBoundedCall S rules c
        → ArgumentsStep (Step rules) c d → IsProjectedLength rules args c n
        → (m : ℕ) × IsProjectedLength rules args d m × (m ≤ n) }
{}
