//! Worked systems, so that the law on proved systems is seen to be about something.

ghost use Rattle.std.specs.Prelude.{[], ◌∷◌};
ghost use Rattle.wh_terms.specs.Tree.{Tm};
ghost use Rattle.wh_terms.specs.Typing.{WellTyped};
ghost use Rattle.wh_step.specs.Reduction.{Bounded};
ghost use Rattle.wh_proof.specs.Proves.{Proves};
ghost use Rattle.wh_proof_nodes.specs.MapSystem.{map_symbols, map_system, map_pair};
ghost use Rattle.wh_proof_nodes.specs.MapOrder.{map_order_nodes};
ghost use Rattle.wh_proof_nodes.specs.IdentitySystem.{identity_symbols, identity_system, identity_pairs, listed_nodes};

/// Each well-typed term over the system `map`, which maps a function over a list, is bounded. The system is well made
/// and passing under equal ranks, and its one dependency pair is proved by the subterm criterion: map's second argument
/// gets smaller (Kop 2012).
pub fn terms_over_map_are_bounded()
    ensures { (t : Tm) → WellTyped map_system.symbols t → Bounded map_system.rules t }
{}

/// Each well-typed term over the system `map` is bounded, by a path order: a proof with one node of filters and
/// inferences proves the system's pair, and the law on proved systems makes of it that well-typed terms are bounded.
/// The filter of the marked map keeps the list alone (Kop 2012).
pub fn terms_over_map_are_bounded_by_an_order()
    ensures proved { Proves map_symbols map_system.rules (map_pair ∷ []) ((0 ∷ []) ∷ []) map_order_nodes }
    ensures bounded { (t : Tm) → WellTyped map_system.symbols t → Bounded map_system.rules t }
{}

/// Each well-typed term over the system `identity` is bounded. Its rule `t (s X) => t (i X)` counts a number down, but
/// with the identity i around what is left, which is no part of the number, so that the subterm criterion does not do.
/// Interpretations do: where s adds 1 and i changes nothing, the argument of the marked t shrinks (Kop 2012; Fuhs and
/// Kop 2012).
pub fn terms_over_identity_are_bounded()
    ensures { (t : Tm) → WellTyped identity_system.symbols t → Bounded identity_system.rules t }
{}

/// Each well-typed term over the system `identity` is bounded, by usable rules: a node of interpretations covers the
/// rule of i alone, which is all that the pair in which t calls itself uses. The law on proved systems makes of it that
/// well-typed terms are bounded (Fuhs and Kop 2012; lists of rules are ours).
pub fn terms_over_identity_are_bounded_by_usable_rules()
    ensures proved { Proves identity_symbols identity_system.rules identity_pairs ((0 ∷ 1 ∷ []) ∷ []) listed_nodes }
    ensures bounded { (t : Tm) → WellTyped identity_system.symbols t → Bounded identity_system.rules t }
{}
