//! The first law of the kind that users want: beta alone ends on well-typed terms.

ghost use Rattle.std.specs.Prelude.{[]};
ghost use Rattle.wh_types.specs.Ty.{Ty};
ghost use Rattle.wh_terms.specs.Tree.{Tm};
ghost use Rattle.wh_terms.specs.Typing.{Symbols, Typed};
ghost use Rattle.wh_step.specs.Reduction.{Bounded};

/// In a system without rules every well-typed term is bounded: beta alone ends.
pub fn beta_alone_ends()
    ensures { (S : Symbols) (t : Tm) (a : Ty) → Typed S [] [] t a → Bounded [] t }
{}
