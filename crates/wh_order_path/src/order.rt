//! Laws of the path order on filtered trees, as a relation at the root of steps: the main one is `path_order_ends`.

ghost use Rattle.std.specs.Prelude.{ℕ, List, []};
ghost use Rattle.wh_types.specs.Ty.{Ty};
ghost use Rattle.wh_terms.specs.Tree.{Tm, bound};
ghost use Rattle.wh_terms.specs.Substitution.{act};
ghost use Rattle.wh_terms.specs.Typing.{Symbols, Declared, Typed};
ghost use Rattle.wh_terms.specs.Value.{Body, Value};
ghost use Rattle.wh_terms.specs.StepOver.{StepOver, AreFreeTerms};
ghost use Rattle.wh_step_laws.specs.Ends.{Ends};
ghost use Rattle.wh_step_laws.specs.RootRelations.{IsRoot, KnowsSorts};
ghost use Rattle.wh_order_inference.specs.Inferences.{Inference};
ghost use Rattle.wh_order_extended.specs.Kinds.{AreCounted};
ghost use Rattle.wh_order_extended.specs.Many.{Many, Plus};
ghost use Rattle.wh_order_path.specs.Order.{AtLeast, Greater};
ghost use Rattle.wh_order_extended.specs.Filtered.{HasOneSort};
ghost use Rattle.wh_order_path.specs.OrderRoot.{OrderRoot};

/// Each well-typed term over one sort ends by steps of the path order and of beta.
pub fn path_order_ends()
    ensures { (F : Symbols) (prec : ℕ → ℕ) (t : Tm) (a : Ty) → KnowsSorts F → HasOneSort F → Typed F [] [] t a
        → Ends (StepOver (OrderRoot F prec)) t }
{}

/// The path order keeps types, is kept by substitution of terms, and has one number of arguments for each symbol.
pub fn orders_are_roots()
    ensures { (F : Symbols) (prec : ℕ → ℕ) → IsRoot F (OrderRoot F prec) }
{}

/// Where a tree is at least another one, zero or more steps lead from an instance of it to the instance of that one.
pub fn trees_at_least_are_many_steps()
    ensures { (F : Symbols) (prec : ℕ → ℕ) (M : List Declared) (s t u v : Tm) (i : Inference) (g : ℕ → Body) (φ : ℕ → Ty → Tm)
        → AtLeast F prec M s t i → AreCounted M g → AreFreeTerms φ → Value g (act bound φ s) u → Value g (act bound φ t) v
        → Many (StepOver (OrderRoot F prec)) u v }
{}

/// Where a tree is greater than another one, one or more steps lead from an instance of it to the instance of that one.
pub fn trees_greater_are_steps()
    ensures { (F : Symbols) (prec : ℕ → ℕ) (M : List Declared) (s t u v : Tm) (i : Inference) (g : ℕ → Body) (φ : ℕ → Ty → Tm)
        → Greater F prec M s t i → AreCounted M g → AreFreeTerms φ → Value g (act bound φ s) u → Value g (act bound φ t) v
        → Plus (StepOver (OrderRoot F prec)) u v }
{}
